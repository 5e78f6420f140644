// Lists the trace on standard input. The bytes are made by the library; here they are only read and
// written.
#![tactic(auto)]

use parts::reading::read_all;
use run::listing::{MOST_READ, list};
use std::io;
use std::io::{Read, Write};

fn main(rt: HostRuntime) -> io::Result<()> {
    let heap = rt.alloc();
    let input = read_all(heap, rt.stdin().take(MOST_READ))?;
    rt.stdout().write_all(&list(heap, &input)?)
}

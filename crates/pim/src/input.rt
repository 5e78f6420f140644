// How an input is read: a file that is named, or standard input.
use anyhow::{Context, Result};
use parts::reading::read_all;
use std::alloc::Global;
use std::fs::File;

/// The bytes of the file with a name, or of standard input.
pub fn read_input(rt: &HostRuntime, name: Option<&str>) -> Result<Vec<u8>> {
    let heap = rt.alloc();
    match name {
        Some(name) => {
            let file = File::open(rt, name).context(format_args!("cannot read {name}"))?;
            read_all(heap, file).context(format_args!("cannot read {name}"))
        }
        None => read_all(heap, rt.stdin()).context("cannot read standard input"),
    }
}

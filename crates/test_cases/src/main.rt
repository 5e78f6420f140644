// Lists many short traces in one run. The input has, for each, a byte with the length of its name,
// the name, four bytes with the trace's length, and the trace; tests/make_cases.py makes it from
// cases.txt.
#![tactic(auto)]

ghost use Rattle.std.specs.Prelude.{length};
ghost use Rattle.std.specs.Iterator.{at_most};

use parts::cases::{put_heading, split_counted};
use parts::reading::read_all;
use run::listing::list;
use std::alloc::{AllocError, Global};
use std::io;
use std::io::Write;

struct Case<'a> {
    name: &'a [u8],
    trace: &'a [u8],
}

// The cases of an input, as far as they are whole. Each program has its own: they differ in all
// that `next` reads behind the name, and one generic type would need a trait and a marker to say
// the rest.
#[derive(Drop)]
struct Cases<'a>(&'a [u8]);

impl<'a> Iterator for Cases<'a> {
    type Item = Case<'a>;

    ghost remaining = { λ s. at_most (length s.0.now) };

    fn next(&mut self) -> Option<Case<'a>> {
        let (name, rest) = split_counted(self.0, 1)?;
        let (size, rest) = rest.split_first_chunk::<4>()?;
        let (trace, rest) = rest.split_at_checked(u32::from_le_bytes(*size) as usize)?;
        self.0 = rest;
        Some(Case { name, trace })
    }
}

fn list_all(heap: Global, input: &[u8]) -> Result<Vec<u8>, AllocError> {
    let mut out = Vec::new(heap);
    for Case { name, trace } in Cases(input) {
        put_heading(&mut out, name)?;
        out.extend_from_slice(&list(heap, trace)?)?;
    }
    Ok(out)
}

fn main(rt: HostRuntime) -> io::Result<()> {
    let heap = rt.alloc();
    let input = read_all(heap, rt.stdin())?;
    rt.stdout().write_all(&list_all(heap, &input)?)
}

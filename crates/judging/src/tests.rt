// Listings and traces worked out by hand.
use crate::checking::{Checked, check};
use crate::comparing::{Verdict, compare, line_at};
use crate::judging::judge;
use memory::word_table::WordTable;
use run::listing::{MEMORY_WORDS, listing_geometry};
use std::test::Fail;
use trace::trace::Trace;

// The worked example of docs/FORMATS.md, and its listing.
const TRACE: [u8; 72] = [
    1, 0, 0, 0, 0, 1, 0, 0, 0x10, 0, 0, 0, 0x2A, 0, 0, 0, //
    2, 0, 0, 0, 1, 6, 0, 0, 0x10, 0, 0, 0, 0, 0, 0, 0, //
    3, 0, 0, 0, 0, 0, 0, 0, 0x11, 0, 0, 0, 0, 0, 0, 0, //
    4, 0, 0, 0, 1, 7, 0, 0, 0x10, 0, 0, 0, 0x2B, 0, 0, 0, //
    0x40, 0, 0, 0, 1, 2, 0, 0,
];

const LISTING: &[u8] = b"0000001 0 W  00000010 OK 00000000 I  EM 0013
0000002 1 LR 00000010 OK 0000002A I  EM 0007
0000003 0 R  00000011 WT 00000000 I  I  0002
0000004 1 UW 00000010 OK 00000000 EM EM 0002
0000005 0 R  00000011 OK 00000000 I  S  0007
TOTAL 000000000031
";

// The line, the bytes before it and the field, or 0, 0 and no name where they agree.
fn shown(verdict: Verdict) -> (usize, usize, &'static str) {
    match verdict {
        Verdict::Agree => (0, 0, ""),
        Verdict::Differ(d) => (d.line, d.start, d.field.name()),
    }
}

#[test]
fn listings_of_one_step(rt: HostRuntime) {
    let ours = b"0000001 0 R  00000004 OK 00000000 I  EC 0013\nTOTAL 000000000013\n";
    let theirs: [(&[u8], (usize, usize, &str)); 7] = [
        (
            b"0000001 0 R  00000004 OK 00000000 I  EC 0013\nTOTAL 000000000013\n",
            (0, 0, ""),
        ),
        (
            b"0000001 0 R  00000004 OK 00000001 I  EC 0014\nTOTAL 000000000014\n",
            (1, 0, "word"),
        ),
        (
            b"0000001 0 R  00000004 OK 00000000 I  S  0013\nTOTAL 000000000013\n",
            (1, 0, "state left"),
        ),
        (
            b"0000001 0 R  4 OK 00000000 I  EC 0013\nTOTAL 000000000013\n",
            (1, 0, "line"),
        ),
        (
            b"0000001 0 R  00000004 OK 00000000 I  EC 0013\nTOTAL 000000000012\n",
            (2, 45, "total"),
        ),
        (
            b"0000001 0 R  00000004 OK 00000000 I  EC 0013\n",
            (2, 45, "line"),
        ),
        (
            b"0000001 0 R  00000004 OK 00000000 I  EC 0013\nTOTAL 000000000013",
            (2, 45, "end"),
        ),
    ];
    for (theirs, expected) in theirs {
        assert_eq!(rt; shown(compare(ours, theirs)), expected);
    }
    assert_eq!(rt; line_at(ours, 45), Some(&b"TOTAL 000000000013\n"[..]));
    assert_eq!(rt; line_at(ours, 64), None);
}

#[test]
fn worked_example(rt: HostRuntime) -> Result<(), Fail> {
    let mut words = [0; MEMORY_WORDS];
    let mut memory = WordTable::new(&mut words);
    let trace = Trace::read(&TRACE).ok().ok_or("trace")?;
    let judgement = judge(
        rt.alloc(),
        listing_geometry(&trace),
        &mut memory,
        trace,
        LISTING,
    )?;
    assert_eq!(rt; judgement.steps, 5);
    assert_eq!(rt; shown(judgement.verdict), (0, 0, ""));
    let Checked::Trace(overview) = check(&TRACE) else {
        return Err(Fail::from("no trace"));
    };
    assert_eq!(rt;
        (overview.processors, overview.records, overview.note),
        (2, 4, 0)
    );
    assert_eq!(rt; (overview.first, overview.last), (Some(1), Some(4)));
    Ok(())
}

// What is wrong in the worked example where one byte of it is another.
#[test]
fn one_byte_changed(rt: HostRuntime) {
    let cases: [(usize, u8, (u32, &str)); 6] = [
        (16, 0, (1, "stamp lower than the one before")),
        (36, 2, (2, "processor not below those of the trace")),
        (37, 9, (2, "no such command code")),
        (47, 1, (2, "data of a command that writes no word")),
        (68, 2, (99, "version not 1")),
        (64, 0x50, (99, "more bytes of records than the input holds")),
    ];
    for (at, byte, expected) in cases {
        let mut bytes = TRACE;
        bytes[at] = byte;
        let found = match check(&bytes) {
            Checked::Trace(_) => (98, ""),
            Checked::Trailer(fault) => (99, fault.text()),
            Checked::Record(index, fault) => (index, fault.text()),
        };
        assert_eq!(rt; found, expected);
    }
}

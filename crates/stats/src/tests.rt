// Statistics of runs that were worked out by hand.
use crate::statistics::{Statistics, trace_statistics};
use memory::dead::DeadList;
use memory::memory::Memory;
use memory::screen::Screen;
use memory::word_table::WordTable;
use protocol::command::{Command, Request};
use protocol::geometry::Geometry;
use protocol::measures::{Costs, Measures};
use std::alloc::{AllocError, Global};
use std::test::Fail;
use trace::record::{Record, encode};
use trace::trace::Trace;

// A processor's command at an address.
type Asked = (u8, Command, u32);

// Records of so many processors and their trailer.
fn trace_bytes(heap: Global, processors: u8, asked: &[Asked]) -> Result<Vec<u8>, Fail> {
    let mut bytes = Vec::new(heap);
    for (processor, command, address) in asked {
        let request = Request {
            processor: *processor,
            command: *command,
            address: *address,
        };
        bytes.extend_from_slice(&encode(Record { stamp: 0, request }))?;
    }
    let size = u32::try_from(bytes.len()).ok().ok_or("size")?;
    bytes.extend_from_slice(&size.to_le_bytes())?;
    bytes.extend_from_slice(&[1, processors, 0, 0])?;
    Ok(bytes)
}

fn statistics<M: Memory>(
    heap: Global,
    measures: Measures,
    memory: &mut M,
    bytes: &[u8],
) -> Result<Statistics, Fail> {
    let geometry = Geometry::new(measures).ok().ok_or("geometry")?;
    let trace = Trace::read(bytes).ok().ok_or("trace")?;
    Ok(trace_statistics(heap, geometry, memory, trace)?)
}

// Names and numbers, one a line.
fn shown(heap: Global, numbers: &Statistics, zeros: bool) -> Result<String, AllocError> {
    let mut text = String::new(heap);
    for number in numbers.named(heap)? {
        if zeros || number.value > 0 {
            let value = number.value;
            text.push_str(&number.name)?;
            text.push_str(&format!(in heap; " {value}\n")?)?;
        }
    }
    Ok(text)
}

const EXAMPLE: [Asked; 4] = [
    (0, Command::W(0x2A), 0x10),
    (1, Command::LR, 0x10),
    (0, Command::R, 0x11),
    (1, Command::UW(0x2B), 0x10),
];

// The statistics of the worked example of docs/FORMATS.md.
const EXAMPLE_NUMBERS: &str = "\
processors 2\n\
steps 5\n\
cycles 31\n\
left 0\n\
done.0.R 1\n\
waiting.0.R 1\n\
refused.0.R 0\n\
done.0.W 1\n\
waiting.0.W 0\n\
refused.0.W 0\n\
done.0.DW 0\n\
waiting.0.DW 0\n\
refused.0.DW 0\n\
done.0.RI 0\n\
waiting.0.RI 0\n\
refused.0.RI 0\n\
done.0.RP 0\n\
waiting.0.RP 0\n\
refused.0.RP 0\n\
done.0.RB 0\n\
waiting.0.RB 0\n\
refused.0.RB 0\n\
done.0.LR 0\n\
waiting.0.LR 0\n\
refused.0.LR 0\n\
done.0.UW 0\n\
waiting.0.UW 0\n\
refused.0.UW 0\n\
done.0.U 0\n\
waiting.0.U 0\n\
refused.0.U 0\n\
done.1.R 0\n\
waiting.1.R 0\n\
refused.1.R 0\n\
done.1.W 0\n\
waiting.1.W 0\n\
refused.1.W 0\n\
done.1.DW 0\n\
waiting.1.DW 0\n\
refused.1.DW 0\n\
done.1.RI 0\n\
waiting.1.RI 0\n\
refused.1.RI 0\n\
done.1.RP 0\n\
waiting.1.RP 0\n\
refused.1.RP 0\n\
done.1.RB 0\n\
waiting.1.RB 0\n\
refused.1.RB 0\n\
done.1.LR 1\n\
waiting.1.LR 0\n\
refused.1.LR 0\n\
done.1.UW 1\n\
waiting.1.UW 0\n\
refused.1.UW 0\n\
done.1.U 0\n\
waiting.1.U 0\n\
refused.1.U 0\n\
hits 1\n\
misses 3\n\
from_cache 2\n\
from_memory 1\n\
swap_outs 0\n\
bus.F 1\n\
bus.FI 2\n\
bus.I 0\n\
bus.LK 1\n\
bus.UL 1\n\
cycles.swap_in 13\n\
cycles.transfer 14\n\
cycles.swap_out 0\n\
cycles.invalidation 0\n\
cycles.lock_signal 4\n\
lr_hits 0\n\
lr_hits_exclusive 0\n\
releases 1\n\
releases_unwaited 0\n\
refusals.03 0\n\
refusals.04 0\n\
refusals.05 0\n\
refusals.06 0\n\
refusals.07 0\n\
refusals.08 0\n\
refusals.09 0\n\
refusals.10 0\n\
refusals.11 0\n\
lines.EM 0\n\
lines.EC 0\n\
lines.SM 1\n\
lines.S 1\n\
lines.I 126\n\
copies.0 255\n\
copies.1 0\n\
copies.2 1\n\
copies.3 0\n\
copies.4 0\n\
copies.5 0\n\
copies.6 0\n\
copies.7 0\n\
copies.8 0\n";

#[test]
fn the_worked_example(rt: HostRuntime) -> Result<(), Fail> {
    let heap = rt.alloc();
    let measures = Measures {
        processors: 2,
        columns: 16,
        ways: 4,
        lock_entries: 2,
        costs: Costs::STANDARD,
    };
    let mut words = [0; 1_024];
    let mut memory = WordTable::new(&mut words);
    let bytes = trace_bytes(heap, 2, &EXAMPLE)?;
    let numbers = statistics(heap, measures, &mut memory, &bytes)?;
    assert_eq!(rt; shown(heap, &numbers, true)?.as_str(), EXAMPLE_NUMBERS);
    Ok(())
}

// Every kind of refusal that a run can meet, invalidations, swap-outs, and releases that nobody
// waited for: one line and one lock entry a processor, four blocks, of which block 3 is dead.
const REFUSED: [Asked; 21] = [
    (0, Command::R, 0),
    (1, Command::R, 0),
    (0, Command::LR, 0),
    (0, Command::U, 0),
    (0, Command::LR, 1),
    (0, Command::LR, 2),
    (0, Command::LR, 1),
    (1, Command::U, 0),
    (0, Command::W(7), 4),
    (1, Command::R, 4),
    (1, Command::W(8), 5),
    (0, Command::RI, 4),
    (1, Command::DW(9), 4),
    (1, Command::R, 100),
    (0, Command::UW(6), 1),
    (0, Command::RP, 0),
    (0, Command::R, 0),
    (1, Command::R, 0),
    (1, Command::RI, 0),
    (1, Command::R, 12),
    (2, Command::R, 0),
];

const REFUSED_NUMBERS: &str = "\
processors 2\n\
steps 21\n\
cycles 94\n\
done.0.R 2\n\
done.0.W 1\n\
done.0.RI 1\n\
done.0.RP 1\n\
done.0.LR 2\n\
refused.0.LR 2\n\
done.0.UW 1\n\
done.0.U 1\n\
done.1.R 3\n\
refused.1.R 2\n\
done.1.W 1\n\
refused.1.DW 1\n\
refused.1.RI 1\n\
refused.1.U 1\n\
hits 5\n\
misses 8\n\
from_cache 4\n\
from_memory 4\n\
swap_outs 2\n\
bus.F 5\n\
bus.FI 3\n\
bus.I 2\n\
bus.LK 1\n\
cycles.swap_in 52\n\
cycles.transfer 28\n\
cycles.swap_out 10\n\
cycles.invalidation 4\n\
lr_hits 2\n\
lr_hits_exclusive 1\n\
releases 2\n\
releases_unwaited 2\n\
refusals.03 1\n\
refusals.04 1\n\
refusals.06 1\n\
refusals.07 1\n\
refusals.08 1\n\
refusals.09 1\n\
refusals.10 1\n\
refusals.11 1\n\
lines.S 2\n\
copies.0 3\n\
copies.2 1\n";

#[test]
fn refusals_and_releases(rt: HostRuntime) -> Result<(), Fail> {
    let heap = rt.alloc();
    let measures = Measures {
        processors: 2,
        columns: 1,
        ways: 1,
        lock_entries: 1,
        costs: Costs::STANDARD,
    };
    let mut words = [0; 16];
    let mut dead = DeadList::new();
    assert!(rt; dead.fill(&[3]).is_ok());
    let mut memory = Screen::new(WordTable::new(&mut words), dead);
    let bytes = trace_bytes(heap, 3, &REFUSED)?;
    let numbers = statistics(heap, measures, &mut memory, &bytes)?;
    assert_eq!(rt; shown(heap, &numbers, false)?.as_str(), REFUSED_NUMBERS);
    Ok(())
}

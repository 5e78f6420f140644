// The lines of a listing.
ghost use Rattle.std.specs.Prelude.{◌≡◌, [], ◌∷◌, ◌++◌, OnOk};
ghost use Rattle.text.specs.Lines.{field, last_field, answer_named, shown_of, shown_line, line_of, stuck_line, summary_lines, refusal_line};

use crate::digits::{decimal, hexadecimal};
use crate::names::{command_name, state_name};
use crate::step::{Step, Summary};
use protocol::answer::Answer;
use protocol::refusal::Refusal;
use std::alloc::AllocError;

// What a line shows of an answer or a refusal. Its names are arrays, since a refusal's is its
// number in digits.
#[derive(Clone, Copy)]
struct ShownAnswer {
    name: [u8; 2],
    word: u32,
    found: [u8; 2],
    left: [u8; 2],
    cycles: u32,
}

fn answer_name(answer: &Answer) -> [u8; 2]
    ensures { result ≡ answer_named answer.now }
{
    match answer {
        Answer::Done(_) => *b"OK",
        Answer::Wait(_) => *b"WT",
    }
}

fn shown_of(answer: &Result<Answer, Refusal>) -> ShownAnswer
    ensures { result ≡ shown_of answer.now }
{
    match answer {
        Ok(answer) => ShownAnswer {
            name: answer_name(answer),
            word: answer.word(),
            found: state_name(answer.found()),
            left: state_name(answer.left()),
            cycles: answer.cycles(),
        },
        Err(refusal) => ShownAnswer {
            name: decimal::<2>(refusal.number() as u64),
            word: 0,
            found: *b"--",
            left: *b"--",
            cycles: 0,
        },
    }
}

// No format: one to a Vec fails with an io::Error, where these fail only by memory, and writes
// digits past their places.
fn put_text(out: &mut Vec<u8>, text: &[u8], end: u8) -> Result<(), AllocError>
    ensures { OnOk result (out.new.items ≡ out.old.items ++ (text.now ++ (end ∷ []))) }
{
    out.extend_from_slice(text)?;
    out.push(end)?;
    Ok(())
}

/// Puts a field and the space behind it at the end of `out`. The one error is want of memory.
pub fn put_field(out: &mut Vec<u8>, text: &[u8]) -> Result<(), AllocError>
    ensures { OnOk result (out.new.items ≡ out.old.items ++ field text.now) }
{
    put_text(out, text, b' ')
}

/// Puts the last field of a line and byte 10 at the end of `out`. The one error is want of memory.
pub fn put_last(out: &mut Vec<u8>, text: &[u8]) -> Result<(), AllocError>
    ensures { OnOk result (out.new.items ≡ out.old.items ++ last_field text.now) }
{
    put_text(out, text, b'\n')
}

fn put_answer(out: &mut Vec<u8>, shown: ShownAnswer) -> Result<(), AllocError>
    ensures { OnOk result (out.new.items ≡ out.old.items ++ shown_line shown) }
{
    put_field(out, &shown.name)?;
    put_field(out, &hexadecimal(shown.word))?;
    put_field(out, &shown.found)?;
    put_field(out, &shown.left)?;
    put_last(out, &decimal::<4>(shown.cycles as u64))?;
    Ok(())
}

/// Puts a step's line at the end of `out`: step, processor, command, address, answer, word, state
/// found, state left, cycles. The one error is want of memory.
#[tactic(auto, unfolding(crate::specs::Lines::line_of))]
pub fn put_step(out: &mut Vec<u8>, step: &Step) -> Result<(), AllocError>
    ensures { OnOk result (out.new.items ≡ out.old.items ++ line_of step.now) }
{
    put_field(out, &decimal::<7>(step.number as u64))?;
    put_field(out, &decimal::<1>(step.request.processor as u64))?;
    put_field(out, &command_name(step.request.command))?;
    put_field(out, &hexadecimal(step.request.address))?;
    put_answer(out, shown_of(&step.answer))?;
    Ok(())
}

fn put_stuck(out: &mut Vec<u8>, left: u32) -> Result<(), AllocError>
    ensures { OnOk result (out.new.items ≡ out.old.items ++ stuck_line left) }
{
    if left > 0 {
        put_field(out, b"STUCK")?;
        put_last(out, &decimal::<7>(left as u64))?;
    }
    Ok(())
}

/// Puts the line TOTAL at the end of `out`, and the line STUCK where records are left. The one
/// error is want of memory.
#[tactic(auto, unfolding(crate::specs::Lines::summary_lines))]
pub fn put_summary(out: &mut Vec<u8>, summary: &Summary) -> Result<(), AllocError>
    ensures { OnOk result (out.new.items ≡ out.old.items ++ summary_lines summary.now) }
{
    put_field(out, b"TOTAL")?;
    put_last(out, &decimal::<12>(summary.cycles))?;
    put_stuck(out, summary.left)?;
    Ok(())
}

/// Puts the line TRACE at the end of `out`, which is all that is listed of a refused trace: the
/// refusal's number in two digits, and behind 13 the record's index, from 0, in seven. The one
/// error is want of memory.
pub fn put_refusal(out: &mut Vec<u8>, refusal: Refusal) -> Result<(), AllocError>
    ensures { OnOk result (out.new.items ≡ out.old.items ++ refusal_line refusal) }
{
    put_field(out, b"TRACE")?;
    match refusal {
        Refusal::Record(index) => {
            put_field(out, b"13")?;
            put_last(out, &decimal::<7>(index as u64))?;
        }
        _ => put_last(out, &decimal::<2>(refusal.number() as u64))?,
    }
    Ok(())
}

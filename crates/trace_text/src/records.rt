// A record and the line that it is.
ghost use Rattle.std.specs.Prelude.{◌≡◌, ◌≤◌, ◌++◌, OnOk};
ghost use Rattle.trace_text.specs.Texts.{stamp_from, processor_below, record_in, record_line};
ghost use Rattle.text.specs.Lines.{field};
ghost use Rattle.trace_text.specs.Commands.{name_of};
ghost use Rattle.trace_text.specs.Lines.{fields_of};
ghost use Rattle.trace_text.specs.Ranges.{InRange};

use crate::commands::command_of;
use crate::fields::Fields;
use crate::numbers::{read_decimal, read_hexadecimal, without_zeros};
use protocol::command::{Command, Request};
use std::alloc::AllocError;
use text::digits::{decimal, hexadecimal};
use text::lines::{put_field, put_last};
use text::names::command_name;
use trace::record::Record;

fn stamp_from(field: &[u8], last: u32) -> Option<u32>
    ensures { result ≡ stamp_from last field.now }
{
    read_decimal(field).filter(|stamp| last <= *stamp)
}

fn processor_below(field: &[u8], processors: u8) -> Option<u8>
    ensures { result ≡ processor_below processors field.now }
{
    let processor = u8::try_from(read_decimal(field)?).ok()?;
    (processor < processors).then_some(processor)
}

/// The record that a line is in a trace for so many processors, behind a record with this stamp.
pub(crate) fn record_in(line: &[u8], processors: u8, last: u32) -> Option<Record>
    ensures { result ≡ record_in processors last (fields_of line.now) }
{
    let mut fields = Fields { rest: line };
    let stamp = fields.next_field()?;
    let processor = fields.next_field()?;
    let name = fields.next_field()?;
    let address = fields.next_field()?;
    Some(Record {
        stamp: stamp_from(stamp, last)?,
        request: Request {
            processor: processor_below(processor, processors)?,
            address: read_hexadecimal(address)?,
            command: command_of(name, fields)?,
        },
    })
}

fn put_name(out: &mut Vec<u8>, command: Command) -> Result<(), AllocError>
    ensures { OnOk result (out.new.items ≡ out.old.items ++ field (name_of command)) }
{
    let name = command_name(command);
    match name {
        [letter, b' '] => put_field(out, &[letter]),
        _ => put_field(out, &name),
    }
}

/// Puts the line of a record behind some text.
pub(crate) fn put_record(out: &mut Vec<u8>, next: &Record) -> Result<(), AllocError>
    ensures line { OnOk result (out.new.items ≡ out.old.items ++ record_line next.now) }
    ensures in_range { OnOk result (InRange next.now) }
{
    let request = next.request;
    put_field(out, without_zeros(&decimal::<10>(next.stamp as u64)))?;
    put_field(out, without_zeros(&decimal::<10>(request.processor as u64)))?;
    put_name(out, request.command)?;
    match request.command.written() {
        Some(word) => {
            put_field(out, &hexadecimal(request.address))?;
            put_last(out, &hexadecimal(word))
        }
        None => put_last(out, &hexadecimal(request.address)),
    }
}

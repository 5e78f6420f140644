// The first line of a text: the version, and the processors of the trace.
ghost use Rattle.std.specs.Prelude.{◌≡◌, ◌++◌, OnOk};
ghost use Rattle.trace_text.specs.Lines.{fields_of, line_of};
ghost use Rattle.trace_text.specs.Texts.{processors_in, header_in, header_fields};

use crate::fields::Fields;
use crate::numbers::{read_decimal, without_zeros};
use std::alloc::AllocError;
use text::digits::decimal;
use text::lines::put_last;

fn processors_in(field: &[u8]) -> Option<u8>
    ensures { result ≡ processors_in field.now }
{
    let processors = u8::try_from(read_decimal(field)?).ok()?;
    (1..=8).contains(&processors).then_some(processors)
}

/// The processors of the header that a line is.
pub(crate) fn header_in(line: &[u8]) -> Option<u8>
    ensures { result ≡ header_in (fields_of line.now) }
{
    let mut fields = Fields { rest: line };
    let trace = fields.next_field()?;
    let version = fields.next_field()?;
    let number = fields.next_field()?;
    let label = fields.next_field()?;
    let processors = fields.next_field()?;
    if fields.next_field().is_some() {
        return None;
    }
    if trace == b"trace".as_slice()
        && version == b"version".as_slice()
        && read_decimal(number) == Some(1)
        && label == b"processors".as_slice()
    {
        processors_in(processors)
    } else {
        None
    }
}

/// Puts the header of a trace for so many processors behind some text.
pub(crate) fn put_header(out: &mut Vec<u8>, processors: u8) -> Result<(), AllocError>
    ensures { OnOk result (out.new.items ≡ out.old.items ++ line_of (header_fields processors)) }
{
    out.extend_from_slice(b"trace version 1 processors ")?;
    put_last(out, without_zeros(&decimal::<10>(processors as u64)))?;
    Ok(())
}

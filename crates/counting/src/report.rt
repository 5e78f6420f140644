// The lines of a census, put together field by field as those of a listing.
ghost use Rattle.std.specs.Prelude.{◌≡◌, ◌≤◌, ◌++◌, take, length, OnOk};
ghost use Rattle.upkeep.specs.Counting.{modified_in};
ghost use Rattle.counting.specs.Report.{row_line, rows_from, modified_line, drained_line};

use protocol::refusal::Refusal;
use std::alloc::AllocError;
use text::digits::decimal;
use text::lines::{put_field, put_last};
use upkeep::drain::Drained;

fn put_row(out: &mut Vec<u8>, processor: usize, row: &[u32; 5]) -> Result<(), AllocError>
    ensures { OnOk result (out.new.items ≡ out.old.items ++ row_line processor row.now) }
{
    put_field(out, &decimal::<1>(processor as u64))?;
    put_field(out, &decimal::<4>(row[0] as u64))?;
    put_field(out, &decimal::<4>(row[1] as u64))?;
    put_field(out, &decimal::<4>(row[2] as u64))?;
    put_field(out, &decimal::<4>(row[3] as u64))?;
    put_last(out, &decimal::<4>(row[4] as u64))?;
    Ok(())
}

pub(crate) fn put_rows(
    out: &mut Vec<u8>,
    rows: &[[u32; 5]; 8],
    processors: u8,
) -> Result<(), AllocError>
    requires { processors ≤ 8 }
    ensures { let shown = rows_from 0 (take processors rows.now) in
        OnOk result (out.new.items ≡ out.old.items ++ shown) }
{
    for p in 0..usize::from(processors) {
        put_row(out, p, &rows[p])?;
    }
    Ok(())
}

// The lines in EM and SM.
fn modified(rows: &[[u32; 5]; 8]) -> u64
    ensures { result ≡ modified_in rows.now }
{
    let mut n = 0;
    for row in rows {
        n += row[0] as u64 + row[2] as u64;
    }
    n
}

pub(crate) fn put_modified(out: &mut Vec<u8>, rows: &[[u32; 5]; 8]) -> Result<(), AllocError>
    ensures { OnOk result (out.new.items ≡ out.old.items ++ modified_line rows.now) }
{
    put_field(out, b"MODIFIED")?;
    put_last(out, &decimal::<4>(modified(rows)))
}

pub(crate) fn put_drained(
    out: &mut Vec<u8>,
    drained: &Result<Drained, Refusal>,
) -> Result<(), AllocError>
    ensures { OnOk result (out.new.items ≡ out.old.items ++ drained_line drained.now) }
{
    put_field(out, b"DRAINED")?;
    match drained {
        Ok(drained) => {
            put_field(out, &decimal::<4>(drained.blocks as u64))?;
            put_last(out, &decimal::<12>(drained.cycles as u64))
        }
        Err(refusal) => put_last(out, &decimal::<2>(refusal.number() as u64)),
    }
}

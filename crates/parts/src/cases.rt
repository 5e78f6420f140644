// The cases of a program that plays many, one after another: how their parts stand in the input,
// and the line above what each gives.
ghost use Rattle.std.specs.Prelude.{◌≡◌, ◌<◌, ◌++◌, length, IfSome, MatchOption, Some, None, OnOk};
ghost use Rattle.parts.specs.Cases.{counted, heading};

use std::alloc::AllocError;

/// The items behind a byte with their count, `width` bytes each, and the bytes that follow them.
///
/// None where there is no such byte, or where the items are not all there.
pub fn split_counted(input: &[u8], width: u8) -> Option<(&[u8], &[u8])>
    ensures value { MatchOption result (counted width input.now ≡ None)
        (λ p. counted width input.now ≡ Some (p.0.now, p.1.now)) }
    ensures shorter { IfSome result (λ p. length p.1.now < length input.now) }
{
    let (count, rest) = input.split_first()?;
    rest.split_at_checked(usize::from(*count) * usize::from(width))
}

/// Puts the line with a case's name, above what the case gives, at the end of `out`. The one error
/// is want of memory.
pub fn put_heading(out: &mut Vec<u8>, name: &[u8]) -> Result<(), AllocError>
    ensures { OnOk result (out.new.items ≡ out.old.items ++ heading name.now) }
{
    out.extend_from_slice(b"== ")?;
    out.extend_from_slice(name)?;
    out.push(b'\n')?;
    Ok(())
}

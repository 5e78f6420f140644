// Numbers in digits: read in a base, and written without leading zeros.
ghost use Rattle.std.specs.Prelude.{◌≡◌, ◌≤◌};
ghost use Rattle.trace_text.specs.Numbers.{number_in, hexadecimal_of, decimal_of, without_zeros};

/// The number that so many digits at most are in a base, if it is below 2^32.
fn number_in(digits: &[u8], base: u32, most: usize) -> Option<u32>
    requires { (10 ≤ base) × (base ≤ 16) }
    ensures { result ≡ number_in base most digits.now }
{
    if digits.is_empty() || digits.len() > most {
        return None;
    }
    let mut number: u32 = 0;
    for byte in digits {
        let digit = char::from(*byte).to_digit(base)?;
        number = number.checked_mul(base)?.checked_add(digit)?;
    }
    Some(number)
}

/// The number that 1 to 8 hexadecimal digits of either case are.
pub(crate) fn read_hexadecimal(digits: &[u8]) -> Option<u32>
    ensures { result ≡ hexadecimal_of digits.now }
{
    number_in(digits, 16, 8)
}

/// The number below 2^32 that 1 to 10 decimal digits are.
pub(crate) fn read_decimal(digits: &[u8]) -> Option<u32>
    ensures { result ≡ decimal_of digits.now }
{
    number_in(digits, 10, 10)
}

/// The digits behind the leading zeros; the last digit stays.
pub(crate) fn without_zeros(digits: &[u8]) -> &[u8]
    ensures { result.now ≡ without_zeros digits.now }
{
    let mut rest = digits;
    while rest.len() > 1 && rest[0] == b'0' {
        rest = &rest[1..];
    }
    rest
}

// Numbers in a fixed number of digits.
ghost use Rattle.std.specs.Prelude.{◌≡◌, ◌<◌, ◌≤◌};
ghost use Rattle.text.specs.Digits.{digit_of, fixed};

// The digits 0 to F, each as a byte.
const DIGITS: [u8; 16] = *b"0123456789ABCDEF";

fn digit(value: u64) -> u8
    requires { value < 16 }
    ensures { result ≡ digit_of value }
{
    DIGITS[value as usize]
}

fn digits<const W: usize>(value: u64, base: u64) -> [u8; W]
    requires { (1 < base) × (base ≤ 16) }
    ensures { result ≡ fixed base W value }
{
    let mut out = [b'0'; W];
    let mut rest = value;
    for place in out.iter_mut() {
        *place = digit(rest % base);
        rest /= base;
    }
    out.reverse();
    out
}

// No format: one such as {:07} would write more digits of a larger number.
/// The last W decimal digits of a number, as bytes, with 0 in front where it has fewer.
pub fn decimal<const W: usize>(value: u64) -> [u8; W]
    ensures { result ≡ fixed 10 W value }
{
    digits::<W>(value, 10)
}

// By the code of `decimal`: a format such as {:08X} would need a String first.
/// The eight hexadecimal digits of a number, as bytes, in capitals.
pub fn hexadecimal(value: u32) -> [u8; 8]
    ensures { result ≡ fixed 16 8 value }
{
    digits::<8>(value as u64, 16)
}

// The parts of some bytes, each ended by a separator or by the end of the bytes.
ghost use Rattle.std.specs.Prelude.{◌≡◌, ◌<◌, ◌≤◌, [], ◌∷◌, length, take, MatchOption, OnSome, IfSome};
ghost use Rattle.trace_text.specs.Parts.{parts, place_of};

// Where the separator first stands, or the number of bytes where it does not.
fn place_of(bytes: &[u8], separator: u8) -> usize
    ensures place { result ≡ place_of separator bytes.now }
    ensures inside { result ≤ length bytes.now }
{
    for (place, byte) in bytes.iter().enumerate() {
        if *byte == separator {
            return place;
        }
    }
    bytes.len()
}

/// The first part of some bytes and the bytes behind its separator; none where there are no bytes.
pub(crate) fn split_part(bytes: &[u8], separator: u8) -> Option<(&[u8], &[u8])>
    ensures parts { MatchOption result (parts separator bytes.now ≡ [])
        (λ p. parts separator bytes.now ≡ p.0.now ∷ parts separator p.1.now) }
    ensures shorter { IfSome result (λ p. length p.1.now < length bytes.now) }
{
    if bytes.is_empty() {
        return None;
    }
    let place = place_of(bytes, separator);
    let behind = (place + 1).min(bytes.len());
    Some((&bytes[..place], &bytes[behind..]))
}

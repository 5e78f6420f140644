// Two listings compared line by line.
ghost use Rattle.std.specs.Prelude.{◌≡◌, ◌==◌, ◌↔◌, position};
ghost use Rattle.std.specs.Option.{option_map};
ghost use Rattle.judging.specs.Lines.{line_from};
ghost use Rattle.judging.specs.Verdicts.{verdict_of, IsAgree, OnDiffer, IsFirst};

use crate::fields::{Field, field_of};

/// The first line that is not the same in two listings.
#[derive(Clone, Copy)]
pub struct Difference {
    /// The number of the line, from 1.
    pub line: usize,
    /// The number of bytes before the line, in both listings: all lines before it are the same.
    pub start: usize,
    /// The first field in which the two lines differ.
    pub field: Field,
}

/// Whether two listings are the same, byte for byte.
#[derive(Clone, Copy)]
pub enum Verdict {
    Agree,
    Differ(Difference),
}

// Where the first byte 10 is, if there is one.
fn first_end(bytes: &[u8]) -> Option<usize>
    ensures { result ≡ position (λ b. b == 10) bytes.now }
{
    bytes.iter().position(|byte| *byte == b'\n')
}

/// The line of a listing that begins at a place, with the byte 10 that ends it; none at the
/// listing's end or behind it.
pub fn line_at(listing: &[u8], start: usize) -> Option<&[u8]>
    ensures { option_map (λ line. line.now) result ≡ line_from start listing.now }
{
    let rest = listing.get(start..)?;
    match first_end(rest) {
        Some(end) => Some(&rest[..end + 1]),
        None if rest.is_empty() => None,
        None => Some(rest),
    }
}

/// Compares two listings: the first line that is not the same, if there is one.
pub fn compare(ours: &[u8], theirs: &[u8]) -> Verdict
    ensures verdict { result ≡ verdict_of ours.now theirs.now }
    ensures agree { IsAgree result ↔ (theirs.now ≡ ours.now) }
    ensures first { OnDiffer result (λ d. IsFirst ours.now theirs.now d) }
{
    let mut line = 1;
    let mut start = 0;
    loop {
        let field = match (line_at(ours, start), line_at(theirs, start)) {
            (None, None) => return Verdict::Agree,
            (Some(our_line), Some(their_line)) => {
                if our_line == their_line {
                    line += 1;
                    start += our_line.len();
                    continue;
                }
                field_of(our_line, their_line)
            }
            _ => Field::Line,
        };
        return Verdict::Differ(Difference { line, start, field });
    }
}

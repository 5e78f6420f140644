// The fields of a line: the bytes between spaces.
ghost use Rattle.std.specs.Prelude.{◌≡◌, [], ◌∷◌, MatchOption, IfNone};
ghost use Rattle.trace_text.specs.Lines.{fields_of, is_passed_over};

use crate::parts::split_part;

/// The fields of a line that are left, one after another.
#[derive(Drop)]
pub(crate) struct Fields<'a> {
    pub(crate) rest: &'a [u8],
}

impl<'a> Fields<'a> {
    /// The next field, if there is one.
    pub(crate) fn next_field(&mut self) -> Option<&'a [u8]>
        ensures field { MatchOption result (fields_of self.old.rest.now ≡ [])
            (λ f. fields_of self.old.rest.now ≡ f.now ∷ fields_of self.new.rest.now) }
        ensures ended { IfNone result (fields_of self.new.rest.now ≡ []) }
    {
        while let Some((part, rest)) = split_part(self.rest, b' ') {
            self.rest = rest;
            if !part.is_empty() {
                return Some(part);
            }
        }
        None
    }
}

/// Whether a line is blank or a comment.
pub(crate) fn is_passed_over(line: &[u8]) -> bool
    ensures { result ≡ is_passed_over line.now }
{
    let mut fields = Fields { rest: line };
    line.first() == Some(&b'#') || fields.next_field().is_none()
}

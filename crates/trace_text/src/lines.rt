// The lines of a text that are not passed over.
ghost use Rattle.std.specs.Prelude.{◌≡◌, ◌+◌, ◌<◌, ◌≤◌, ◌^◌, [], ◌∷◌, length, MatchOption, OnSome, IfNone};

use crate::fields::is_passed_over;
use crate::parts::split_part;

/// A line and its number, counted from 1.
#[derive(Clone, Copy)]
pub(crate) struct Line<'a> {
    pub(crate) number: usize,
    pub(crate) text: &'a [u8],
}

/// The bytes of the lines that are left, and the number of the first of them.
#[derive(Drop)]
pub(crate) struct Lines<'a> {
    rest: &'a [u8],
    number: usize,
    ghost few: { number + length rest.now ≤ 2 ^ 63 },
}

impl<'a> Lines<'a> {
    ghost use Rattle.trace_text.specs.Left.{lines_left, number_behind, numbered};

    /// All lines of a text.
    pub(crate) fn of(text: &'a [u8]) -> Lines<'a>
        ensures rest { result.rest.now ≡ text.now }
        ensures number { result.number ≡ 1 }
    {
        Lines {
            rest: text,
            number: 1,
        }
    }

    /// The number of the next line, or of the one behind the last.
    pub(crate) fn number(&self) -> usize
        ensures { result ≡ self.now.number }
    {
        self.number
    }

    /// The next line that is not passed over, if there is one.
    pub(crate) fn next_written(&mut self) -> Option<Line<'a>>
        ensures line { MatchOption result (lines_left self.old ≡ [])
            (λ l. lines_left self.old ≡ numbered l ∷ lines_left self.new) }
        ensures ended { IfNone result (self.new.number ≡ number_behind self.old) }
        ensures shorter { OnSome result (length self.new.rest.now < length self.old.rest.now) }
    {
        while let Some((text, rest)) = split_part(self.rest, b'\n') {
            let number = self.number;
            self.rest = rest;
            self.number = number + 1;
            if !is_passed_over(text) {
                return Some(Line { number, text });
            }
        }
        None
    }
}

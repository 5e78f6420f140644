// The fields of a listing's lines.
ghost use Rattle.std.specs.Prelude.{◌≡◌, ◌≤◌, length};
ghost use Rattle.judging.specs.Lines.{text_of};
ghost use Rattle.judging.specs.Fields.{both_begin, differ_in, is_step, step_field, field_in, field_of, name_of};
ghost use Rattle.judging.specs.Shown.{NamesField};

/// A field of a line of a listing, or what stands for one where lines differ.
#[derive(Clone, Copy)]
pub enum Field {
    /// The number of the step.
    Step,
    Processor,
    Command,
    Address,
    Answer,
    Word,
    /// The state found.
    Found,
    /// The state left.
    Left,
    Cycles,
    /// The bus cycles of a line TOTAL.
    Total,
    /// The number of records of a line STUCK.
    Stuck,
    /// The refusal of a line TRACE.
    Trace,
    /// The byte 10 that ends a line.
    End,
    /// The whole line: it is missing in one listing, or the two are not of one form.
    Line,
}

impl Field {
    /// The field's name for people.
    pub fn name(self) -> &'static str
        ensures { result.now ≡ name_of self }
    {
        match self {
            Field::Step => "step",
            Field::Processor => "processor",
            Field::Command => "command",
            Field::Address => "address",
            Field::Answer => "answer",
            Field::Word => "word",
            Field::Found => "state found",
            Field::Left => "state left",
            Field::Cycles => "cycles",
            Field::Total => "total",
            Field::Stuck => "stuck",
            Field::Trace => "trace",
            Field::End => "end",
            Field::Line => "line",
        }
    }
}

/// A line without the byte 10 that ends it.
pub fn text_of(line: &[u8]) -> &[u8]
    ensures { result.now ≡ text_of line.now }
{
    match line {
        [text @ .., b'\n'] => text,
        _ => line,
    }
}

// Whether a text has nine fields in 44 places, a space between each two.
fn is_step(text: &[u8]) -> bool
    ensures { result ≡ is_step text.now }
{
    text.len() == 44
        && text[7] == b' '
        && text[9] == b' '
        && text[12] == b' '
        && text[21] == b' '
        && text[24] == b' '
        && text[33] == b' '
        && text[36] == b' '
        && text[39] == b' '
}

fn differ_in(ours: &[u8], theirs: &[u8], from: usize, end: usize) -> bool
    requires ordered { from ≤ end }
    requires ours { end ≤ length ours.now }
    requires theirs { end ≤ length theirs.now }
    ensures { result ≡ differ_in ours.now theirs.now from end }
{
    ours[from..end] != theirs[from..end]
}

fn step_field(ours: &[u8], theirs: &[u8]) -> Field
    requires ours { length ours.now ≡ 44 }
    requires theirs { length theirs.now ≡ 44 }
    ensures { result ≡ step_field ours.now theirs.now }
{
    if differ_in(ours, theirs, 0, 7) {
        Field::Step
    } else if differ_in(ours, theirs, 8, 9) {
        Field::Processor
    } else if differ_in(ours, theirs, 10, 12) {
        Field::Command
    } else if differ_in(ours, theirs, 13, 21) {
        Field::Address
    } else if differ_in(ours, theirs, 22, 24) {
        Field::Answer
    } else if differ_in(ours, theirs, 25, 33) {
        Field::Word
    } else if differ_in(ours, theirs, 34, 36) {
        Field::Found
    } else if differ_in(ours, theirs, 37, 39) {
        Field::Left
    } else {
        Field::Cycles
    }
}

fn both_begin(name: &[u8], ours: &[u8], theirs: &[u8]) -> bool
    ensures { result ≡ both_begin name.now ours.now theirs.now }
{
    ours.starts_with(name) && theirs.starts_with(name)
}

fn field_in(ours: &[u8], theirs: &[u8]) -> Field
    ensures { result ≡ field_in ours.now theirs.now }
{
    if ours == theirs {
        Field::End
    } else if is_step(ours) && is_step(theirs) {
        step_field(ours, theirs)
    } else if both_begin(b"TOTAL ", ours, theirs) {
        Field::Total
    } else if both_begin(b"STUCK ", ours, theirs) {
        Field::Stuck
    } else if both_begin(b"TRACE ", ours, theirs) {
        Field::Trace
    } else {
        Field::Line
    }
}

/// The first field in which two lines of listings differ. Lines that are the same but for a missing
/// byte 10 differ in their end.
pub fn field_of(ours: &[u8], theirs: &[u8]) -> Field
    ensures value { result ≡ field_of ours.now theirs.now }
    ensures steps { NamesField ours.now theirs.now result }
{
    field_in(text_of(ours), text_of(theirs))
}

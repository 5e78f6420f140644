// The names of commands, without the space that fills them to two places.
ghost use Rattle.std.specs.Prelude.{◌≡◌};
ghost use Rattle.trace_text.specs.Commands.{wordless_named, writing_named, command_of};
ghost use Rattle.trace_text.specs.Lines.{fields_of};

use crate::fields::Fields;
use crate::numbers::read_hexadecimal;
use protocol::command::Command;

fn wordless_named(name: &[u8]) -> Option<Command>
    ensures { result ≡ wordless_named name.now }
{
    match name {
        b"R" => Some(Command::R),
        b"RI" => Some(Command::RI),
        b"RP" => Some(Command::RP),
        b"RB" => Some(Command::RB),
        b"LR" => Some(Command::LR),
        b"U" => Some(Command::U),
        _ => None,
    }
}

fn writing_named(name: &[u8], word: u32) -> Option<Command>
    ensures { result ≡ writing_named name.now word }
{
    match name {
        b"W" => Some(Command::W(word)),
        b"DW" => Some(Command::DW(word)),
        b"UW" => Some(Command::UW(word)),
        _ => None,
    }
}

/// The command with a name and the fields behind the address: none, or the word that it writes.
pub(crate) fn command_of(name: &[u8], mut behind: Fields) -> Option<Command>
    ensures { result ≡ command_of name.now (fields_of behind.entry.rest.now) }
{
    let Some(word) = behind.next_field() else {
        return wordless_named(name);
    };
    if behind.next_field().is_some() {
        return None;
    }
    writing_named(name, read_hexadecimal(word)?)
}

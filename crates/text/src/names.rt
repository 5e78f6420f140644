// The names of commands and states. Each fills two places, as an array says and a &str does not.
ghost use Rattle.std.specs.Prelude.{◌≡◌};
ghost use Rattle.text.specs.Names.{command_named, state_named};

use protocol::command::Command;
use protocol::state::State;

/// A command's name, filled with a space to two places.
pub fn command_name(command: Command) -> [u8; 2]
    ensures { result ≡ command_named command }
{
    match command {
        Command::R => *b"R ",
        Command::W(_) => *b"W ",
        Command::DW(_) => *b"DW",
        Command::RI => *b"RI",
        Command::RP => *b"RP",
        Command::RB => *b"RB",
        Command::LR => *b"LR",
        Command::UW(_) => *b"UW",
        Command::U => *b"U ",
    }
}

/// A state's name, filled with a space to two places.
pub fn state_name(state: State) -> [u8; 2]
    ensures { result ≡ state_named state }
{
    match state {
        State::EM => *b"EM",
        State::EC => *b"EC",
        State::SM => *b"SM",
        State::S => *b"S ",
        State::I => *b"I ",
    }
}

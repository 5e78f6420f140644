// Commands by name.
use protocol::command::Command;
use text::names::command_name;

/// The command with a name; one that writes a word has this one.
pub fn command_named(name: [u8; 2], word: u32) -> Option<Command> {
    [
        Command::R,
        Command::W(word),
        Command::DW(word),
        Command::RI,
        Command::RP,
        Command::RB,
        Command::LR,
        Command::UW(word),
        Command::U,
    ]
    .into_iter()
    .find(|command| command_name(*command) == name)
}

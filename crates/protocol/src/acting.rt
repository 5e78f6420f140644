// What a command acts as, the word that it answers and the words that it leaves in its block.
ghost use Rattle.std.specs.Prelude.{◌≡◌, length};
ghost use Rattle.protocol.specs.Acting.{acts_as, word_answered, words_left};

use crate::command::{Action, Command};
use crate::state::State;

// RB on a block's last word purges. Elsewhere it takes the block from another cache, if one has it
// and the own cache has not.
fn read_before(address: u32, found: State, copy_elsewhere: bool) -> Action
    ensures { result ≡ acts_as Command.RB address found copy_elsewhere }
{
    if address % 4 == 3 {
        Action::RP
    } else if !found.is_valid() && copy_elsewhere {
        Action::RI
    } else {
        Action::R
    }
}

/// The row of the state table that a command acts as: its own name, but for DW and RB.
///
/// `address` is a word address, `found` the state found in the own cache; `copy_elsewhere` tells
/// whether another cache has the block.
pub fn acts_as(command: Command, address: u32, found: State, copy_elsewhere: bool) -> Action
    ensures { result ≡ acts_as command address found copy_elsewhere }
{
    match command {
        Command::R => Action::R,
        Command::W(_) => Action::W,
        Command::DW(_) if address % 4 == 0 => Action::DW,
        Command::DW(_) => Action::W,
        Command::RI => Action::RI,
        Command::RP => Action::RP,
        Command::RB => read_before(address, found, copy_elsewhere),
        Command::LR => Action::LR,
        Command::UW(_) => Action::UW,
        Command::U => Action::U,
    }
}

/// The word that a done command answers: the addressed word of `words`, the block before the
/// command, for R, RI, RP, RB and LR; 0 for the others.
pub fn word_answered(command: Command, address: u32, words: [u32; 4]) -> u32
    ensures { result ≡ word_answered command address words }
{
    let offset = (address % 4) as usize;
    match command {
        Command::R | Command::RI | Command::RP | Command::RB | Command::LR => words[offset],
        _ => 0,
    }
}

/// The block's four words after a done command, where `words` are those before it.
///
/// W, UW and a DW elsewhere than at the block's start set the addressed word. A DW at the start
/// sets the first word and makes the other three 0. The other commands leave the words as they are.
pub fn words_left(command: Command, address: u32, words: [u32; 4]) -> [u32; 4]
    ensures { result ≡ words_left command address words }
{
    let offset = (address % 4) as usize;
    match command {
        Command::DW(word) if offset == 0 => [word, 0, 0, 0],
        Command::W(word) | Command::DW(word) | Command::UW(word) => {
            let mut left = words;
            left[offset] = word;
            left
        }
        _ => words,
    }
}

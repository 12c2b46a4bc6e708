//! The words of a call: which command they are.
ghost use Rattle.std.specs.Prelude.{◌≡◌, IfErr};
ghost use Rattle.lara.specs.Words.{command_of, command_named};
ghost use Rattle.lara.specs.Endings.{Gives, StopsWith, no_fault};

use crate::outcome::Outcome;
use lara_base::{List, Word};

/// A command.
#[derive(Clone, Copy, Debug, PartialEq, Eq)]
pub enum Command {
    /// Runs a script.
    Run,
}

// The command of this name.
fn command_named(word: &[u8]) -> Result<Command, Outcome>
    ensures gives { Gives (λ c. c) no_fault (command_named word.now) result }
    ensures sure { IfErr result (StopsWith (command_named word.now)) }
{
    if word == b"run".as_slice() {
        Ok(Command::Run)
    } else {
        Err(Outcome::Usage { at: 0 })
    }
}

/// The command that the words are. This takes no memory, so it has no other error than the Usage of
/// the rules.
pub fn read_command(words: &List<Word>) -> Result<Command, Outcome>
    ensures gives { Gives (λ c. c) no_fault (command_of words.now) result }
    ensures sure { IfErr result (StopsWith (command_of words.now)) }
{
    match words.as_slice() {
        [] => Err(Outcome::Usage { at: 0 }),
        [word, rest @ ..] => {
            let command = command_named(word.as_slice())?;
            if rest.is_empty() {
                Ok(command)
            } else {
                Err(Outcome::Usage { at: 1 })
            }
        }
    }
}

//! What the words ask for.

ghost use Rattle.std.specs.Prelude.{◌≡◌, map, option_map, string_bytes};
ghost use Rattle.qsg_words.specs.Table.{asked, asked_alone, asked_replay, refused_by, command_of, Gives};
ghost use Rattle.qsg_words.specs.declared.command.WordsError.TheVariants as error;

use crate::form::{Given, form, read};
use crate::seeds::seed_of;
use clap::error::ErrorKind;
use std::alloc::{AllocError, Global};

/// What the words of the command line ask for.
#[derive(Clone, Copy, Debug, PartialEq, Eq)]
pub enum Command {
    /// To replay the script by its schedule, or by turns that are drawn from this seed.
    Replay(Option<u64>),
    /// To print the definitions of the script.
    Check,
}

/// Why the words ask for nothing.
#[derive(Clone, Copy, Debug, PartialEq, Eq)]
pub enum WordsError {
    /// They aren't those of a command.
    Usage,
    /// There was no memory to read them.
    NoMemory,
}

impl From<AllocError> for WordsError {
    ghost from_gives = { λ _ e. e ≡ error.NoMemory };

    fn from(_: AllocError) -> Self {
        WordsError::NoMemory
    }
}

/// The replay by a seed, or by none.
fn replay_by(seed: Option<&str>) -> Option<Command>
    ensures { result ≡ asked_replay (option_map (λ s. s.now) seed.entry) }
{
    match seed {
        None => Some(Command::Replay(None)),
        Some(text) => match seed_of(text) {
            Some(number) => Some(Command::Replay(Some(number))),
            None => None,
        },
    }
}

/// The command of a word that stands alone, with a seed or without one.
fn command_alone(word: &str, seed: Option<&str>) -> Option<Command>
    ensures { result ≡ asked_alone word.now (option_map (λ s. s.now) seed.entry) }
{
    if word == "replay" {
        return replay_by(seed);
    }
    if word == "check" && seed.is_none() {
        return Some(Command::Check);
    }
    None
}

/// The command of what the words give, if there is one.
fn asked(given: Given<'_>) -> Option<Command>
    ensures { result ≡ asked (record { word = option_map (λ s. s.now) given.entry.word; number = option_map (λ s. s.now) given.entry.number; seed = option_map (λ s. s.now) given.entry.seed }) }
{
    match given.word {
        Some(word) => {
            if given.number.is_some() {
                return None;
            }
            command_alone(word, given.seed)
        }
        None => None,
    }
}

/// Why clap refused the words.
fn refused(kind: ErrorKind) -> WordsError
    ensures { result ≡ refused_by kind }
{
    match kind {
        ErrorKind::OutOfMemory => WordsError::NoMemory,
        _ => WordsError::Usage,
    }
}

impl Command {
    /// What the words after the program's name ask for.
    pub fn of(alloc: Global, words: &[String]) -> Result<Command, WordsError>
        ensures { Gives (command_of (map string_bytes words.now)) result }
    {
        let form = form(alloc)?;
        match read(form, words) {
            Ok(given) => match asked(given) {
                Some(command) => Ok(command),
                None => Err(WordsError::Usage),
            },
            Err(error) => Err(refused(error.kind())),
        }
    }
}

//! How the words are read: by clap, as one simple command.

ghost use Rattle.std.specs.Prelude.{◌≡◌, IfOk, IfErr, map, option_map, string_bytes};
ghost use Rattle.qsg_words.specs.Form.{form, IsGiven, IsRefused};
ghost use Rattle.std.specs.Prelude.{codes};
ghost use Rattle.clap.specs.Words.{app_of, first_value, found_of};

use clap::{Arg, ArgMatches, Command, Error};
use std::alloc::{AllocError, Global};

/// What the words give: the word of the command, the number behind it, and the seed.
#[derive(Clone, Copy)]
pub struct Given<'a> {
    pub word: Option<&'a str>,
    pub number: Option<&'a str>,
    pub seed: Option<&'a str>,
}

/// The form of the command line: a word, a number behind it, and the option of a seed.
pub fn form<'a>(alloc: Global) -> Result<Command<'a>, AllocError>
    ensures { IfOk result (λ c. app_of c ≡ form) }
{
    let word = Arg::new(alloc, "word").required(true);
    let number = Arg::new(alloc, "number");
    let seed = Arg::new(alloc, "seed").long("seed");
    Command::new(alloc, "qsg")
        .no_binary_name(true)
        .disable_help_flag(true)
        .disable_version_flag(true)
        .arg(word)?
        .arg(number)?
        .arg(seed)
}

/// What clap found.
fn found<'a>(matches: &ArgMatches<'a>) -> Given<'a>
    ensures word { option_map (λ s. s.now) result.word ≡ first_value (found_of matches.now) (codes "word") }
    ensures number { option_map (λ s. s.now) result.number ≡ first_value (found_of matches.now) (codes "number") }
    ensures seed { option_map (λ s. s.now) result.seed ≡ first_value (found_of matches.now) (codes "seed") }
{
    Given {
        word: matches.get_str("word"),
        number: matches.get_str("number"),
        seed: matches.get_str("seed"),
    }
}

/// What clap makes of the words.
pub fn read<'a>(command: Command<'a>, words: &'a [String]) -> Result<Given<'a>, Error>
    requires { app_of command ≡ form }
    ensures ok { IfOk result (λ g. IsGiven (map string_bytes words.entry.now) (option_map (λ s. s.now) g.word) (option_map (λ s. s.now) g.number) (option_map (λ s. s.now) g.seed)) }
    ensures err { IfErr result (IsRefused (map string_bytes words.entry.now)) }
{
    match command.try_get_matches_from(words) {
        Ok(matches) => Ok(found(&matches)),
        Err(error) => Err(error),
    }
}

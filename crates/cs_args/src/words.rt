//! The words of the command line.
ghost use Rattle.std.specs.Prelude.{◌≡◌, IfOk, MatchResult, true, false};
ghost use Rattle.clap.specs.Words.{app_of, rule_of};
ghost use Rattle.cs_args.specs.Asked.{IsAsked, IsWordsCause};
ghost use Rattle.cs_args.specs.Words.{command_app, gen_rule, takes_words};

use clap::error::ErrorKind;
use clap::{Arg, ArgAction, Command, value_parser};
use cs_value::Txt;
use std::alloc::{AllocError, Global};

/// What the words of the command line ask for.
#[derive(Clone, Copy, Debug, Drop)]
pub enum Task<'w> {
    /// A script is played.
    Play {
        /// The name of the data file, where one is given.
        data: Option<&'w str>,
        /// The name of the script: `-`, which is standard input, where none is given.
        script: &'w str,
    },
    /// The generated script of so many documents is played and summed up: from 0 to 100,000.
    Generate {
        /// How many documents it creates.
        documents: u32,
    },
}

/// Why the words were not read.
#[derive(Clone, Copy, Debug, Drop, PartialEq, Eq)]
pub enum WordsFault {
    /// The command does not take the words.
    Refused,
    /// The allocator had no room for the command or its matches.
    NoMemory,
}

// `--gen N`.
fn generated<'w>(alloc: Global) -> Arg<'w>
    ensures rule { rule_of result ≡ gen_rule }
    ensures local { result.global ≡ false }
{
    Arg::new(alloc, "gen")
        .long("gen")
        .action(ArgAction::Set)
        .value_parser(value_parser!(u32).range(0..=100_000))
}

fn command_line<'w>(alloc: Global) -> Result<Command<'w>, AllocError>
    ensures { IfOk result (λ c. app_of c ≡ command_app) }
{
    let data = Arg::new(alloc, "data").long("data").action(ArgAction::Set);
    let script = Arg::new(alloc, "script")
        .long("script")
        .action(ArgAction::Set)
        .default_value("-");
    Command::new(alloc, "content_store")
        .disable_help_flag(true)
        .disable_version_flag(true)
        .arg(data)?
        .arg(script)?
        .arg(generated(alloc))
}

/// Reads the words of the command line, of which the first is the program's name: `--data NAME`,
/// `--script NAME` and `--gen N`, each at most once and in any order, with `-` for the script where
/// none is named. An option's value is the next word or follows a `=`. N is a whole number from 0
/// to 100,000: decimal digits after at most one sign. Where it is given, the names are not used.
/// `Refused` comes exactly where the command does not take the words, and `NoMemory` where the
/// allocator has no room. The names are borrowed from the words.
pub fn read_words<'w>(alloc: Global, words: &'w [Txt]) -> Result<Task<'w>, WordsFault>
    ensures taken { MatchResult result (λ _. takes_words words.entry.now ≡ true)
        (λ e. IsWordsCause e (takes_words words.entry.now)) }
    ensures asked { IfOk result (λ task. IsAsked task words.entry.now) }
{
    let Ok(command) = command_line(alloc) else {
        return Err(WordsFault::NoMemory);
    };
    match command.try_get_matches_from(words) {
        Ok(matches) => match matches.get_one::<u32>("gen") {
            Some(documents) => Ok(Task::Generate { documents }),
            None => Ok(Task::Play {
                data: matches.get_str("data"),
                script: matches.get_str("script").unwrap_or("-"),
            }),
        },
        Err(error) => match error.kind() {
            ErrorKind::OutOfMemory => Err(WordsFault::NoMemory),
            _ => Err(WordsFault::Refused),
        },
    }
}

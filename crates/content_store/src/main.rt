//! The program: files and the standard streams, handed to the top call.
#![tactic(auto)]

ghost use Rattle.std.specs.Prelude.{◌≡◌, ◌<◌};

#[cfg(test)]
mod live_tests;
#[cfg(test)]
mod load_tests;
#[cfg(test)]
mod query_tests;
#[cfg(test)]
mod record_tests;
#[cfg(test)]
mod tests;
#[cfg(test)]
mod words_tests;

use cs_io::{FileLibrary, OutSink};
use cs_run::{Status, run};
use cs_value::{NoMemory, Steps, Txt};
use std::alloc::Global;
use std::fs::Files;
use std::hash::RandomState;
use std::io::{self, Input, Print};
use std::marker::Brand;
use std::process::ExitCode;
use std::sync::ledger::{Blank, Ledger};

/// The status where the operating system hands over no words, or words that are no text.
const NO_WORDS: u8 = 8;

/// The status where the operating system hands over no random numbers.
const NO_SEED: u8 = 9;

// Runs over files and the standard streams, with a counter of the run's own ledger.
fn counted<L: Ledger, R: Files + Input + Print>(
    blank: Blank,
    rt: &R,
    alloc: Global,
    seed: RandomState,
    words: &[Txt],
) -> Status
    requires name { blank.name ≡ L.name }
    requires parts { blank.parts ≡ L.parts }
    requires some { 0 < blank.parts }
{
    let mut steps = Steps::<L>::new(blank);
    let mut library = FileLibrary::new(alloc, rt);
    let mut sink = OutSink::new(rt);
    run(alloc, seed, words, &mut library, &mut sink, &mut steps)
}

// The status where the words can't be had: the machine doesn't hand them over, or there is no
// memory to copy them.
fn status_without_words(error: &io::Error) -> u8 {
    match error.kind() {
        io::ErrorKind::OutOfMemory => Status::NoMemory.number(),
        _ => NO_WORDS,
    }
}

fn texts(alloc: Global, words: Vec<String>) -> Result<Vec<Txt>, NoMemory> {
    let mut texts = Vec::with_capacity(alloc, words.len())?;
    for word in words {
        texts.push(Txt::from_string(word))?;
    }
    Ok(texts)
}

fn main(rt: HostRuntime) -> ExitCode {
    let alloc = rt.alloc();
    let arguments = match std::env::args(&rt) {
        Ok(arguments) => arguments,
        Err(error) => return ExitCode::from(status_without_words(&error)),
    };
    let Ok(words) = arguments.collect(alloc) else {
        return ExitCode::from(Status::NoMemory.number());
    };
    let Ok(words) = texts(alloc, words) else {
        return ExitCode::from(Status::NoMemory.number());
    };
    let Ok(seed) = RandomState::new(&rt) else {
        return ExitCode::from(NO_SEED);
    };
    let status = counted::<Brand, HostRuntime>(Blank::new(1), &rt, alloc, seed, words.as_slice());
    ExitCode::from(status.number())
}

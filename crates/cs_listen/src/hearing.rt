//! What listeners hear, found by their numbers.
ghost use Rattle.std.specs.Prelude.{◌≡◌, ◌++◌, ◌<◌, IfOk, OnOk, map};
ghost use Rattle.std.specs.List.{AllPairs};
ghost use Rattle.cs_view.specs.View.{edits};
ghost use Rattle.cs_listen.specs.Posted.{IsNumberPlace};
ghost use Rattle.cs_listen.specs.Told.{all_told, told};
ghost use Rattle.cs_reply.specs.View.{event};

use crate::listening::Listening;
use cs_reply::Event;
use cs_value::NoMemory;
use cs_view::Change;
use std::alloc::Global;

// Where the listener of the number stands.
fn seek(made: &[Listening], number: u64) -> Result<usize, usize>
    requires { AllPairs (λ a b. a.number < b.number) made.now }
    ensures { IsNumberPlace number made.now result }
{
    made.binary_search_by(|listening| listening.number.cmp(&number))
}

// What the listener of the number hears, if there is one, is put behind the others.
fn hear_number<'a>(
    made: &'a [Listening],
    number: u64,
    tx: &'a str,
    moment: &'a str,
    changes: &'a [Change],
    heard: &mut Vec<Event<'a>>,
) -> Result<(), NoMemory>
    requires { AllPairs (λ a b. a.number < b.number) made.now }
    ensures { OnOk result (map event heard.new.items ≡ map event heard.old.items
        ++ told tx.now moment.now (edits changes.now) made.now number) }
{
    match seek(made, number) {
        Ok(place) => made[place].hear(tx, moment, changes, heard),
        Err(_) => Ok(()),
    }
}

/// What the listeners of the numbers hear of changes, in the order of the numbers.
pub(crate) fn hear_all<'a>(
    alloc: Global,
    made: &'a [Listening],
    numbers: &[u64],
    tx: &'a str,
    moment: &'a str,
    changes: &'a [Change],
) -> Result<Vec<Event<'a>>, NoMemory>
    requires { AllPairs (λ a b. a.number < b.number) made.now }
    ensures { IfOk result (λ heard. map event heard.items
        ≡ all_told tx.now moment.now (edits changes.now) made.now numbers.now) }
{
    let mut heard = Vec::new(alloc);
    for number in numbers {
        hear_number(made, *number, tx, moment, changes, &mut heard)?;
    }
    Ok(heard)
}

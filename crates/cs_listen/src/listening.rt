//! One listener, and what it hears.
ghost use Rattle.std.specs.Prelude.{◌≡◌, ◌++◌, OnOk, Some, map, filter_map, option_map, option_to_list};
ghost use Rattle.cs_value.specs.View.{tree};
ghost use Rattle.cs_view.specs.Document.{rev_of};
ghost use Rattle.cs_view.specs.View.{document_of, edit, edits};
ghost use Rattle.cs_listen.specs.Events.{where_asked, heard as heard_of};
ghost use Rattle.cs_listen.specs.Listeners.{listener, has_name};
ghost use Rattle.cs_reply.specs.View.{event as event_of};

use crate::transition::transition_of;
use cs_plain::Plain;
use cs_reply::Event;
use cs_value::{Fields, NoMemory, Txt, Val};
use cs_view::{Change, Doc};

/// A listener: its name, its number in the order made, the predicate that it watches, and which
/// documents its events carry.
#[derive(Drop)]
pub(crate) struct Listening {
    pub(crate) name: Txt,
    pub(crate) number: u64,
    pub(crate) predicate: Plain,
    pub(crate) params: Fields,
    pub(crate) include_result: bool,
    pub(crate) include_previous: bool,
}

// The revision of what stands there.
fn revision(side: &Option<Doc>) -> Option<&str>
    ensures { option_map (λ s. s.now) result ≡ option_map rev_of (option_map document_of side.now) }
{
    match side {
        Some(doc) => Some(doc.rev().as_str()),
        None => None,
    }
}

// What stands there, where it is asked for.
fn shown(asked: bool, side: &Option<Doc>) -> Option<&Val>
    ensures { option_map (λ v. tree v.now) result ≡ where_asked asked
        (option_map document_of side.now) }
{
    match side {
        Some(doc) => { if asked { Some(doc.val()) } else { None } }
        None => None,
    }
}

// Puts one more behind the others.
fn push<'a>(heard: &mut Vec<Event<'a>>, event: Event<'a>) -> Result<(), NoMemory>
    ensures { OnOk result (map event_of heard.new.items
        ≡ map event_of heard.old.items ++ option_to_list (Some (event_of event.entry))) }
{
    heard.push(event)?;
    Ok(())
}

impl Listening {
    /// Whether the listener has the name.
    pub(crate) fn is_named(&self, name: &str) -> bool
        ensures { result ≡ has_name name.now (listener self.now) }
    {
        name == self.name.as_str()
    }

    // What it hears of one change.
    fn event<'a>(&'a self, tx: &'a str, moment: &'a str, change: &'a Change) -> Option<Event<'a>>
        ensures { option_map event_of result ≡ heard_of tx.now moment.now (listener self.now)
            (edit change.now) }
    {
        let transition = transition_of(&self.predicate, &self.params, change)?;
        Some(Event {
            listener: self.name.as_str(),
            id: change.id.as_str(),
            transition,
            previous_rev: revision(&change.before),
            result_rev: revision(&change.after),
            previous: shown(self.include_previous, &change.before),
            result: shown(self.include_result, &change.after),
            tx,
            moment,
        })
    }

    // What it hears of one change is put behind the others.
    fn hear_one<'a>(
        &'a self,
        tx: &'a str,
        moment: &'a str,
        change: &'a Change,
        heard: &mut Vec<Event<'a>>,
    ) -> Result<(), NoMemory>
        ensures { OnOk result (map event_of heard.new.items ≡ map event_of heard.old.items
            ++ option_to_list (heard_of tx.now moment.now (listener self.now) (edit change.now))) }
    {
        match self.event(tx, moment, change) {
            Some(event) => push(heard, event),
            None => Ok(()),
        }
    }

    /// What it hears of the changes is put behind the others, in the order of the changes.
    pub(crate) fn hear<'a>(
        &'a self,
        tx: &'a str,
        moment: &'a str,
        changes: &'a [Change],
        heard: &mut Vec<Event<'a>>,
    ) -> Result<(), NoMemory>
        ensures { OnOk result (map event_of heard.new.items ≡ map event_of heard.old.items
            ++ filter_map (heard_of tx.now moment.now (listener self.now)) (edits changes.now)) }
    {
        for change in changes {
            self.hear_one(tx, moment, change, heard)?;
        }
        Ok(())
    }
}

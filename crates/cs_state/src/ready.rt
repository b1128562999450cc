//! The index made ready for what is asked of the documents next: it keeps the kinds of keys by
//! which queries ask.
ghost use Rattle.std.specs.Prelude.{◌≡◌};
ghost use Rattle.cs_state.specs.State.{state, IsUsable};

use crate::state::State;
use cs_body::{Mutation, Target};
use cs_codes::KeyKind;
use cs_parse::parse;
use cs_syntax::Query;
use cs_value::{NoMemory, Txt};
use cs_wanted::wanted_kinds;
use std::alloc::Global;

// No text of a command is longer.
const LONGEST: usize = 4_294_967_295;

// The query by which a mutation finds its documents, if there is one.
fn query_of(mutation: &Mutation) -> Option<&Txt> {
    match mutation {
        Mutation::Delete(Target::Query { text, .. }) => Some(text),
        Mutation::Change {
            target: Target::Query { text, .. },
            ..
        } => Some(text),
        _ => None,
    }
}

// The kinds of keys by which a text asks. One that is no query asks by none; what is wrong with it
// is told where the mutation is done.
fn kinds_of_text(alloc: Global, text: &str) -> Result<Vec<KeyKind>, NoMemory> {
    if text.len() > LONGEST {
        return Ok(Vec::new(alloc));
    }
    match parse(alloc, text) {
        Ok(query) => {
            let kinds = wanted_kinds(alloc, &query);
            drop(query);
            kinds
        }
        Err(_) => Ok(Vec::new(alloc)),
    }
}

// The kinds of keys by which a mutation asks. Where it takes documents away, who refers to them is
// asked too.
fn kinds_of(alloc: Global, mutation: &Mutation) -> Result<Vec<KeyKind>, NoMemory> {
    let mut kinds = match query_of(mutation) {
        Some(text) => kinds_of_text(alloc, text.as_str())?,
        None => Vec::new(alloc),
    };
    if let Mutation::Delete(_) = mutation {
        kinds.push(KeyKind::Ref)?;
    }
    Ok(kinds)
}

impl State {
    // The index keeps the keys of these kinds too.
    fn keep(&mut self, kinds: Vec<KeyKind>) -> Result<(), NoMemory>
        requires usable { IsUsable self.old }
        ensures state { state self.new ≡ state self.old }
        ensures usable { IsUsable self.new }
        ensures live { self.new.live ≡ self.old.live }
        ensures used { self.new.used ≡ self.old.used }
    {
        self.index.keep(&self.docs, kinds)
    }

    /// Makes the index ready for a query: it keeps the kinds of keys by which the query asks from
    /// now on, which the first one of a kind pays for with a walk over the documents. Nothing else
    /// changes, also after `NoMemory`.
    pub fn make_ready(&mut self, query: &Query) -> Result<(), NoMemory>
        requires usable { IsUsable self.old }
        ensures state { state self.new ≡ state self.old }
        ensures usable { IsUsable self.new }
        ensures live { self.new.live ≡ self.old.live }
    {
        let kinds = wanted_kinds(self.alloc, query)?;
        self.keep(kinds)
    }

    /// The same for the mutations of a transaction.
    pub(crate) fn make_ready_for(&mut self, mutations: &[Mutation]) -> Result<(), NoMemory>
        requires usable { IsUsable self.old }
        ensures state { state self.new ≡ state self.old }
        ensures usable { IsUsable self.new }
        ensures live { self.new.live ≡ self.old.live }
        ensures used { self.new.used ≡ self.old.used }
    {
        for mutation in mutations {
            let kinds = kinds_of(self.alloc, mutation)?;
            if !kinds.is_empty() {
                self.keep(kinds)?;
            }
        }
        Ok(())
    }
}

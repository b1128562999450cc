//! What the lines so far have left.
ghost use Rattle.std.specs.Prelude.{◌≡◌, IfOk};
ghost use Rattle.cs_docs.specs.Store.{docs as docs_of};
ghost use Rattle.cs_index.specs.View.{store_of};
ghost use Rattle.cs_reply.specs.View.{refusal};
ghost use Rattle.cs_machine.specs.Refused.{refuse};
ghost use Rattle.cs_machine.specs.State.{begun};
ghost use Rattle.cs_state.specs.State.{state, IsFitting, IsUsable};
ghost use Rattle.cs_state.specs.Does.{Does};

use cs_docs::Docs;
use cs_gen::Tally;
use cs_index::{Index, Indexed};
use cs_listen::Listeners;
use cs_live::Live;
use cs_reply::{Refusal, Reply};
use cs_value::{NoMemory, Txt};
use indexmap::IndexSet;
use std::alloc::Global;
use std::hash::RandomState;

// The moment at which every run begins.
const FIRST_MOMENT: &str = "1970-01-01T00:00:00Z";

// The tally of one refusal.
pub(crate) const ONE_REFUSAL: Tally = Tally {
    replies: 1,
    events: 0,
    live: 0,
    refused: 1,
};

/// What the lines so far have left: the documents with their index, the moment, the ids of accepted
/// transactions in the order in which they were, the live queries and the listeners.
///
/// The index finds the documents that have a key, of the kinds that queries have asked by. No reply
/// depends on its seed.
///
/// A state is spent where a transaction's documents were installed and there was no memory then for
/// their index, or for what the live queries answer. It can't be used on.
#[derive(Drop)]
pub struct State {
    pub(crate) alloc: Global,
    /// The documents.
    pub docs: Docs,
    /// The index of the documents.
    pub index: Index,
    /// The moment of the transactions that follow.
    pub moment: Txt,
    pub(crate) used: IndexSet<String>,
    /// The live queries.
    pub live: Live,
    /// The listeners.
    pub listeners: Listeners,
    /// Whether the state is spent.
    pub spent: bool,
}

impl State {
    /// The state with these documents, at the first moment, and with nothing else. Which keys share
    /// a code in its index depends on the seed, which no one who chooses documents knows.
    /// `NoMemory` where the allocator has no room for the moment.
    pub fn new(alloc: Global, seed: RandomState, docs: Docs) -> Result<State, NoMemory>
        ensures begun { IfOk result (λ held. state held ≡ begun (docs_of docs)) }
        ensures usable { IfOk result (λ held. IsUsable held) }
    {
        let Ok(moment) = Txt::copy_of(alloc, FIRST_MOMENT) else {
            drop(docs);
            return Err(NoMemory);
        };
        let index = Index::new(alloc, seed);
        Ok(State {
            alloc,
            docs,
            index,
            moment,
            used: IndexSet::new(alloc),
            live: Live::new(alloc, seed),
            listeners: Listeners::new(alloc, seed),
            spent: false,
        })
    }

    /// The documents with their index.
    pub fn store(&self) -> Indexed<'_>
        requires { IsFitting self.now }
        ensures { store_of result ≡ self.now.docs }
    {
        Indexed::of(&self.docs, &self.index)
    }

    /// The line of the number is refused: the reply that says why is appended. After `NoMemory` a
    /// part of it may have been appended.
    pub fn refuse(&self, why: Refusal<'_>, line: u32, out: &mut Vec<u8>) -> Result<Tally, NoMemory>
        requires usable { IsUsable self.now }
        ensures { IfOk result (λ tally. Does out.old.items out.new.items tally self.now line
            (refuse (state self.now) (refusal why.entry))) }
    {
        Reply::Refused(why).write(self.alloc, line, out)?;
        Ok(ONE_REFUSAL)
    }
}

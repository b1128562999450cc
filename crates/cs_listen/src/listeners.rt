//! The listeners of a store.
ghost use Rattle.std.specs.Prelude.{◌≡◌, [], Some, true, false, IfOk, IfErr, IfNone, IfSome, OnOk, OnErr, map};
ghost use Rattle.std.specs.List.{All};
ghost use Rattle.cs_value.specs.View.{fields};
ghost use Rattle.cs_view.specs.View.{edits};
ghost use Rattle.cs_syntax.specs.Queries.{expression_of};
ghost use Rattle.cs_plain.specs.Predicates.{filter};
ghost use Rattle.cs_listen.specs.Events.{events};
ghost use Rattle.cs_listen.specs.Posted.{ArePosted, Ascend, filter_code};
ghost use Rattle.cs_reply.specs.View.{event};

use crate::hearing::hear_all;
use crate::listening::Listening;
use crate::postings::{Posting, post, sought_numbers, withdraw};
use cs_codes::Seed;
use cs_codes::laws::keys_are_listed;
use cs_interest::laws::narrowest_is_had;
use cs_interest::narrowest_code;
use cs_plain::{Plain, keys, true_has_predicate_keys};
use cs_reply::Event;
use cs_syntax::Query;
use cs_value::{Fields, NoMemory, NoName, Txt};
use cs_view::Change;
use std::alloc::Global;
use std::hash::RandomState;

/// How many listeners may stand.
pub const MOST_LISTENERS: u32 = 1024;

// The highest number.
const HIGHEST: u64 = 18_446_744_073_709_551_615;

/// Why a listener is not taken.
#[derive(Clone, Copy, Debug, Drop, PartialEq, Eq)]
pub enum ListenFault {
    /// A listener may not have the query.
    NotListenable,
    /// A listener has the name.
    NameUsed,
    /// 1,024 listeners stand.
    Full,
    /// The allocator had no memory to give.
    NoMemory,
}

/// The listeners of a store, in the order made. A name is looked for among all of them, which are
/// few: that happens where one is made or stopped, and not at a change.
///
/// Each is posted under the code of the narrowest of its filter's keys, or under that of every
/// document where its filter gives no key. A change goes to those alone that are posted under a
/// code that its document has, before it or after it.
#[derive(Drop)]
pub struct Listeners {
    alloc: Global,
    seed: Seed,
    made: Vec<Listening>,
    postings: Vec<Posting>,
    next: u64,
    pub ghost posted: { ArePosted seed postings.items next made.items },
    pub ghost ascend: { Ascend postings.items },
}

// The code of the narrowest of a predicate's keys.
fn filter_code(
    alloc: Global,
    seed: &Seed,
    predicate: &Plain,
    params: &Fields,
) -> Result<u64, NoMemory>
    ensures { IfOk result (λ c. c
        ≡ filter_code seed.now (filter predicate.now) (fields params.now)) }
{
    let keys = keys(alloc, predicate, params)?;
    Ok(narrowest_code(seed, &keys))
}

impl Listeners {
    ghost use Rattle.cs_listen.specs.Listeners.{HasRoom, NotAdded, NotTaken, has_name, is_listening, listener, listeners, with_one, with_query, without};

    /// No listener. Which keys share a code depends on the seed, which no one who chooses documents
    /// knows. It takes no memory.
    pub fn new(alloc: Global, seed: RandomState) -> Listeners
        ensures { listeners result ≡ [] }
    {
        Listeners {
            alloc,
            seed: Seed::new(&seed),
            made: Vec::new(alloc),
            postings: Vec::new(alloc),
            next: 0,
        }
    }

    /// Whether a listener has the name.
    pub fn has(&self, name: &str) -> bool
        ensures { result ≡ is_listening name.now (listeners self.now) }
    {
        self.number(name).is_some()
    }

    /// A listener more, the last, that watches the query. The first that holds is told: that a
    /// listener may not have the query, that one has the name, that 1,024 stand. After a fault the
    /// listeners are as before.
    pub fn add(
        &mut self,
        name: Txt,
        query: Query,
        params: Fields,
        include_result: bool,
        include_previous: bool,
    ) -> Result<(), ListenFault>
        ensures added { OnOk result (with_query name (expression_of query) (fields params)
            include_result include_previous (listeners self.old) ≡ Some (listeners self.new)) }
        ensures room { OnOk result (HasRoom name (listeners self.old)) }
        ensures fault { IfErr result (NotAdded name (expression_of query) (listeners self.old)) }
        ensures unchanged { OnErr result (listeners self.new ≡ listeners self.old) }
    {
        match Plain::from_query(query) {
            Ok(predicate) => {
                self.add_predicate(name, predicate, params, include_result, include_previous)
            }
            Err(query) => {
                drop((name, query, params));
                Err(ListenFault::NotListenable)
            }
        }
    }

    /// A listener more, the last, that watches the predicate. The first that holds is told: that a
    /// listener has the name, that 1,024 stand. After a fault the listeners are as before.
    pub fn add_predicate(
        &mut self,
        name: Txt,
        predicate: Plain,
        params: Fields,
        include_result: bool,
        include_previous: bool,
    ) -> Result<(), ListenFault>
        ensures added { OnOk result (listeners self.new ≡ with_one name (filter predicate)
            (fields params) include_result include_previous (listeners self.old)) }
        ensures room { OnOk result (HasRoom name (listeners self.old)) }
        ensures fault { IfErr result (NotTaken name (listeners self.old)) }
        ensures unchanged { OnErr result (listeners self.new ≡ listeners self.old) }
    {
        // A query is dropped by name: left to the compiler, its whole drop would stand, and be
        // proved, at each place.
        if self.has(name.as_str()) {
            drop((name, predicate, params));
            return Err(ListenFault::NameUsed);
        }
        if self.made.len() >= MOST_LISTENERS as usize {
            drop((name, predicate, params));
            return Err(ListenFault::Full);
        }
        match self.push(name, predicate, params, include_result, include_previous) {
            Ok(()) => Ok(()),
            Err(NoMemory) => Err(ListenFault::NoMemory),
        }
    }

    // A listener more, the last, with a number of its own.
    fn push(
        &mut self,
        name: Txt,
        predicate: Plain,
        params: Fields,
        include_result: bool,
        include_previous: bool,
    ) -> Result<(), NoMemory>
        ensures added { OnOk result (listeners self.new ≡ with_one name (filter predicate)
            (fields params) include_result include_previous (listeners self.old)) }
        ensures unchanged { OnErr result (listeners self.new ≡ listeners self.old) }
    {
        let number = self.next;
        if number >= HIGHEST {
            drop((name, predicate, params));
            return Err(NoMemory);
        }
        let Ok(code) = filter_code(self.alloc, &self.seed, &predicate, &params) else {
            drop((name, predicate, params));
            return Err(NoMemory);
        };
        let Ok(()) = post(&mut self.postings, code, number) else {
            drop((name, predicate, params));
            return Err(NoMemory);
        };
        let listening = Listening {
            name,
            number,
            predicate,
            params,
            include_result,
            include_previous,
        };
        match self.made.push(listening) {
            Ok(()) => {
                self.next = number + 1;
                Ok(())
            }
            Err(refused) => {
                drop(refused);
                withdraw(&mut self.postings, number);
                Err(NoMemory)
            }
        }
    }

    // The number of the listener of the name.
    fn number(&self, name: &str) -> Option<u64>
        ensures own { IfSome result (λ n. All (λ l. l.number ≡ n → has_name name.now (listener l)
            ≡ true) self.now.made.items) }
        ensures had { IfSome result (λ _. is_listening name.now (listeners self.now) ≡ true) }
        ensures none { IfNone result (is_listening name.now (listeners self.now) ≡ false) }
    {
        for listening in &self.made {
            if listening.is_named(name) {
                return Some(listening.number);
            }
        }
        None
    }

    /// Takes out the listener of the name; the others stay in their order. `NoName` exactly where
    /// none has the name.
    pub fn remove(&mut self, name: &str) -> Result<(), NoName>
        ensures removed { OnOk result (listeners self.new ≡ without name.now (listeners self.old)) }
        ensures had { OnOk result (is_listening name.now (listeners self.old) ≡ true) }
        ensures none { OnErr result (is_listening name.now (listeners self.old) ≡ false) }
        ensures unchanged { OnErr result (listeners self.new ≡ listeners self.old) }
    {
        let Some(number) = self.number(name) else {
            return Err(NoName);
        };
        self.made.retain(|listening| !listening.is_named(name));
        withdraw(&mut self.postings, number);
        Ok(())
    }

    /// What the listeners hear of the changes of the transaction at the moment: by listener in the
    /// order made, and then by the order of the changes. `NoMemory` where the allocator has no room
    /// for them.
    pub fn events<'a>(
        &'a self,
        alloc: Global,
        tx: &'a str,
        moment: &'a str,
        changes: &'a [Change],
    ) -> Result<Vec<Event<'a>>, NoMemory>
        ensures { IfOk result (λ heard. map event heard.items
            ≡ events tx.now moment.now (edits changes.now) (listeners self.now)) }
    {
        true_has_predicate_keys();
        narrowest_is_had();
        keys_are_listed();
        // Where no listener stands, no code is worked out.
        if self.made.is_empty() {
            return Ok(Vec::new(alloc));
        }
        let numbers = sought_numbers(alloc, &self.seed, &self.postings, changes)?;
        hear_all(alloc, &self.made, &numbers, tx, moment, changes)
    }
}

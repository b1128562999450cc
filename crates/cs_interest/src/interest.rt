//! Keys of interest.
ghost use Rattle.std.specs.Prelude.{◌≡◌, ℕ, false, IfOk, OnErr, OnOk};
ghost use Rattle.cs_view.specs.View.{edits};
ghost use Rattle.cs_codes.specs.Codes.{seed_of};
ghost use Rattle.cs_interest.specs.Interest.{holds, AreAsked, Entered, Left};

use crate::asked::{numbers_of, put_changes, put_under};
use crate::pair::Pair;
use crate::put::{put_all, take_all};
use cs_codes::Seed;
use cs_value::NoMemory;
use cs_view::Change;
use std::alloc::Global;
use std::collections::BTreeSet;
use std::hash::RandomState;

/// Numbers by the codes of keys: which of them changes of documents concern is found without a walk
/// over all. The codes depend on its seed, which those who choose the keys don't know. A number
/// that is asked for has to be tested.
#[derive(Drop)]
pub struct Interest {
    pub(crate) pairs: BTreeSet<Pair>,
    pub(crate) seed: Seed,
    pub(crate) alloc: Global,
}

impl Interest {
    /// No interest in any key. It takes no memory.
    pub fn new(alloc: Global, seed: RandomState) -> Interest
        ensures empty { (c n : ℕ) → holds result c n ≡ false }
        ensures seed { result.seed ≡ seed_of seed }
    {
        Interest {
            pairs: BTreeSet::new(alloc),
            seed: Seed::new(&seed),
            alloc,
        }
    }

    /// What the codes depend on.
    pub fn seed(&self) -> &Seed
        ensures { result.now ≡ self.now.seed }
    {
        &self.seed
    }

    /// Enters the number under each of the codes. After `NoMemory` it stands under none of them.
    pub fn enter(&mut self, number: u64, codes: &[u64]) -> Result<(), NoMemory>
        ensures entered { OnOk result (Entered number codes.now self.old self.new) }
        ensures left { OnErr result (Left number codes.now self.old self.new) }
        ensures seed { self.new.seed ≡ self.old.seed }
    {
        match put_all(&mut self.pairs, number, codes) {
            Ok(()) => Ok(()),
            Err(NoMemory) => {
                take_all(&mut self.pairs, number, codes);
                Err(NoMemory)
            }
        }
    }

    /// Takes the number out from under each of the codes. It takes no memory.
    pub fn leave(&mut self, number: u64, codes: &[u64])
        ensures left { Left number codes.now self.old self.new }
        ensures seed { self.new.seed ≡ self.old.seed }
    {
        take_all(&mut self.pairs, number, codes);
    }

    /// The numbers that the changes concern, ascending: each that stands under a code that a
    /// document has before or after a change, under the code of a change's id, or under the code of
    /// every document; and no other. `NoMemory` where the allocator has no room for them.
    pub fn asked(&self, alloc: Global, changes: &[Change]) -> Result<Vec<u64>, NoMemory>
        ensures { IfOk result
            (λ ns. AreAsked self.now (edits changes.now) ns.items) }
    {
        // Where no number stands, no code is worked out.
        if self.pairs.is_empty() {
            return Ok(Vec::new(alloc));
        }
        let mut asked = BTreeSet::new(alloc);
        put_under(&self.pairs, 0, &mut asked)?;
        put_changes(alloc, &self.seed, &self.pairs, changes, &mut asked)?;
        numbers_of(alloc, &asked)
    }
}

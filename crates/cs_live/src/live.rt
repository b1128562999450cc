//! The live queries of a store.
ghost use Rattle.std.specs.Prelude.{◌≡◌, ◌≢◌, ◌++◌, ◌∷◌, ◌<◌, ◌≤◌, ◌+◌, [], List, length, get_or, IfOk, OnOk, OnErr, IfErr, true, false, map, option_map};
ghost use Rattle.cs_value.specs.Tree.{Tree};
ghost use Rattle.cs_value.specs.View.{tree, fields};
ghost use Rattle.cs_syntax.specs.Queries.{expression_of};
ghost use Rattle.cs_view.specs.Changes.{are_changes, LeadTo, before_changes};
ghost use Rattle.cs_view.specs.View.{edits};
ghost use Rattle.cs_plan.specs.Simple.{is_simple};
ghost use Rattle.cs_meaning.specs.Hits.{cost};
ghost use Rattle.cs_live.specs.Entries.{entries, lives, said, IsPlace};
ghost use Rattle.cs_interest.specs.Interest.{Entered, Left};
ghost use Rattle.cs_live.specs.Brought.{AtNumber, Brings, BringsAt};
ghost use Rattle.cs_kept.specs.Fits.{IsQuiet};
ghost use Rattle.cs_live.specs.Fits.{Fits, FitsOne, IsUntouched, KeepsRecords, HasRoom, IsCause};
ghost use Rattle.cs_kept.specs.Found.{codes_of};
ghost use Rattle.cs_live.specs.Found.{AreFound, Ascend, IsNumberPlace};
ghost use Rattle.cs_live.specs.declared.entry.Entry.{Entry};
ghost use Rattle.cs_live.specs.Lives.{all_refreshed, answer_of, is_named, made, news, say, without_name, worded};

use crate::entry::{Entry, LiveLine};
use crate::laws::unasked_stays;
use cs_interest::Interest;
use cs_syntax::Query;
use cs_value::{Fields, NoMemory, NoName, Steps, Txt, Val};
use cs_view::{Change, View};
use std::alloc::Global;
use std::hash::RandomState;
use std::sync::ledger::Ledger;

/// Why a live query is not added.
#[derive(Clone, Copy, Debug, Drop, PartialEq, Eq)]
pub enum LiveFault {
    /// A live query has the name.
    NameUsed,
    /// 1,024 live queries stand.
    Full,
    /// The allocator had no memory to give.
    NoMemory,
}

/// How many live queries may stand.
pub const MOST_LIVES: u32 = 1024;

// The highest number.
const HIGHEST: u64 = 18_446_744_073_709_551_615;

/// The live queries of a store, in the order made, with their last answers. The keys of all of
/// them stand in one place, so that a commit finds those that it concerns without a walk over the
/// others.
#[derive(Drop)]
pub struct Live {
    alloc: Global,
    entries: Vec<Entry>,
    interest: Interest,
    next: u64,
}

// Where the entry of the number stands.
fn seek(entries: &[Entry], number: u64) -> Result<usize, usize>
    requires { Ascend entries.now }
    ensures { IsNumberPlace number entries.now result }
{
    entries.binary_search_by(|entry| entry.number.cmp(&number))
}

impl Live {
    /// No live query. The seed settles by which codes their keys will be found.
    pub fn new(alloc: Global, seed: RandomState) -> Live
        ensures lives { lives result ≡ [] }
        ensures fits { (docs : List Tree) → Fits result docs }
    {
        let interest = Interest::new(alloc, seed);
        Live {
            alloc,
            entries: Vec::new(alloc),
            interest,
            next: 0,
        }
    }

    // The place of the live query of the name.
    fn place(&self, name: &str) -> Option<usize>
        ensures { IsPlace name.now (entries self.now) result }
    {
        for i in 0..self.entries.len() {
            if self.entries[i].is_named(name) {
                return Some(i);
            }
        }
        None
    }

    /// Whether a live query has the name.
    pub fn has(&self, name: &str) -> bool
        ensures { result ≡ is_named name.now (lives self.now) }
    {
        self.place(name).is_some()
    }

    /// The last answer of the live query of the name. `None` exactly where none has it.
    pub fn answer(&self, name: &Txt) -> Option<&Val>
        ensures { option_map (λ v. tree v.now) result ≡ answer_of name.now (lives self.now) }
    {
        match self.place(name.as_str()) {
            Some(place) => Some(self.entries[place].kept.last()),
            None => None,
        }
    }

    /// Takes out the live query of the name; the others stay in their order. `NoName` exactly where
    /// none has the name; nothing is changed then.
    pub fn remove(&mut self, name: &str) -> Result<(), NoName>
        ensures removed { OnOk result (lives self.new ≡ without_name name.now (lives self.old)) }
        ensures had { OnOk result (is_named name.now (lives self.old) ≡ true) }
        ensures none { OnErr result (is_named name.now (lives self.old) ≡ false) }
        ensures unchanged { OnErr result (entries self.new ≡ entries self.old) }
        ensures fits { (docs : List Tree) → Fits self.old docs → Fits self.new docs }
    {
        match self.place(name) {
            Some(place) => {
                let gone = self.entries.remove(place);
                self.interest.leave(gone.number, gone.kept.codes());
                drop(gone);
                Ok(())
            }
            None => Err(NoName),
        }
    }

    // Whether a live query of the name can be added, or the first cause why not.
    fn find_room(&self, name: &str) -> Result<(), LiveFault>
        ensures room { OnOk result (HasRoom name.now (lives self.now)) }
        ensures cause { IfErr result (λ fault. IsCause fault name.now (lives self.now)) }
    {
        if self.has(name) {
            return Err(LiveFault::NameUsed);
        }
        if self.entries.len() >= MOST_LIVES as usize {
            return Err(LiveFault::Full);
        }
        Ok(())
    }

    /// One live query more, the last, with its value over the view as its answer, and the line that
    /// says it. The first fault that holds is told: that a live query has the name, that 1,024
    /// stand; nothing is asked of the view then. After a fault the live queries are as before.
    pub fn add<V: View<L>, L: Ledger>(
        &mut self,
        name: Txt,
        query: Query,
        params: Fields,
        view: &V,
        steps: &mut Steps<L>,
    ) -> Result<LiveLine, LiveFault>
        ensures room { OnOk result (HasRoom name (lives self.old)) }
        ensures added { OnOk result (lives self.new ≡ lives self.old
            ++ made (V.docs view.now) name (expression_of query) (fields params) ∷ []) }
        ensures line { IfOk result (λ line. said line
            ≡ worded (say (made (V.docs view.now) name (expression_of query) (fields params)))) }
        ensures fits { OnOk result (Fits self.old (V.docs view.now)
            → Fits self.new (V.docs view.now)) }
        ensures cause { IfErr result (λ fault. IsCause fault name (lives self.old)) }
        ensures unchanged { OnErr result (entries self.new ≡ entries self.old) }
        ensures fits_still { OnErr result ((docs : List Tree) → Fits self.old docs
            → Fits self.new docs) }
        ensures unasked { IfErr result
            (λ fault. fault ≢ LiveFault.NoMemory → steps.new ≡ steps.old) }
        ensures visits { is_simple (expression_of query) ≡ true
            → steps.new ≤ steps.old + cost (expression_of query) (fields params) (V.docs view.now) }
    {
        // A query is dropped by name: left to the compiler, its whole drop would stand, and be
        // proved, at each place.
        if let Err(fault) = self.find_room(name.as_str()) {
            drop((name, query, params));
            return Err(fault);
        }
        match self.enter(name, query, params, view, steps) {
            Ok(line) => Ok(line),
            Err(NoMemory) => Err(LiveFault::NoMemory),
        }
    }

    // One live query more, where there is room.
    fn enter<V: View<L>, L: Ledger>(
        &mut self,
        name: Txt,
        query: Query,
        params: Fields,
        view: &V,
        steps: &mut Steps<L>,
    ) -> Result<LiveLine, NoMemory>
        ensures added { OnOk result (lives self.new ≡ lives self.old
            ++ made (V.docs view.now) name (expression_of query) (fields params) ∷ []) }
        ensures line { IfOk result (λ line. said line
            ≡ worded (say (made (V.docs view.now) name (expression_of query) (fields params)))) }
        ensures fits { OnOk result (Fits self.old (V.docs view.now)
            → Fits self.new (V.docs view.now)) }
        ensures unchanged { OnErr result (entries self.new ≡ entries self.old) }
        ensures fits_still { OnErr result ((docs : List Tree) → Fits self.old docs
            → Fits self.new docs) }
        ensures visits { is_simple (expression_of query) ≡ true
            → steps.new ≤ steps.old + cost (expression_of query) (fields params) (V.docs view.now) }
    {
        let number = self.next;
        if number >= HIGHEST {
            drop((name, query, params));
            return Err(NoMemory);
        }
        let seed = self.interest.seed();
        let entry = Entry::make(self.alloc, name, number, seed, query, params, view, steps)?;
        let Ok(line) = entry.line(self.alloc) else {
            drop(entry);
            return Err(NoMemory);
        };
        self.push(entry)?;
        self.next = number + 1;
        Ok(line)
    }

    // Puts the entry last, and its number under its codes.
    fn push(&mut self, entry: Entry) -> Result<(), NoMemory>
        ensures pushed { OnOk result (entries self.new ≡ entries self.old ++ entry ∷ []) }
        ensures entered { OnOk result
            (Entered entry.number (codes_of entry.kept) self.old.interest self.new.interest) }
        ensures unchanged { OnErr result (entries self.new ≡ entries self.old) }
        ensures left { OnErr result
            (Left entry.number (codes_of entry.kept) self.old.interest self.new.interest) }
        ensures seed { self.new.interest.seed ≡ self.old.interest.seed }
        ensures next { self.new.next ≡ self.old.next }
    {
        let Ok(()) = self.interest.enter(entry.number, entry.kept.codes()) else {
            drop(entry);
            return Err(NoMemory);
        };
        match self.entries.push(entry) {
            Ok(()) => Ok(()),
            Err(failed) => {
                let entry = failed.value;
                self.interest.leave(entry.number, entry.kept.codes());
                drop(entry);
                Err(NoMemory)
            }
        }
    }

    // Brings the entry at the place to the dataset after the changes.
    fn bring_at<V: View<L>, L: Ledger>(
        &mut self,
        place: usize,
        lines: &mut Vec<LiveLine>,
        view: &V,
        changes: &[Change],
        steps: &mut Steps<L>,
    ) -> Result<(), NoMemory>
        requires within { place < length (entries self.old) }
        requires changes { are_changes (edits changes.now) ≡ true }
        requires led { LeadTo (V.docs view.now) (edits changes.now) }
        requires fits { (e : Entry) → FitsOne (before_changes (V.docs view.now) (edits changes.now))
            (get_or (entries self.old) place e) }
        requires found { AreFound self.old }
        ensures brought { OnOk result (BringsAt (V.docs view.now) (edits changes.now)
            (entries self.old) (entries self.new) (map said lines.old.items)
            (map said lines.new.items) place) }
        ensures found { OnOk result (AreFound self.new) }
        ensures quiet { ((e : Entry) → IsQuiet (edits changes.now)
            (get_or (entries self.old) place e).kept) → steps.new ≡ steps.old }
    {
        let alloc = self.alloc;
        let entry = &mut self.entries[place];
        entry.refresh_into(alloc, &mut self.interest, lines, view, changes, steps)?;
        Ok(())
    }

    // Brings the entry of the number, if there is one, to the dataset after the changes.
    fn bring<V: View<L>, L: Ledger>(
        &mut self,
        number: u64,
        lines: &mut Vec<LiveLine>,
        view: &V,
        changes: &[Change],
        steps: &mut Steps<L>,
    ) -> Result<(), NoMemory>
        requires changes { are_changes (edits changes.now) ≡ true }
        requires led { LeadTo (V.docs view.now) (edits changes.now) }
        requires fits { AtNumber number (FitsOne (before_changes (V.docs view.now)
            (edits changes.now)))
            (entries self.old) }
        requires found { AreFound self.old }
        ensures brought { OnOk result (Brings (V.docs view.now) (edits changes.now) number
            (entries self.old) (entries self.new) (map said lines.old.items)
            (map said lines.new.items)) }
        ensures found { OnOk result (AreFound self.new) }
        ensures quiet { AtNumber number (λ e. IsQuiet (edits changes.now) e.kept)
            (entries self.old) → steps.new ≡ steps.old }
    {
        match seek(&self.entries, number) {
            Ok(place) => {
                self.bring_at(place, lines, view, changes, steps)?;
                Ok(())
            }
            Err(_) => Ok(()),
        }
    }

    /// After a commit of the changes: one line for each live query whose answer is another tree
    /// now, in the order made. The view is the dataset after the changes, and the live queries fit
    /// the one before them. It goes to those alone whose keys the changes may touch. Where no
    /// change touches a record, nothing is asked of the view. After `NoMemory` some answers are
    /// those before the changes, and some those after.
    pub fn after_commit<V: View<L>, L: Ledger>(
        &mut self,
        view: &V,
        changes: &[Change],
        steps: &mut Steps<L>,
    ) -> Result<Vec<LiveLine>, NoMemory>
        requires changes { are_changes (edits changes.now) ≡ true }
        requires led { LeadTo (V.docs view.now) (edits changes.now) }
        requires fits { Fits self.old (before_changes (V.docs view.now) (edits changes.now)) }
        ensures lines { IfOk result (λ lines. map said lines.items
            ≡ map worded (news (V.docs view.now) (lives self.old))) }
        ensures lives { OnOk result (lives self.new
            ≡ all_refreshed (V.docs view.now) (lives self.old)) }
        ensures fits { OnOk result (Fits self.new (V.docs view.now)) }
        ensures records { OnOk result (KeepsRecords self.old self.new (edits changes.now)) }
        ensures quiet { IsUntouched self.old (edits changes.now) → steps.new ≡ steps.old }
    {
        unasked_stays();
        let alloc = self.alloc;
        let asked = self.interest.asked(alloc, changes)?;
        let mut lines = Vec::new(alloc);
        for number in &asked {
            self.bring(*number, &mut lines, view, changes, steps)?;
        }
        Ok(lines)
    }
}

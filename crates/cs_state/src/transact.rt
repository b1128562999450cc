//! The row of `mutate`: a transaction, in three parts. What reads and prepares it changes nothing.
//! Then all is made that needs memory before the documents are installed. Last come the answers of
//! live queries: where there is no memory for these, the state is spent.
ghost use Rattle.std.specs.Prelude.{◌≡◌, ◌++◌, ◌<◌, ◌≤◌, ◌+◌, ◌^◌, OnOk, OnErr, IfOk, IfErr, List, Ok, length, map, string_bytes, false, true};
ghost use Rattle.indexmap.specs.IndexSet.{contains_text, spare};
ghost use Rattle.cs_value.specs.Tree.{widest};
ghost use Rattle.cs_value.specs.View.{tree};
ghost use Rattle.cs_view.specs.Changes.{after_changes, AreChangesBetween, before_changes, LeadTo, are_changes};
ghost use Rattle.cs_view.specs.View.{edit, edits};
ghost use Rattle.cs_docs.specs.Store.{docs as docs_of, prepared as changes_of};
ghost use Rattle.cs_docs.specs.Verdict.{AreTaken};
ghost use Rattle.cs_io.specs.Lines.{longest_line};
ghost use Rattle.cs_body.specs.Body.{body_of};
ghost use Rattle.cs_body.specs.View.{action, txn as plain};
ghost use Rattle.cs_live.specs.Entries.{lives, said};
ghost use Rattle.cs_live.specs.Fits.{Fits, IsUntouched};
ghost use Rattle.cs_live.specs.Lives.{all_refreshed, news, worded, Said};
ghost use Rattle.cs_reply.specs.Reply.{reply_tree, committed};
ghost use Rattle.cs_reply.specs.View.{Appended, event, outcome as outcome_seen};
ghost use Rattle.cs_listen.specs.Events.{events};
ghost use Rattle.cs_listen.specs.Listeners.{listeners};
ghost use Rattle.cs_machine.specs.Rows.{row_mutate, by_transaction, installed, outcome};
ghost use Rattle.cs_machine.specs.State.{with_lives, with_used};
ghost use Rattle.cs_txn.specs.Commit.{commit};
ghost use Rattle.cs_txn.specs.View.{IsRefusal, transaction};
ghost use Rattle.cs_txn.specs.Visits.{are_simple, costs};
ghost use Rattle.cs_txn.specs.Within.{AreShort};
ghost use Rattle.cs_state.specs.State.{state, IsUsable};
ghost use Rattle.cs_index.specs.Index.{IsIndexOf};
ghost use Rattle.cs_state.specs.Visits.{VisitsFew, is_simple_body, body_cost, transaction_cost};
ghost use Rattle.cs_state.specs.Does.{Does, Leaves, IsTallyOf, AllButStore, heard_lines, live_lines};

use crate::answer::write_answer;
use crate::state::{ONE_REFUSAL, State};
use cs_body::{Mutation, Txn, TxnFault, transactions_are_within};
use cs_docs::Prepared;
use cs_gen::Tally;
use cs_index::{Indexed, InstallFault, install};
use cs_live::LiveLine;
use cs_refusal::write_refused;
use cs_reply::{Event, Operation, Outcome, Refusal, Reply};
use cs_txn::laws::{commits_keep_datasets, within_are_short};
use cs_txn::{Refusal as TxnRefusal, prepare};
use cs_value::{NoMemory, Steps, Txt, Val};
use cs_view::Change;
use cs_view::laws::{changes_are_computed, changes_are_one_list, changes_lead_on_and_back};
use std::alloc::Global;
use std::sync::ledger::Ledger;

// What became of one document.
fn outcome(change: &Change) -> Outcome<'_>
    ensures { outcome_seen result ≡ outcome (edit change.entry.now) }
{
    let operation = match (&change.before, &change.after) {
        (None, _) => Operation::Create,
        (Some(_), None) => Operation::Delete,
        (Some(_), Some(_)) => Operation::Update,
    };
    Outcome {
        id: change.id.as_str(),
        operation,
    }
}

// What became of each.
fn outcomes<'a>(alloc: Global, changes: &'a [Change]) -> Result<Vec<Outcome<'a>>, NoMemory>
    ensures { IfOk result (λ os. map outcome_seen os.items
        ≡ map outcome (edits changes.entry.now)) }
{
    let mut outcomes = Vec::with_capacity(alloc, changes.len())?;
    for change in changes {
        outcomes.push(outcome(change))?;
    }
    Ok(outcomes)
}

// Each event as a line.
fn write_heard(
    alloc: Global,
    events: &[Event<'_>],
    line: u32,
    out: &mut Vec<u8>,
) -> Result<(), NoMemory>
    ensures { OnOk result (out.new.items ≡ out.old.items ++ heard_lines line
        (map event events.now)) }
{
    for heard in events {
        Reply::Heard(*heard).write(alloc, line, out)?;
    }
    Ok(())
}

// What a line says besides a name and an answer takes no more bytes.
const AROUND: usize = 64;

// How many bytes the lines take, their names mostly being short.
fn room_for(answers: &[LiveLine]) -> usize {
    let mut room = 0usize;
    for answer in answers {
        room = room
            .saturating_add(answer.answer.len())
            .saturating_add(AROUND);
    }
    room
}

// Each answer of a live query as a line. Room for all is made at once, so that none is moved.
fn write_answers(
    alloc: Global,
    answers: &[LiveLine],
    line: u32,
    out: &mut Vec<u8>,
) -> Result<(), NoMemory>
    ensures { (told : List Said) → map said answers.now ≡ map worded told → OnOk result
        (out.new.items ≡ out.old.items ++ live_lines line told) }
{
    out.reserve(room_for(answers))?;
    for answer in answers {
        write_answer(alloc, answer, line, out)?;
    }
    Ok(())
}

// A number of replies. More than 32 bits hold are taken for want of memory.
fn count(n: u64) -> Result<u32, NoMemory>
    ensures { IfOk result (λ count. count ≡ n) }
{
    match u32::try_from(n) {
        Ok(count) => Ok(count),
        Err(_) => Err(NoMemory),
    }
}

// The tally of the reply to an accepted transaction, so many events, and so many answers of live
// queries.
fn tally(events: u32, live: u32) -> Result<Tally, NoMemory>
    ensures { IfOk result (λ tally. IsTallyOf tally events live) }
{
    let replies = count(u64::from(events) + u64::from(live) + 1)?;
    Ok(Tally {
        replies,
        events,
        live,
        refused: 0,
    })
}

impl State {
    /// A transaction: its replies are appended, as the plain machine gives them. After `NoMemory` a
    /// part of them may have been appended, and the state is as before; or it is spent, which only
    /// an accepted transaction leads to, and its documents are those after the transaction.
    ///
    /// Where each query of the transaction is refused or simple, and its changes touch no record
    /// that a live query keeps, the counter rises by at most the costs of these queries.
    pub fn mutate<L: Ledger>(
        &mut self,
        body: Val,
        line: u32,
        steps: &mut Steps<L>,
        out: &mut Vec<u8>,
    ) -> Result<Tally, NoMemory>
        requires short { widest (tree body) ≤ longest_line }
        requires usable { IsUsable self.old }
        ensures does { IfOk result (λ tally. Does out.old.items out.new.items tally self.new line
            (row_mutate (state self.old) line (tree body))) }
        ensures leaves { OnErr result (Leaves self.old self.new
            (row_mutate (state self.old) line (tree body))) }
        ensures visits { VisitsFew (is_simple_body (body_of (tree body) line))
            (body_cost (state self.old) (body_of (tree body) line)) self.old
            (row_mutate (state self.old) line (tree body)) steps.old steps.new }
    {
        transactions_are_within();
        within_are_short();
        match Txn::read(self.alloc, body, line) {
            Ok(txn) => self.transact(txn, line, steps, out),
            Err(TxnFault::BadCommand) => self.refuse(Refusal::BadCommand, line, out),
            Err(TxnFault::BadTx) => self.refuse(Refusal::BadTx, line, out),
            Err(TxnFault::NoMemory) => Err(NoMemory),
        }
    }

    // A transaction that was read. The index is made ready for it first.
    fn transact<L: Ledger>(
        &mut self,
        txn: Txn,
        line: u32,
        steps: &mut Steps<L>,
        out: &mut Vec<u8>,
    ) -> Result<Tally, NoMemory>
        requires few { length txn.mutations.items < 2 ^ 31 }
        requires short { AreShort (plain txn).actions }
        requires usable { IsUsable self.old }
        ensures does { IfOk result (λ tally. Does out.old.items out.new.items tally self.new line
            (by_transaction (state self.old) (plain txn))) }
        ensures leaves { OnErr result (Leaves self.old self.new
            (by_transaction (state self.old) (plain txn))) }
        ensures visits { VisitsFew (are_simple (plain txn).actions)
            (transaction_cost (state self.old) (plain txn)) self.old
            (by_transaction (state self.old) (plain txn)) steps.old steps.new }
    {
        let Ok(()) = self.make_ready_for(txn.mutations.as_slice()) else {
            drop(txn);
            return Err(NoMemory);
        };
        self.do_all(txn, line, steps, out)
    }

    // A transaction, once the index is ready.
    fn do_all<L: Ledger>(
        &mut self,
        txn: Txn,
        line: u32,
        steps: &mut Steps<L>,
        out: &mut Vec<u8>,
    ) -> Result<Tally, NoMemory>
        requires few { length txn.mutations.items < 2 ^ 31 }
        requires short { AreShort (plain txn).actions }
        requires usable { IsUsable self.old }
        ensures does { IfOk result (λ tally. Does out.old.items out.new.items tally self.new line
            (by_transaction (state self.old) (plain txn))) }
        ensures leaves { OnErr result (Leaves self.old self.new
            (by_transaction (state self.old) (plain txn))) }
        ensures visits { VisitsFew (are_simple (plain txn).actions)
            (transaction_cost (state self.old) (plain txn)) self.old
            (by_transaction (state self.old) (plain txn)) steps.old steps.new }
    {
        commits_keep_datasets();
        changes_are_computed();
        changes_are_one_list();
        let Txn { id: tx, mutations } = txn;
        let id = tx.as_str();
        if self.used.contains(id) {
            let told = self.refuse(Refusal::TxUsed { id }, line, out);
            drop(mutations);
            return told;
        }
        match self.prepare(&tx, mutations, steps) {
            Ok(prepared) => {
                let told = self.accept(&tx, &prepared, line, steps, out);
                drop(prepared);
                told
            }
            Err(refusal) => {
                write_refused(self.alloc, &refusal, line, out)?;
                Ok(ONE_REFUSAL)
            }
        }
    }

    // What a transaction comes to over the documents.
    fn prepare<L: Ledger>(
        &self,
        tx: &Txt,
        mutations: Vec<Mutation>,
        steps: &mut Steps<L>,
    ) -> Result<Prepared, TxnRefusal>
        requires few { length mutations.items < 2 ^ 31 }
        requires short { AreShort (map action mutations.items) }
        requires usable { IsUsable self.now }
        ensures accepted { IfOk result (λ p. commit (transaction tx.now mutations.items)
            self.now.moment (docs_of self.now.docs)
            ≡ Ok (after_changes (docs_of self.now.docs) (changes_of p))) }
        ensures changes { IfOk result (λ p. AreChangesBetween (docs_of self.now.docs)
            (after_changes (docs_of self.now.docs) (changes_of p)) (changes_of p)) }
        ensures taken { IfOk result (λ p. AreTaken (docs_of self.now.docs) (changes_of p)) }
        ensures refused { IfErr result (λ r. IsRefusal r
            (commit (transaction tx.now mutations.items) self.now.moment (docs_of self.now.docs))) }
        ensures visits { are_simple (map action mutations.items) ≡ true → steps.new ≤ steps.old
            + costs tx.now self.now.moment 0 (map action mutations.items)
            (docs_of self.now.docs) }
    {
        let store = self.store();
        let prepared = prepare(
            self.alloc,
            store,
            &store,
            tx,
            mutations,
            &self.moment,
            steps,
        )?;
        Ok(prepared)
    }

    // An accepted transaction: its replies, and what it leaves.
    fn accept<L: Ledger>(
        &mut self,
        tx: &Txt,
        prepared: &Prepared,
        line: u32,
        steps: &mut Steps<L>,
        out: &mut Vec<u8>,
    ) -> Result<Tally, NoMemory>
        requires taken { AreTaken (docs_of self.old.docs) (changes_of prepared.now) }
        requires unused { contains_text self.old.used tx.now ≡ false }
        requires usable { IsUsable self.old }
        ensures does { IfOk result (λ tally. Does out.old.items out.new.items tally self.new line
            (installed (state self.old) tx.now
            (after_changes (docs_of self.old.docs) (changes_of prepared.now))
            (changes_of prepared.now))) }
        ensures leaves { OnErr result (Leaves self.old self.new (installed (state self.old) tx.now
            (after_changes (docs_of self.old.docs) (changes_of prepared.now))
            (changes_of prepared.now))) }
        ensures quiet { IsUntouched self.old.live (changes_of prepared.now)
            → steps.new ≡ steps.old }
    {
        self.write_committed(tx, prepared, line, out)?;
        let events = self.write_events(tx, prepared, line, out)?;
        let id = self.room_for(tx)?;
        self.install(tx, prepared)?;
        self.note(id);
        changes_lead_on_and_back();
        match self.tell_live(prepared.changes(), events, line, steps, out) {
            Ok(tally) => Ok(tally),
            Err(NoMemory) => {
                self.spent = true;
                Err(NoMemory)
            }
        }
    }

    // The reply to an accepted transaction.
    fn write_committed(
        &self,
        tx: &Txt,
        prepared: &Prepared,
        line: u32,
        out: &mut Vec<u8>,
    ) -> Result<(), NoMemory>
        ensures { OnOk result (Appended out.old.items out.new.items (reply_tree line
            (committed tx.now (map outcome (changes_of prepared.now))))) }
    {
        let outcomes = outcomes(self.alloc, prepared.changes())?;
        Reply::Committed {
            tx: tx.as_str(),
            outcomes: outcomes.as_slice(),
        }
        .write(self.alloc, line, out)
    }

    // What the listeners hear of an accepted transaction, and how many events that are.
    fn write_events(
        &self,
        tx: &Txt,
        prepared: &Prepared,
        line: u32,
        out: &mut Vec<u8>,
    ) -> Result<u32, NoMemory>
        ensures lines { OnOk result (out.new.items ≡ out.old.items ++ heard_lines line
            (events tx.now self.now.moment (changes_of prepared.now)
            (listeners self.now.listeners))) }
        ensures count { IfOk result (λ count. count ≡ length (events tx.now self.now.moment
            (changes_of prepared.now) (listeners self.now.listeners))) }
    {
        let heard = self.listeners.events(
            self.alloc,
            tx.as_str(),
            self.moment.as_str(),
            prepared.changes(),
        )?;
        write_heard(self.alloc, heard.as_slice(), line, out)?;
        count(heard.len() as u64)
    }

    // Installs the changes of an accepted transaction in the documents and in their index. The
    // state is spent where there was no memory for the index once the documents had changed.
    fn install(&mut self, _tx: &Txt, prepared: &Prepared) -> Result<(), NoMemory>
        requires taken { AreTaken (docs_of self.old.docs) (changes_of prepared.now) }
        requires usable { IsUsable self.old }
        ensures docs { OnOk result (docs_of self.new.docs
            ≡ after_changes (docs_of self.old.docs) (changes_of prepared.now)) }
        ensures index { OnOk result (IsIndexOf self.new.index self.new.docs) }
        ensures others { OnOk result (AllButStore self.old self.new) }
        ensures leaves { OnErr result (Leaves self.old self.new (installed (state self.old) _tx.now
            (after_changes (docs_of self.old.docs) (changes_of prepared.now))
            (changes_of prepared.now))) }
    {
        match install(&mut self.docs, &mut self.index, prepared) {
            Ok(()) => Ok(()),
            Err(InstallFault::NoMemory) => Err(NoMemory),
            Err(InstallFault::Spent) => {
                self.spent = true;
                Err(NoMemory)
            }
        }
    }

    // What live queries answer after the changes that were installed, behind the reply and so many
    // events. After `NoMemory` the live queries fit no documents any more.
    fn tell_live<L: Ledger>(
        &mut self,
        changes: &[Change],
        events: u32,
        line: u32,
        steps: &mut Steps<L>,
        out: &mut Vec<u8>,
    ) -> Result<Tally, NoMemory>
        requires changes { are_changes (edits changes.now) ≡ true }
        requires led { LeadTo (docs_of self.old.docs) (edits changes.now) }
        requires fits { Fits self.old.live (before_changes (docs_of self.old.docs)
            (edits changes.now)) }
        requires index { IsIndexOf self.old.index self.old.docs }
        ensures lines { OnOk result (out.new.items ≡ out.old.items ++ live_lines line
            (news (docs_of self.old.docs) (lives self.old.live))) }
        ensures tally { IfOk result (λ tally. IsTallyOf tally events
            (length (news (docs_of self.old.docs) (lives self.old.live)))) }
        ensures state { OnOk result (state self.new
            ≡ with_lives (all_refreshed (docs_of self.old.docs) (lives self.old.live))
            (state self.old)) }
        ensures fits { OnOk result (Fits self.new.live (docs_of self.new.docs)) }
        ensures docs { self.new.docs ≡ self.old.docs }
        ensures index_kept { self.new.index ≡ self.old.index }
        ensures spent { self.new.spent ≡ self.old.spent }
        ensures quiet { IsUntouched self.old.live (edits changes.now) → steps.new ≡ steps.old }
    {
        let store = Indexed::of(&self.docs, &self.index);
        let answers = self.live.after_commit(&store, changes, steps)?;
        write_answers(self.alloc, answers.as_slice(), line, out)?;
        tally(events, count(answers.len() as u64)?)
    }

    // A copy of the id, and room for it among those of accepted transactions.
    fn room_for(&mut self, tx: &Txt) -> Result<String, NoMemory>
        ensures copy { IfOk result (λ id. string_bytes id ≡ tx.now) }
        ensures room { OnOk result (1 ≤ spare self.new.used) }
        ensures same { state self.new ≡ state self.old }
        ensures live { self.new.live ≡ self.old.live }
        ensures usable { IsUsable self.old → IsUsable self.new }
    {
        let id = String::from_str(self.alloc, tx.as_str())?;
        self.used.reserve(1)?;
        Ok(id)
    }

    // The id is that of an accepted transaction, for which there is room.
    fn note(&mut self, id: String)
        requires { 1 ≤ spare self.old.used }
        ensures state { state self.new ≡ with_used (string_bytes id) (state self.old) }
        ensures docs { self.new.docs ≡ self.old.docs }
        ensures index { self.new.index ≡ self.old.index }
        ensures live { self.new.live ≡ self.old.live }
        ensures spent { self.new.spent ≡ self.old.spent }
    {
        match self.used.insert(id) {
            Ok(_new) => {}
            Err(_full) => unreachable!(),
        }
    }
}

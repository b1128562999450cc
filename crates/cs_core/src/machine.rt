//! The machine: what the lines so far have left, and its step.
ghost use Rattle.std.specs.Prelude.{◌≡◌, ◌≤◌, [], IfOk, IfErr, OnOk, OnErr, IsOk, length, true, false};
ghost use Rattle.cs_io.specs.Lines.{longest_line};
ghost use Rattle.cs_value.specs.View.{tree};
ghost use Rattle.cs_json.specs.Reading.{outcome};
ghost use Rattle.cs_value.specs.Tree.{widest};
ghost use Rattle.cs_wire.specs.View.{request};
ghost use Rattle.cs_wire.specs.Within.{IsWithin};
ghost use Rattle.cs_docs.specs.Store.{docs as docs_of};
ghost use Rattle.cs_wire.specs.Blank.{is_blank_line};
ghost use Rattle.cs_machine.specs.Machine.{deepest_line};
ghost use Rattle.cs_gen.specs.Tally.{IsTally};
ghost use Rattle.cs_core.specs.Core.{state, IsSound, IsUsable};
ghost use Rattle.cs_core.specs.Does.{Does, Leaves, LeavesAfter, step_writes, step_state, step_replies};
ghost use Rattle.cs_wire.specs.Rows.{command};
ghost use Rattle.cs_machine.specs.Machine.{by_command, heard, step};
ghost use Rattle.cs_machine.specs.Rows.{row};
ghost use Rattle.cs_machine.specs.State.{begun};
ghost use Rattle.cs_core.specs.Visits.{CostsAtMost, VisitsFew, is_simple_line, is_simple_command, is_simple_request, line_cost, command_cost, request_cost, read_command};

use cs_docs::Docs;
use cs_gen::Tally;
use cs_io::Line;
use cs_json::{JsonFault, ValueReader};
use cs_live::simple_lives_ask_nothing;
use cs_recent::Recent;
use cs_reply::Refusal;
use cs_state::State;
use cs_value::{NoMemory, Steps, Val};
use cs_wire::{BadCommand, Command, commands_are_within, is_blank};
use std::alloc::Global;
use std::hash::RandomState;
use std::sync::ledger::Ledger;

// How many levels of lists and objects a line may nest.
const DEEPEST_LINE: u32 = 64;

// The tally of one reply, by what it says.
pub(crate) const ONE_REPLY: Tally = Tally {
    replies: 1,
    events: 0,
    live: 0,
    refused: 0,
};

pub(crate) const ONE_ANSWER: Tally = Tally {
    replies: 1,
    events: 0,
    live: 1,
    refused: 0,
};

// Most lines are replied to in no more bytes.
const ROOM: usize = 256;

// No replies yet, with room for them where the allocator has it.
fn no_replies(alloc: Global) -> Vec<u8>
    ensures { result.items ≡ [] }
{
    match Vec::with_capacity(alloc, ROOM) {
        Ok(bytes) => bytes,
        Err(_) => Vec::new(alloc),
    }
}

/// Why a step has no replies.
#[derive(Clone, Copy, Debug, Drop, PartialEq, Eq)]
pub enum CoreFault {
    /// The allocator had no memory to give.
    NoMemory,
    /// The machine is spent: at an earlier line there was no memory for the index, or for the
    /// answers of live queries, behind a transaction whose documents were installed.
    Spent,
}

/// The replies to one line.
#[derive(Drop)]
pub struct Replies {
    bytes: Vec<u8>,
    tally: Tally,
}

impl Replies {
    /// The reply lines, each with its newline. A blank line has none.
    pub fn bytes(&self) -> &[u8]
        ensures { result.now ≡ self.now.bytes.items }
    {
        self.bytes.as_slice()
    }

    /// How many replies they are, by their kinds.
    pub fn tally(&self) -> Tally
        ensures { result ≡ self.now.tally }
    {
        self.tally
    }
}

/// The machine: its reader of lines, and the state that the lines so far have left: the documents,
/// the moment, the ids of accepted transactions in the order in which they were, the live queries
/// and the listeners.
///
/// Its index finds the documents that have a key, of the kinds by which queries have asked. No
/// reply depends on the seed of the index. It keeps the queries that were asked last, so that their
/// texts are not read again.
///
/// A machine is spent where a transaction's documents were installed and there was no memory then
/// for their index, or for what its live queries answer. It can't be used on, and every step says
/// so.
#[derive(Drop)]
pub struct Core {
    pub(crate) alloc: Global,
    reader: ValueReader,
    pub(crate) recent: Recent,
    pub(crate) state: State,
}

impl Core {
    /// A machine with these documents, at the first moment, and with nothing else. Which keys share
    /// a code in its index depends on the seed, which no one who chooses documents knows.
    /// `NoMemory` where the allocator has no room for it.
    pub fn new(alloc: Global, seed: RandomState, docs: Docs) -> Result<Core, NoMemory>
        ensures begun { IfOk result (λ core. state core ≡ begun (docs_of docs)) }
        ensures usable { IfOk result (λ core. IsUsable core) }
    {
        Ok(Core {
            alloc,
            reader: ValueReader::new(alloc),
            recent: Recent::new(alloc)?,
            state: State::new(alloc, seed, docs)?,
        })
    }

    /// The documents that the lines so far have left.
    pub fn docs(&self) -> &Docs
        ensures { docs_of result.now ≡ (state self.now).docs }
    {
        &self.state.docs
    }

    /// One step of the machine: the replies to the line, as the plain machine gives them, and its
    /// state afterwards. A blank line has no replies and takes no memory. The line is one that
    /// [`cs_io::Lines`] gives, so it has at most 16,777,216 bytes.
    ///
    /// After [`CoreFault::NoMemory`] the machine is as before; or it is spent, which only the line
    /// of an accepted transaction leads to, and its documents are those after the transaction.
    /// [`CoreFault::Spent`] comes exactly where the machine was spent before; nothing changes then.
    ///
    /// Where each query of the line is refused or simple, and the line's changes touch no record
    /// that a live query keeps, the counter rises by at most the costs of these queries: not at all
    /// over a transaction without a query. Nor does it rise further where each live query is
    /// simple, whatever the line changes.
    pub fn step<L: Ledger>(
        &mut self,
        line: &Line,
        steps: &mut Steps<L>,
    ) -> Result<Replies, CoreFault>
        requires short { length line.now.bytes.items ≤ longest_line }
        requires sound { IsSound self.old }
        ensures replies { IfOk result (λ replies. replies.bytes.items
            ≡ step_writes (state self.old) line.now.number line.now.bytes.items) }
        ensures tally { IfOk result (λ replies. IsTally replies.tally
            (step_replies (state self.old) line.now.number line.now.bytes.items)) }
        ensures state { OnOk result (state self.new ≡ step_state (state self.old) line.now.number
            line.now.bytes.items) }
        ensures unspent { OnOk result ((self.old.state.spent ≡ false)
            × (self.new.state.spent ≡ false)) }
        ensures sound { IsSound self.new }
        ensures leaves { IfErr result (λ fault. LeavesAfter fault self.old self.new
            (step (state self.old) line.now.number line.now.bytes.items)) }
        ensures blank { self.old.state.spent ≡ false → is_blank_line line.now.bytes.items ≡ true
            → IsOk result }
        ensures visits { VisitsFew (is_simple_line line.now.number line.now.bytes.items)
            (line_cost (state self.old) line.now.number line.now.bytes.items) self.old
            (step (state self.old) line.now.number line.now.bytes.items) steps.old steps.new }
        ensures costs { CostsAtMost (is_simple_line line.now.number line.now.bytes.items)
            (line_cost (state self.old) line.now.number line.now.bytes.items) (state self.old)
            steps.old steps.new }
    {
        simple_lives_ask_nothing();
        if self.state.spent {
            return Err(CoreFault::Spent);
        }
        let mut bytes = no_replies(self.alloc);
        match self.reply_to(line, steps, &mut bytes) {
            Ok(tally) => Ok(Replies { bytes, tally }),
            Err(NoMemory) => Err(CoreFault::NoMemory),
        }
    }

    // The replies to the line are appended.
    fn reply_to<L: Ledger>(
        &mut self,
        line: &Line,
        steps: &mut Steps<L>,
        out: &mut Vec<u8>,
    ) -> Result<Tally, NoMemory>
        requires short { length line.now.bytes.items ≤ longest_line }
        requires usable { IsUsable self.old }
        ensures does { IfOk result (λ tally. Does out.old.items out.new.items tally self.new
            line.now.number (step (state self.old) line.now.number line.now.bytes.items)) }
        ensures leaves { OnErr result (Leaves self.old self.new
            (step (state self.old) line.now.number line.now.bytes.items)) }
        ensures blank { is_blank_line line.now.bytes.items ≡ true → IsOk result }
        ensures visits { VisitsFew (is_simple_line line.now.number line.now.bytes.items)
            (line_cost (state self.old) line.now.number line.now.bytes.items) self.old
            (step (state self.old) line.now.number line.now.bytes.items) steps.old steps.new }
    {
        if is_blank(line.bytes.as_slice()) {
            return Ok(Tally::new());
        }
        self.hear(line.number, line.bytes.as_slice(), steps, out)
    }

    // A line that is not blank.
    fn hear<L: Ledger>(
        &mut self,
        number: u32,
        line: &[u8],
        steps: &mut Steps<L>,
        out: &mut Vec<u8>,
    ) -> Result<Tally, NoMemory>
        requires short { length line.now ≤ longest_line }
        requires usable { IsUsable self.old }
        ensures does { IfOk result (λ tally. Does out.old.items out.new.items tally self.new number
            (heard row (state self.old) number (outcome deepest_line line.now))) }
        ensures leaves { OnErr result (Leaves self.old self.new
            (heard row (state self.old) number (outcome deepest_line line.now))) }
        ensures visits { VisitsFew
            (is_simple_command number (read_command (outcome deepest_line line.now)))
            (command_cost (state self.old) number (read_command (outcome deepest_line line.now)))
            self.old (heard row (state self.old) number (outcome deepest_line line.now))
            steps.old steps.new }
    {
        match self.reader.read(line, DEEPEST_LINE) {
            Ok(val) => self.command(val, number, steps, out),
            Err(JsonFault::NotJson) => self.state.refuse(Refusal::NotJson, number, out),
            Err(JsonFault::TooDeep) => self.state.refuse(Refusal::TooDeep, number, out),
            Err(JsonFault::NotWhole) => self.state.refuse(Refusal::NotWhole, number, out),
            Err(JsonFault::NoMemory) => Err(NoMemory),
        }
    }

    // A line that was read.
    fn command<L: Ledger>(
        &mut self,
        val: Val,
        line: u32,
        steps: &mut Steps<L>,
        out: &mut Vec<u8>,
    ) -> Result<Tally, NoMemory>
        requires short { widest (tree val) ≤ longest_line }
        requires usable { IsUsable self.old }
        ensures does { IfOk result (λ tally. Does out.old.items out.new.items tally self.new line
            (by_command row (state self.old) line (command (tree val)))) }
        ensures leaves { OnErr result (Leaves self.old self.new
            (by_command row (state self.old) line (command (tree val)))) }
        ensures visits { VisitsFew (is_simple_command line (command (tree val)))
            (command_cost (state self.old) line (command (tree val))) self.old
            (by_command row (state self.old) line (command (tree val))) steps.old steps.new }
    {
        commands_are_within();
        match Command::read(self.alloc, val) {
            Ok(command) => self.run(command, line, steps, out),
            Err(BadCommand) => self.state.refuse(Refusal::BadCommand, line, out),
        }
    }

    // A command: each row of the table has an arm.
    fn run<L: Ledger>(
        &mut self,
        command: Command,
        line: u32,
        steps: &mut Steps<L>,
        out: &mut Vec<u8>,
    ) -> Result<Tally, NoMemory>
        requires short { IsWithin longest_line (request command) }
        requires usable { IsUsable self.old }
        ensures does { IfOk result (λ tally. Does out.old.items out.new.items tally self.new line
            (row (state self.old) line (request command))) }
        ensures leaves { OnErr result (Leaves self.old self.new
            (row (state self.old) line (request command))) }
        ensures visits { VisitsFew (is_simple_request line (request command))
            (request_cost (state self.old) line (request command)) self.old
            (row (state self.old) line (request command)) steps.old steps.new }
    {
        match command {
            Command::Mutate { body } => self.state.mutate(body, line, steps, out),
            Command::Query { text, params } => {
                self.query(text.as_str(), &params, line, steps, out)
            }
            Command::Live { name, text, params } => {
                self.live(name, text.as_str(), params, line, steps, out)
            }
            Command::Listen {
                name,
                text,
                params,
                include_result,
                include_previous,
            } => self.listen(
                name,
                text.as_str(),
                params,
                include_result,
                include_previous,
                line,
                out,
            ),
            Command::Stop { name } => self.stop(name.as_str(), line, out),
            Command::At { moment } => self.at(moment, line, out),
        }
    }
}

//! The row of `query`: the value of a query over the documents as they are.
ghost use Rattle.std.specs.Prelude.{◌≡◌, ◌<◌, ◌≤◌, ◌+◌, ◌^◌, IfOk, OnOk, OnErr, length, true};
ghost use Rattle.cs_value.specs.View.{fields};
ghost use Rattle.cs_syntax.specs.Queries.{expression_of};
ghost use Rattle.cs_parts.specs.Parts.{got};
ghost use Rattle.cs_meaning.specs.Hits.{cost};
ghost use Rattle.cs_meaning.specs.Values.{query_value};
ghost use Rattle.cs_parse.specs.Verdict.{verdict};
ghost use Rattle.cs_plan.specs.Simple.{is_simple};
ghost use Rattle.cs_txn.specs.Visits.{is_simple_reading, reading_cost};
ghost use Rattle.cs_docs.specs.Store.{docs as docs_of};
ghost use Rattle.cs_reply.specs.Reply.{reply_tree, found as found_reply};
ghost use Rattle.cs_reply.specs.View.{Appended};
ghost use Rattle.cs_core.specs.Core.{state, IsUsable};
ghost use Rattle.cs_state.specs.State.{IsFitting};
ghost use Rattle.cs_core.specs.Does.{Does, IsKept};
ghost use Rattle.cs_machine.specs.Rows.{row_query};

use crate::machine::{Core, ONE_REPLY};
use cs_eval::{Got, eval};
use cs_gen::Tally;
use cs_json::Node;
use cs_parse::parse;
use cs_refusal::no_query;
use cs_reply::Reply;
use cs_state::State;
use cs_syntax::Query;
use cs_value::{Fields, NoMemory, Steps};
use cs_view::Record;
use std::alloc::Global;
use std::sync::ledger::Ledger;

// What a query found, written from its borrowed parts.
fn write_found(alloc: Global, found: Got<'_>, line: u32, out: &mut Vec<u8>) -> Result<(), NoMemory>
    ensures { OnOk result (Appended out.old.items out.new.items (reply_tree line
        (found_reply (got found.entry)))) }
{
    match found {
        Got::Part(val) => Reply::Found(Node::Value(val)).write(alloc, line, out),
        Got::Parts(vals) => Reply::Found(Node::Values(vals)).write(alloc, line, out),
        Got::Whole(val) => Reply::Found(Node::Value(&val)).write(alloc, line, out),
    }
}

// The reply with the value of a query.
fn find<L: Ledger>(
    alloc: Global,
    state: &State,
    query: &Query,
    params: &Fields,
    line: u32,
    steps: &mut Steps<L>,
    out: &mut Vec<u8>,
) -> Result<(), NoMemory>
    requires fitting { IsFitting state.now }
    ensures appended { OnOk result (Appended out.old.items out.new.items (reply_tree line
        (found_reply (query_value (docs_of state.now.docs) (fields params.now)
        (expression_of query.now))))) }
    ensures visits { is_simple (expression_of query.now) ≡ true → steps.new ≤ steps.old
        + cost (expression_of query.now) (fields params.now) (docs_of state.now.docs) }
{
    let mut keys = Record::new(alloc);
    let store = state.store();
    let found = eval(alloc, query, params, &store, &mut keys, steps)?;
    write_found(alloc, found, line, out)
}

impl Core {
    // A query: its value, or why its text is none. A text that came lately is not read again.
    pub(crate) fn query<L: Ledger>(
        &mut self,
        text: &str,
        params: &Fields,
        line: u32,
        steps: &mut Steps<L>,
        out: &mut Vec<u8>,
    ) -> Result<Tally, NoMemory>
        requires short { length text.now < 2 ^ 32 }
        requires usable { IsUsable self.old }
        ensures does { IfOk result (λ tally. Does out.old.items out.new.items tally self.new line
            (row_query (state self.old) text.now (fields params.now))) }
        ensures kept { OnErr result (IsKept self.old self.new) }
        ensures visits { is_simple_reading (verdict text.now) ≡ true → steps.new ≤ steps.old
            + reading_cost (state self.old).docs (fields params.now) (verdict text.now) }
    {
        if let Some(query) = self.recent.recall(text) {
            find(self.alloc, &self.state, query, params, line, steps, out)?;
            return Ok(ONE_REPLY);
        }
        self.new_query(text, params, line, steps, out)
    }

    // Makes the index ready for a query that was read. Nothing else changes.
    pub(crate) fn make_ready(&mut self, query: &Query) -> Result<(), NoMemory>
        requires usable { IsUsable self.old }
        ensures state { state self.new ≡ state self.old }
        ensures usable { IsUsable self.new }
        ensures live { self.new.state.live ≡ self.old.state.live }
    {
        self.state.make_ready(query)
    }

    // The same of a text that is not kept.
    fn new_query<L: Ledger>(
        &mut self,
        text: &str,
        params: &Fields,
        line: u32,
        steps: &mut Steps<L>,
        out: &mut Vec<u8>,
    ) -> Result<Tally, NoMemory>
        requires short { length text.now < 2 ^ 32 }
        requires usable { IsUsable self.old }
        ensures does { IfOk result (λ tally. Does out.old.items out.new.items tally self.new line
            (row_query (state self.old) text.now (fields params.now))) }
        ensures kept { OnErr result (IsKept self.old self.new) }
        ensures visits { is_simple_reading (verdict text.now) ≡ true → steps.new ≤ steps.old
            + reading_cost (state self.old).docs (fields params.now) (verdict text.now) }
    {
        match parse(self.alloc, text) {
            Ok(query) => {
                let Ok(()) = self.make_ready(&query) else {
                    drop(query);
                    return Err(NoMemory);
                };
                let Ok(()) = find(self.alloc, &self.state, &query, params, line, steps, out) else {
                    drop(query);
                    return Err(NoMemory);
                };
                self.recent.keep(text, query);
                Ok(ONE_REPLY)
            }
            Err(fault) => match no_query(&fault) {
                Some(why) => self.state.refuse(why, line, out),
                None => Err(NoMemory),
            },
        }
    }
}

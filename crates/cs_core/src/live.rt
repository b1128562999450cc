//! The row of `live`: a query whose answer is told anew where a transaction changes it.
ghost use Rattle.std.specs.Prelude.{◌≡◌, ◌<◌, ◌≤◌, ◌+◌, ◌^◌, IfOk, IfErr, OnOk, OnErr, length, true};
ghost use Rattle.cs_value.specs.View.{fields};
ghost use Rattle.cs_syntax.specs.Queries.{expression_of};
ghost use Rattle.cs_live.specs.Entries.{said};
ghost use Rattle.cs_live.specs.Fits.{HasRoom, IsCause};
ghost use Rattle.cs_live.specs.Lives.{made, say, without_name, worded};
ghost use Rattle.cs_meaning.specs.Hits.{cost};
ghost use Rattle.cs_parse.specs.Verdict.{verdict};
ghost use Rattle.cs_plan.specs.Simple.{is_simple};
ghost use Rattle.cs_txn.specs.Visits.{is_simple_reading, reading_cost};
ghost use Rattle.cs_machine.specs.Rows.{row_live, subscribing, lively};
ghost use Rattle.cs_machine.specs.State.{with_lives};
ghost use Rattle.cs_core.specs.Core.{state, with_one_live, IsUsable};
ghost use Rattle.cs_core.specs.Does.{Does, IsKept};

use crate::machine::{Core, ONE_ANSWER};
use cs_gen::Tally;
use cs_index::Indexed;
use cs_live::{LiveFault, LiveLine, MOST_LIVES};
use cs_parse::parse;
use cs_refusal::no_query;
use cs_reply::Refusal;
use cs_state::write_answer;
use cs_syntax::Query;
use cs_value::{Fields, NoMemory, Steps, Txt};
use std::sync::ledger::Ledger;

impl Core {
    // A live query, where the text is a query.
    pub(crate) fn live<L: Ledger>(
        &mut self,
        name: Txt,
        text: &str,
        params: Fields,
        line: u32,
        steps: &mut Steps<L>,
        out: &mut Vec<u8>,
    ) -> Result<Tally, NoMemory>
        requires short { length text.now < 2 ^ 32 }
        requires usable { IsUsable self.old }
        ensures does { IfOk result (λ tally. Does out.old.items out.new.items tally self.new line
            (row_live (state self.old) name text.now (fields params))) }
        ensures kept { OnErr result (IsKept self.old self.new) }
        ensures visits { is_simple_reading (verdict text.now) ≡ true → steps.new ≤ steps.old
            + reading_cost (state self.old).docs (fields params) (verdict text.now) }
    {
        match parse(self.alloc, text) {
            Ok(query) => {
                let Ok(()) = self.make_ready(&query) else {
                    drop((query, params));
                    return Err(NoMemory);
                };
                self.subscribe(name, query, params, line, steps, out)
            }
            Err(fault) => {
                drop((name, params));
                match no_query(&fault) {
                    Some(why) => self.state.refuse(why, line, out),
                    None => Err(NoMemory),
                }
            }
        }
    }

    // A live query, where no listener has its name.
    fn subscribe<L: Ledger>(
        &mut self,
        name: Txt,
        query: Query,
        params: Fields,
        line: u32,
        steps: &mut Steps<L>,
        out: &mut Vec<u8>,
    ) -> Result<Tally, NoMemory>
        requires usable { IsUsable self.old }
        ensures does { IfOk result (λ tally. Does out.old.items out.new.items tally self.new line
            (subscribing (state self.old) name (length (state self.old).lives)
            (lively (state self.old) (made (state self.old).docs name (expression_of query)
            (fields params))))) }
        ensures kept { OnErr result (IsKept self.old self.new) }
        ensures visits { is_simple (expression_of query) ≡ true → steps.new ≤ steps.old
            + cost (expression_of query) (fields params) (state self.old).docs }
    {
        if self.state.listeners.has(name.as_str()) {
            let name = name.as_str();
            let told = self.state.refuse(Refusal::NameUsed { name }, line, out);
            drop((query, params));
            return told;
        }
        let Ok(named) = name.copy(self.alloc) else {
            drop((query, params));
            return Err(NoMemory);
        };
        match self.add_live(name, query, params, steps) {
            Ok(first) => match write_answer(self.alloc, &first, line, out) {
                Ok(()) => Ok(ONE_ANSWER),
                Err(NoMemory) => {
                    self.forget_live(named.as_str());
                    Err(NoMemory)
                }
            },
            Err(LiveFault::NameUsed) => {
                let name = named.as_str();
                self.state.refuse(Refusal::NameUsed { name }, line, out)
            }
            Err(LiveFault::Full) => {
                let limit = MOST_LIVES;
                self.state
                    .refuse(Refusal::FullSubscriptions { limit }, line, out)
            }
            Err(LiveFault::NoMemory) => Err(NoMemory),
        }
    }

    // One live query more, the last, over the documents as they are.
    fn add_live<L: Ledger>(
        &mut self,
        name: Txt,
        query: Query,
        params: Fields,
        steps: &mut Steps<L>,
    ) -> Result<LiveLine, LiveFault>
        requires usable { IsUsable self.old }
        ensures room { OnOk result (HasRoom name (state self.old).lives) }
        ensures state { OnOk result (state self.new ≡ with_one_live
            (made (state self.old).docs name (expression_of query) (fields params))
            (state self.old)) }
        ensures line { IfOk result (λ line. said line ≡ worded (say
            (made (state self.old).docs name (expression_of query) (fields params)))) }
        ensures cause { IfErr result (λ fault. IsCause fault name (state self.old).lives) }
        ensures kept { OnErr result (state self.new ≡ state self.old) }
        ensures usable { IsUsable self.new }
        ensures visits { is_simple (expression_of query) ≡ true → steps.new ≤ steps.old
            + cost (expression_of query) (fields params) (state self.old).docs }
    {
        let store = Indexed::of(&self.state.docs, &self.state.index);
        let line = self.state.live.add(name, query, params, &store, steps)?;
        Ok(line)
    }

    // The live query of the name stands no more, where one does.
    pub(crate) fn forget_live(&mut self, name: &str)
        requires usable { IsUsable self.old }
        ensures state { state self.new ≡ with_lives (without_name name.now (state self.old).lives)
            (state self.old) }
        ensures usable { IsUsable self.new }
    {
        match self.state.live.remove(name) {
            Ok(()) => {}
            Err(_none) => {}
        }
    }
}

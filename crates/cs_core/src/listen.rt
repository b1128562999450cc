//! The rows of `listen` and `stop`: who hears of the changes of transactions.
ghost use Rattle.std.specs.Prelude.{◌≡◌, ◌<◌, ◌^◌, IfOk, OnErr, Bool, Some, false, length};
ghost use Rattle.cs_value.specs.Tree.{Pairs};
ghost use Rattle.cs_value.specs.View.{fields};
ghost use Rattle.cs_syntax.specs.Expression.{Expression};
ghost use Rattle.cs_syntax.specs.Queries.{expression_of};
ghost use Rattle.cs_plain.specs.Plain.{listened_filter};
ghost use Rattle.cs_plain.specs.Predicates.{filter as filter_of};
ghost use Rattle.cs_listen.specs.Listeners.{NotTaken, listeners};
ghost use Rattle.cs_live.specs.Lives.{is_named};
ghost use Rattle.cs_machine.specs.Rows.{row_listen, row_stop, by_filter, without_named};
ghost use Rattle.cs_core.specs.Core.{state, IsUsable};
ghost use Rattle.cs_core.specs.Does.{Does, IsKept};

use crate::machine::{Core, ONE_REPLY};
use cs_gen::Tally;
use cs_listen::{ListenFault, MOST_LISTENERS};
use cs_parse::parse;
use cs_plain::Plain;
use cs_refusal::no_query;
use cs_reply::{Refusal, Reply};
use cs_syntax::Query;
use cs_value::{Fields, NoMemory, Txt};

impl Core {
    // A listener, where the text is a query that can be listened to.
    pub(crate) fn listen(
        &mut self,
        name: Txt,
        text: &str,
        params: Fields,
        include_result: bool,
        include_previous: bool,
        line: u32,
        out: &mut Vec<u8>,
    ) -> Result<Tally, NoMemory>
        requires short { length text.now < 2 ^ 32 }
        requires usable { IsUsable self.old }
        ensures does { IfOk result (λ tally. Does out.old.items out.new.items tally self.new line
            (row_listen (state self.old) name text.now (fields params) include_result
            include_previous)) }
        ensures kept { OnErr result (IsKept self.old self.new) }
    {
        match parse(self.alloc, text) {
            Ok(query) => self.hear_query(
                name,
                query,
                params,
                include_result,
                include_previous,
                line,
                out,
            ),
            Err(fault) => {
                drop((name, params));
                match no_query(&fault) {
                    Some(why) => self.state.refuse(why, line, out),
                    None => Err(NoMemory),
                }
            }
        }
    }

    // A listener with a query, where a listener may have it and no live query has the name.
    fn hear_query(
        &mut self,
        name: Txt,
        query: Query,
        params: Fields,
        include_result: bool,
        include_previous: bool,
        line: u32,
        out: &mut Vec<u8>,
    ) -> Result<Tally, NoMemory>
        requires usable { IsUsable self.old }
        ensures does { IfOk result (λ tally. Does out.old.items out.new.items tally self.new line
            (by_filter (state self.old) name (fields params) include_result include_previous
            (listened_filter (expression_of query)))) }
        ensures kept { OnErr result (IsKept self.old self.new) }
    {
        let predicate = match Plain::from_query(query) {
            Ok(predicate) => predicate,
            Err(query) => {
                drop((query, params));
                return self.state.refuse(Refusal::NotListenable, line, out);
            }
        };
        if self.state.live.has(name.as_str()) {
            let name = name.as_str();
            let told = self.state.refuse(Refusal::NameUsed { name }, line, out);
            drop((predicate, params));
            return told;
        }
        self.welcome(
            name,
            predicate,
            params,
            include_result,
            include_previous,
            line,
            out,
        )
    }

    // A listener whose name no live query has. Its reply is written first, since nothing that needs
    // memory may come behind the change, and taken back where it is refused.
    fn welcome(
        &mut self,
        name: Txt,
        predicate: Plain,
        params: Fields,
        include_result: bool,
        include_previous: bool,
        line: u32,
        out: &mut Vec<u8>,
    ) -> Result<Tally, NoMemory>
        requires usable { IsUsable self.old }
        requires free { is_named name (state self.old).lives ≡ false }
        ensures does { IfOk result (λ tally. Does out.old.items out.new.items tally self.new line
            (by_filter (state self.old) name (fields params) include_result include_previous
            (Some (filter_of predicate)))) }
        ensures kept { OnErr result (IsKept self.old self.new) }
    {
        let Ok(named) = name.copy(self.alloc) else {
            drop((predicate, params));
            return Err(NoMemory);
        };
        let begun = out.len();
        let Ok(()) = Reply::Welcome(named.as_str()).write(self.alloc, line, out) else {
            drop((predicate, params));
            return Err(NoMemory);
        };
        match self
            .state
            .listeners
            .add_predicate(name, predicate, params, include_result, include_previous)
        {
            Ok(()) => Ok(ONE_REPLY),
            Err(fault) => {
                out.truncate(begun);
                self.turn_away(fault, named.as_str(), line, out)
            }
        }
    }

    // Why no listener is made.
    fn turn_away(
        &self,
        fault: ListenFault,
        name: &str,
        line: u32,
        out: &mut Vec<u8>,
    ) -> Result<Tally, NoMemory>
        requires usable { IsUsable self.now }
        requires fault { NotTaken name.now (listeners self.now.state.listeners) fault }
        requires free { is_named name.now (state self.now).lives ≡ false }
        ensures { (f : Expression) (ps : Pairs) (a b : Bool)
            → IfOk result (λ tally. Does out.old.items out.new.items tally self.now line
            (by_filter (state self.now) name.now ps a b (Some f))) }
    {
        match fault {
            ListenFault::NotListenable => unreachable!(),
            ListenFault::NameUsed => self.state.refuse(Refusal::NameUsed { name }, line, out),
            ListenFault::Full => {
                let limit = MOST_LISTENERS;
                self.state
                    .refuse(Refusal::FullSubscriptions { limit }, line, out)
            }
            ListenFault::NoMemory => Err(NoMemory),
        }
    }

    // Stops the live query or the listener of the name.
    pub(crate) fn stop(
        &mut self,
        name: &str,
        line: u32,
        out: &mut Vec<u8>,
    ) -> Result<Tally, NoMemory>
        requires usable { IsUsable self.old }
        ensures does { IfOk result (λ tally. Does out.old.items out.new.items tally self.new line
            (row_stop (state self.old) name.now)) }
        ensures kept { OnErr result (IsKept self.old self.new) }
    {
        if !self.state.live.has(name) && !self.state.listeners.has(name) {
            return self.state.refuse(Refusal::NoName { name }, line, out);
        }
        Reply::Stopped(name).write(self.alloc, line, out)?;
        self.forget(name);
        Ok(ONE_REPLY)
    }

    // Neither a live query nor a listener has the name any more.
    fn forget(&mut self, name: &str)
        requires usable { IsUsable self.old }
        ensures state { state self.new ≡ without_named name.now (state self.old) }
        ensures usable { IsUsable self.new }
    {
        self.forget_live(name);
        match self.state.listeners.remove(name) {
            Ok(()) => {}
            Err(_none) => {}
        }
    }
}

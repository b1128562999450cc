//! The row of `at`: the moment of the transactions that follow.
ghost use Rattle.std.specs.Prelude.{IfOk, OnErr};
ghost use Rattle.cs_core.specs.Core.{state, IsUsable};
ghost use Rattle.cs_core.specs.Does.{Does, IsKept};
ghost use Rattle.cs_machine.specs.Rows.{row_at};

use crate::machine::{Core, ONE_REPLY};
use cs_gen::Tally;
use cs_reply::{Refusal, Reply};
use cs_value::{NoMemory, Txt};
use cs_wire::is_moment;

impl Core {
    // Sets the moment, where the text is one.
    pub(crate) fn at(
        &mut self,
        moment: Txt,
        line: u32,
        out: &mut Vec<u8>,
    ) -> Result<Tally, NoMemory>
        requires usable { IsUsable self.old }
        ensures does { IfOk result (λ tally. Does out.old.items out.new.items tally self.new line
            (row_at (state self.old) moment)) }
        ensures kept { OnErr result (IsKept self.old self.new) }
    {
        if !is_moment(moment.as_str()) {
            return self.state.refuse(Refusal::BadMoment, line, out);
        }
        Reply::Set(moment.as_str()).write(self.alloc, line, out)?;
        self.state.moment = moment;
        Ok(ONE_REPLY)
    }
}

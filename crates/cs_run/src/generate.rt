//! Generated scripts, which are played line by line and summed up: no more than a line is held.
ghost use Rattle.std.specs.Prelude.{◌≡◌, ◌≤◌, ◌++◌, List, OnOk, IfOk, length};
ghost use Rattle.cs_args.specs.Words.{most_generated};
ghost use Rattle.cs_core.specs.Core.{state, IsSound};
ghost use Rattle.cs_core.specs.Does.{step_state, step_replies};
ghost use Rattle.cs_gen.specs.Tally.{IsTally};
ghost use Rattle.cs_io.specs.Lines.{longest_line};
ghost use Rattle.cs_reply.specs.Reply.{Reply};
ghost use Rattle.cs_run.specs.Headline.{summary};

use cs_core::Core;
use cs_docs::Docs;
use cs_gen::{Tally, gen_line};
use cs_io::Line;
use cs_value::{NoMemory, Steps};
use std::alloc::Global;
use std::hash::RandomState;
use std::mem;
use std::sync::ledger::Ledger;

// Runs one line, and counts its replies with those before.
fn count_line<L: Ledger>(
    core: &mut Core,
    line: &Line,
    before: Tally,
    steps: &mut Steps<L>,
) -> Result<Tally, NoMemory>
    requires short { length line.now.bytes.items ≤ longest_line }
    requires sound { IsSound core.old }
    ensures tally { IfOk result (λ tally. (replies : List Reply) → IsTally before replies
        → IsTally tally (replies ++ step_replies (state core.old) line.now.number
        line.now.bytes.items)) }
    ensures state { OnOk result (state core.new ≡ step_state (state core.old) line.now.number
        line.now.bytes.items) }
    ensures sound { IsSound core.new }
{
    let Ok(replies) = core.step(line, steps) else {
        return Err(NoMemory);
    };
    before.plus(replies.tally())
}

/// The summary of the generated script of so many documents, played from no documents: one line.
pub(crate) fn summarize<L: Ledger>(
    alloc: Global,
    seed: RandomState,
    documents: u32,
    steps: &mut Steps<L>,
) -> Result<Vec<u8>, NoMemory>
    requires few { documents ≤ most_generated }
    ensures { IfOk result (λ line. line.items ≡ summary documents) }
{
    let mut core = Core::new(alloc, seed, Docs::new(alloc))?;
    let mut tally = Tally::new();
    let mut number = 0;
    'lines: while let Some(bytes) = gen_line(alloc, documents, number + 1)? {
        number += 1;
        tally = count_line(&mut core, &Line { number, bytes }, tally, steps)?;
    }
    let mut line = Vec::new(alloc);
    tally.write_summary(alloc, core.docs().len(), number, &mut line)?;
    // A run is the last thing that the process does, so the documents are not taken apart one by
    // one.
    mem::forget(core);
    Ok(line)
}

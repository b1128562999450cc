//! The scalars of a list that were seen so far, by which an element is known to be equal to an
//! earlier one without a comparison with each.
ghost use Rattle.std.specs.Prelude.{◌≡◌, ◌||◌, not, false, IsTrue, IfOk};
ghost use Rattle.cs_value.specs.Tree.{Tree};
ghost use Rattle.cs_value.specs.View.{tree};
ghost use Rattle.cs_ops.specs.Equal.{equal};
ghost use Rattle.cs_func.specs.Seen.{has_seen};

use cs_value::{NoMemory, Val};
use std::alloc::Global;
use std::collections::BTreeSet;

#[derive(Drop)]
pub(crate) struct Seen<'v> {
    null: bool,
    yes: bool,
    no: bool,
    numbers: BTreeSet<i64>,
    texts: BTreeSet<&'v str>,
}

impl<'v> Seen<'v> {
    pub(crate) fn new(alloc: Global) -> Seen<'v>
        ensures { (t : Tree) → has_seen result t ≡ false }
    {
        Seen {
            null: false,
            yes: false,
            no: false,
            numbers: BTreeSet::new(alloc),
            texts: BTreeSet::new(alloc),
        }
    }

    // Adds a value, and says whether it is equal to none that was added before.
    pub(crate) fn add(&mut self, val: &'v Val) -> Result<bool, NoMemory>
        ensures new { IfOk result (λ new. new ≡ not (has_seen self.old (tree val.now))) }
        ensures added { IfOk result
            (λ _. (t : Tree)
            → has_seen self.new t ≡ (equal t (tree val.now) || has_seen self.old t)) }
    {
        match val {
            Val::Null => Ok(mark(&mut self.null)),
            Val::Bool(true) => Ok(mark(&mut self.yes)),
            Val::Bool(false) => Ok(mark(&mut self.no)),
            Val::Num(n) => Ok(self.numbers.insert(*n)?),
            Val::Text(text) => Ok(self.texts.insert(text.as_str())?),
            Val::List(_) | Val::Obj(_) => Ok(true),
        }
    }
}

// Sets a mark, and says whether it was not set before.
fn mark(set: &mut bool) -> bool
    ensures was { result ≡ not set.old }
    ensures is { IsTrue set.new }
{
    !std::mem::replace(set, true)
}

//! Pairs of an object that is made.
ghost use Rattle.std.specs.Prelude.{◌≡◌, OnOk};
ghost use Rattle.cs_value.specs.View.{tree, fields};
ghost use Rattle.cs_syntax.specs.Brackets.{key_of};
ghost use Rattle.cs_syntax.specs.View.{expression};
ghost use Rattle.cs_meaning.specs.Operators.{put_under, spread_into};
ghost use Rattle.cs_ops.specs.Arithmetic.{merged};

use cs_syntax::Expr;
use cs_value::{Fields, NoMemory, Txt, Val};
use std::alloc::Global;

/// The value under the key that the expression has by itself; nothing where it has none.
pub fn put_bare(alloc: Global, pairs: &mut Fields, expr: &Expr, val: Val) -> Result<(), NoMemory>
    ensures { OnOk result (fields pairs.new
        ≡ put_under (key_of (expression expr.now)) (tree val) (fields pairs.old)) }
{
    match expr.key() {
        Some(key) => pairs.set(Txt::copy_of(alloc, key)?, val),
        None => Ok(()),
    }
}

/// Each pair of an object, and nothing of anything else.
#[tactic(auto, using(crate::proofs::Sets::pairs))]
pub fn put_all(alloc: Global, pairs: &mut Fields, val: &Val) -> Result<(), NoMemory>
    ensures { OnOk result (fields pairs.new ≡ spread_into (fields pairs.old) (tree val.now)) }
{
    match val {
        Val::Obj(more) => put_each(alloc, pairs, more),
        _ => Ok(()),
    }
}

// Each pair copied in, a later one in the place of an earlier one.
fn put_each(alloc: Global, pairs: &mut Fields, more: &Fields) -> Result<(), NoMemory>
    ensures { OnOk result (fields pairs.new ≡ merged (fields pairs.old) (fields more.now)) }
{
    for (key, member) in more.pairs.iter() {
        let name = Txt::copy_of(alloc, key)?;
        pairs.set(name, member.copy(alloc)?)?;
    }
    Ok(())
}

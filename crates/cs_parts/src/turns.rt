//! Small questions and makings of an evaluation.
ghost use Rattle.std.specs.Prelude.{◌≡◌, [], IfOk, map, unwrap_or};
ghost use Rattle.cs_value.specs.Words.{as_list};
ghost use Rattle.cs_syntax.specs.View.{expression};
ghost use Rattle.cs_meaning.specs.Looked.{is_everything};
ghost use Rattle.cs_meaning.specs.Operators.{signed};
ghost use Rattle.cs_parts.specs.Turns.{turn, is_end, is_over_way};
ghost use Rattle.cs_parts.specs.Parts.{got, item};

use crate::literals::signed;
use crate::{Entrance, Got, Item, Way, elements};
use cs_syntax::{Expr, PreSign};
use cs_value::NoMemory;
use std::alloc::Global;

/// How what a step gives enters the rest behind it.
pub fn turn(way: Way, entrance: Entrance) -> Entrance
    ensures { result ≡ turn way entrance }
{
    match way {
        Way::After => entrance,
        _ => Entrance::Whole,
    }
}

/// The rest ends here.
pub fn ends(way: Way) -> bool
    ensures { result ≡ is_end way }
{
    match way {
        Way::Ends => true,
        _ => false,
    }
}

/// The step is mapped.
pub fn is_over(way: Way) -> bool
    ensures { result ≡ is_over_way way }
{
    match way {
        Way::Over => true,
        _ => false,
    }
}

/// The expression is `*`.
#[tactic(auto, unfolding(cs_syntax::specs::View::expression))]
pub fn is_all(expr: &Expr) -> bool
    ensures { result ≡ is_everything (expression expr.now) }
{
    match expr {
        Expr::All => true,
        _ => false,
    }
}

/// The elements of a list, none where the value is no list.
pub fn items_or_none<'s>(alloc: Global, whole: Got<'s>) -> Result<Vec<Item<'s>>, NoMemory>
    ensures { IfOk result (λ v. map item v.items ≡ unwrap_or (as_list (got whole.entry)) []) }
{
    match elements(alloc, whole)? {
        Some(items) => Ok(items),
        None => Ok(Vec::new(alloc)),
    }
}

/// Signs in front of a value.
pub fn prefixed<'s>(alloc: Global, signs: &[PreSign], whole: Got<'_>) -> Result<Got<'s>, NoMemory>
    ensures { IfOk result (λ g. got g ≡ signed signs.now (got whole.entry)) }
{
    Ok(Got::Whole(signed(signs, whole.into_val(alloc)?)))
}

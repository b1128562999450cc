//! What of a node is evaluated, and what becomes of its value.
ghost use Rattle.std.specs.Prelude.{◌≡◌, ◌++◌, OnOk, map, option_map};
ghost use Rattle.cs_value.specs.View.{fields};
ghost use Rattle.cs_syntax.specs.View.{expression, element_of, entry_of};
ghost use Rattle.cs_parts.specs.Parts.{got, item};
ghost use Rattle.cs_levels.specs.Nodes.{element_expression, element_adds, entry_condition, entry_expression, entry_put};

use crate::found::{push_got, put_keyed, put_named, put_spread};
use cs_parts::{Got, Item, append, items_or_none};
use cs_syntax::{Elem, Entry, Expr};
use cs_value::{Fields, NoMemory};
use std::alloc::Global;

/// The expression of an element of an array literal.
#[tactic(auto, unfolding(cs_syntax::proofs::Open::of_parts))]
pub fn element_expr(elem: &Elem) -> &Expr
    ensures { expression result.now ≡ element_expression (element_of elem.now) }
{
    match elem {
        Elem::One(expr) | Elem::Spread(expr) => expr,
    }
}

/// What the value of an element of an array literal adds to the elements before it.
#[tactic(auto, unfolding(cs_syntax::proofs::Open::of_parts))]
pub fn put_element<'s>(
    alloc: Global,
    items: &mut Vec<Item<'s>>,
    elem: &Elem,
    value: Got<'s>,
) -> Result<(), NoMemory>
    ensures { OnOk result (map item items.new.items
        ≡ map item items.old.items ++ element_adds (element_of elem.now) (got value.entry)) }
{
    match elem {
        Elem::One(_) => push_got(alloc, items, value),
        Elem::Spread(_) => append(items, items_or_none(alloc, value)?),
    }
}

/// The condition of an entry of an object, where it has one.
#[tactic(auto, unfolding(cs_syntax::proofs::Open::of_parts))]
pub fn condition_of(entry: &Entry) -> Option<&Expr>
    ensures { option_map (λ e. expression e.now) result ≡ entry_condition (entry_of entry.now) }
{
    match entry {
        Entry::When(condition, _) => Some(condition),
        _ => None,
    }
}

/// The expression of an entry of an object.
#[tactic(auto, unfolding(cs_syntax::proofs::Open::of_parts))]
pub fn entry_expr(entry: &Entry) -> &Expr
    ensures { expression result.now ≡ entry_expression (entry_of entry.now) }
{
    match entry {
        Entry::Keyed(_, expr) => expr,
        Entry::Bare(expr) => expr,
        Entry::When(_, expr) => expr,
        Entry::Spread(expr) => expr,
    }
}

/// The value of an entry put into the pairs of an object.
#[tactic(auto, unfolding(cs_syntax::proofs::Open::of_parts))]
pub fn put_entry(
    alloc: Global,
    pairs: &mut Fields,
    entry: &Entry,
    value: Got<'_>,
) -> Result<(), NoMemory>
    ensures { OnOk result (fields pairs.new
        ≡ entry_put (entry_of entry.now) (got value.entry) (fields pairs.old)) }
{
    match entry {
        Entry::Keyed(name, _) => put_named(alloc, pairs, name, value),
        Entry::Bare(expr) => put_keyed(alloc, pairs, expr, value),
        Entry::When(_, _) => put_spread(alloc, pairs, value),
        Entry::Spread(_) => put_spread(alloc, pairs, value),
    }
}

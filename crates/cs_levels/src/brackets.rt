//! What a bracket finds before its condition is asked, and the elements that an order takes.
ghost use Rattle.std.specs.Prelude.{◌≡◌, List, Bool, None, IfOk, map, option_map, if◌then◌else◌};
ghost use Rattle.cs_value.specs.Words.{as_list};
ghost use Rattle.cs_value.specs.Tree.{Tree};
ghost use Rattle.cs_syntax.specs.View.{expression};
ghost use Rattle.cs_view.specs.declared.key.Key.{Key};
ghost use Rattle.cs_plan.specs.Steps.{bracketed, is_order_name};
ghost use Rattle.cs_meaning.specs.Values.{in_bracket as in_bracket_value};
ghost use Rattle.cs_meaning.specs.Looked.{bracket_looked};
ghost use Rattle.cs_parts.specs.Parts.{got, item};
ghost use Rattle.cs_levels.specs.Nodes.{given, given_looked};

use cs_parts::{Bracket, Got, Item, bracket_of, element, elements, field};
use cs_syntax::Expr;
use cs_value::{NoMemory, Val};
use std::alloc::Global;

/// What a bracket finds before its condition is asked.
#[derive(Drop)]
pub enum InBracket<'s> {
    /// What it gives: an element, an attribute, or null of anything but a list.
    Given(Got<'s>),
    /// The elements at which its condition is tried.
    Tried(Vec<Item<'s>>),
}

/// What the bracket around this expression finds in a value before its condition is asked.
pub fn in_bracket<'s>(
    alloc: Global,
    inner: &Expr,
    value: Got<'s>,
) -> Result<InBracket<'s>, NoMemory>
    ensures value { IfOk result (λ b. (passes : Tree → Bool) → given passes b
        ≡ in_bracket_value (bracketed (expression inner.now)) passes (got value.entry)) }
    ensures keys { IfOk result (λ b. (looked : Tree → List Key) → given_looked looked b
        ≡ bracket_looked (bracketed (expression inner.now)) looked (got value.entry)) }
{
    match bracket_of(inner) {
        Bracket::Position(place) => Ok(InBracket::Given(element(value, place))),
        Bracket::Named(name) => Ok(InBracket::Given(field(value, name))),
        Bracket::Condition => match elements(alloc, value)? {
            Some(items) => Ok(InBracket::Tried(items)),
            None => Ok(InBracket::Given(Got::Whole(Val::Null))),
        },
    }
}

/// The elements that a piped call of this name puts in order: those of a list where the name is
/// `order`.
pub fn ordered_elements<'s>(
    alloc: Global,
    name: &str,
    value: Got<'s>,
) -> Result<Option<Vec<Item<'s>>>, NoMemory>
    ensures { IfOk result (λ o. option_map (λ v. map item v.items) o
        ≡ (if is_order_name name.now then as_list (got value.entry) else None)) }
{
    if name == "order" {
        elements(alloc, value)
    } else {
        Ok(None)
    }
}

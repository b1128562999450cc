//! The value of an expression and what finding it looks up: literals, operators, lists and objects.
ghost use Rattle.std.specs.Prelude.{◌≡◌, ◌++◌, [], IfOk, OnOk, map, if◌then◌else◌};
ghost use Rattle.cs_value.specs.Words.{list_of};
ghost use Rattle.cs_value.specs.Tree.{object, no_pairs};
ghost use Rattle.cs_value.specs.View.{fields};
ghost use Rattle.cs_syntax.specs.Expression.{operands_of, entries_of, elements_of, between as between_node, within as within_node};
ghost use Rattle.cs_syntax.specs.View.{expression, operands, entry_of, element_of};
ghost use Rattle.cs_view.specs.Scopes.{scope_of};
ghost use Rattle.cs_meaning.specs.Operators.{operated, decides, operator_of, is_true as is_true_tree};
ghost use Rattle.cs_meaning.specs.Values.{value as value_of, run_value, elements_values, entry_pairs, entries_pairs};
ghost use Rattle.cs_meaning.specs.Looked.{looked, run_looked, elements_looked, entry_looked, entries_looked};
ghost use Rattle.cs_parts.specs.Parts.{got, item};

use crate::calls::{arguments, call};
use crate::chains::chain;
use crate::setting::Setting;
use cs_direct::{direct, direct_part};
use cs_levels::{
    condition_of, element_expr, entry_expr, is_among, lies_between, matches_path, operated_got,
    put_element, put_entry,
};
use cs_parts::{
    Got, Item, Source, all, at_level, attribute, decides, gather, is_true, param, path_arguments,
    prefixed, settle,
};
use cs_plan::literal;
use cs_syntax::{BinSign, Elem, Entry, Expr};
use cs_value::{Fields, NoMemory, Val};
use cs_view::{Record, Scope};

/// The value of an expression in a scope; the record takes the keys that it looks up.
#[cycle(eval)]
#[tactic(auto, using(crate::proofs::Sets::nodes), unfolding(cs_syntax::specs::View::expression))]
pub fn eval<'s, S: Source<C>, C>(
    setting: &Setting<'s, S>,
    expr: &'s Expr,
    frame: &Scope<'s>,
    keys: &mut Record,
    count: &mut C,
) -> Result<Got<'s>, NoMemory>
    ensures value { IfOk result (λ g. got g ≡ value_of (S.docs setting.now.source.now) (fields
        setting.now.params.now) (expression expr.now) (scope_of frame.now)) }
    ensures keys { OnOk result (keys.new ≡ keys.old ++ looked (S.docs setting.now.source.now)
        (fields setting.now.params.now) (expression expr.now) (scope_of frame.now)) }
{
    match expr {
        Expr::Null => Ok(Got::Whole(Val::Null)),
        Expr::Bool(b) => Ok(Got::Whole(Val::Bool(*b))),
        Expr::Number(number) => Ok(Got::Whole(literal(number.as_str()))),
        Expr::Text(text) => Ok(Got::Whole(Val::Text(text.copy(setting.alloc)?))),
        Expr::Param(name) => Ok(param(setting.params, name.as_str())),
        Expr::Word(name) => Ok(attribute(at_level(frame, 0), name)),
        Expr::This => Ok(at_level(frame, 0)),
        Expr::All => all(setting.alloc, setting.source, keys, count),
        Expr::Up(level) => Ok(at_level(frame, *level)),
        Expr::Round(inner) => eval(setting, inner, frame, keys, count),
        Expr::Call { name, args } => call(setting, name.as_str(), args, frame, keys, count),
        Expr::Array(list) => array(setting, list, frame, keys, count),
        Expr::Object(list) => object(setting, list, frame, keys, count),
        Expr::Chain { base, steps } => chain(setting, base, steps, frame, keys, count),
        Expr::Prefix { signs, operand } => {
            let inner = eval(setting, operand, frame, keys, count)?;
            prefixed(setting.alloc, signs, inner)
        }
        Expr::Run { first, rest } => {
            let left = eval(setting, first, frame, keys, count)?;
            run(setting, rest, frame, left, keys, count)
        }
        Expr::Within { left, right } => within(setting, left, right, frame, keys, count),
        Expr::Between {
            left,
            from,
            to,
            closed,
        } => in_range(setting, left, from, to, *closed, frame, keys, count),
    }
}

// The value of an expression as one element.
#[cycle(eval)]
pub(crate) fn settled<'s, S: Source<C>, C>(
    setting: &Setting<'s, S>,
    expr: &'s Expr,
    frame: &Scope<'s>,
    keys: &mut Record,
    count: &mut C,
) -> Result<Item<'s>, NoMemory>
    ensures value { IfOk result (λ i. item i ≡ value_of (S.docs setting.now.source.now) (fields
        setting.now.params.now) (expression expr.now) (scope_of frame.now)) }
    ensures keys { OnOk result (keys.new ≡ keys.old ++ looked (S.docs setting.now.source.now)
        (fields setting.now.params.now) (expression expr.now) (scope_of frame.now)) }
{
    if let Some(val) = direct_part(expr, frame) {
        return Ok(Item::Lent(val));
    }
    let value = eval(setting, expr, frame, keys, count)?;
    settle(setting.alloc, value)
}

// Whether an expression is true. Most conditions are found directly, which takes no memory.
#[cycle(eval)]
pub(crate) fn is_met<'s, S: Source<C>, C>(
    setting: &Setting<'s, S>,
    expr: &'s Expr,
    frame: &Scope<'s>,
    keys: &mut Record,
    count: &mut C,
) -> Result<bool, NoMemory>
    ensures value { IfOk result (λ b. b ≡ is_true_tree (value_of (S.docs setting.now.source.now)
        (fields setting.now.params.now) (expression expr.now) (scope_of frame.now))) }
    ensures keys { OnOk result (keys.new ≡ keys.old ++ looked (S.docs setting.now.source.now)
        (fields setting.now.params.now) (expression expr.now) (scope_of frame.now)) }
{
    if let Some(found) = direct(expr, frame, setting.params) {
        return Ok(found.is_true());
    }
    let value = eval(setting, expr, frame, keys, count)?;
    let met = is_true(&value);
    drop(value);
    Ok(met)
}

// Operators of one level from the left.
#[cycle(eval)]
#[tactic(auto, unfolding(cs_syntax::specs::View::operands))]
fn run<'s, S: Source<C>, C>(
    setting: &Setting<'s, S>,
    list: &'s [(BinSign, Expr)],
    frame: &Scope<'s>,
    left: Got<'s>,
    keys: &mut Record,
    count: &mut C,
) -> Result<Got<'s>, NoMemory>
    ensures value { IfOk result (λ g. got g ≡ run_value (S.docs setting.now.source.now) (fields
        setting.now.params.now) (operands_of (operands list.now)) (scope_of frame.now) (got
        left.entry)) }
    ensures keys { OnOk result (keys.new ≡ keys.old ++ run_looked (S.docs setting.now.source.now)
        (fields setting.now.params.now) (operands_of (operands list.now)) (scope_of frame.now) (got
        left.entry)) }
{
    let mut here = left;
    let mut behind = list;
    while let Some((first, later)) = behind.split_first() {
        let left = settle(setting.alloc, here)?;
        here = operate(setting, first.0, &first.1, frame, left, keys, count)?;
        behind = later;
    }
    Ok(here)
}

// One operator, whose right side is left out where the left one decides.
#[cycle(eval)]
#[tactic(auto, using(cs_direct::proofs::Deciding::decided_value))]
fn operate<'s, S: Source<C>, C>(
    setting: &Setting<'s, S>,
    sign: BinSign,
    expr: &'s Expr,
    frame: &Scope<'s>,
    left: Item<'s>,
    keys: &mut Record,
    count: &mut C,
) -> Result<Got<'s>, NoMemory>
    ensures value { IfOk result (λ g. got g ≡ operated sign (item left.entry) (value_of (S.docs
        setting.now.source.now) (fields setting.now.params.now) (expression expr.now) (scope_of
        frame.now))) }
    ensures keys { OnOk result (keys.new ≡ keys.old ++ (if decides (operator_of sign) (item
        left.entry) then [] else looked (S.docs setting.now.source.now) (fields
        setting.now.params.now) (expression expr.now) (scope_of frame.now))) }
{
    if decides(sign, left.val()) {
        return Ok(left.into_got());
    }
    let Ok(right) = settled(setting, expr, frame, keys, count) else {
        drop(left);
        return Err(NoMemory);
    };
    operated_got(setting.alloc, sign, left, right)
}

// `left in from..to`.
#[cycle(eval)]
fn in_range<'s, S: Source<C>, C>(
    setting: &Setting<'s, S>,
    left: &'s Expr,
    from: &'s Expr,
    to: &'s Expr,
    closed: bool,
    frame: &Scope<'s>,
    keys: &mut Record,
    count: &mut C,
) -> Result<Got<'s>, NoMemory>
    ensures value { IfOk result (λ g. got g ≡ value_of (S.docs setting.now.source.now) (fields
        setting.now.params.now) (between_node (expression left.now) (expression from.now)
        (expression to.now) closed) (scope_of frame.now)) }
    ensures keys { OnOk result (keys.new ≡ keys.old ++ looked (S.docs setting.now.source.now)
        (fields setting.now.params.now) (between_node (expression left.now) (expression from.now)
        (expression to.now) closed) (scope_of frame.now)) }
{
    let here = settled(setting, left, frame, keys, count)?;
    let Ok(low) = settled(setting, from, frame, keys, count) else {
        drop(here);
        return Err(NoMemory);
    };
    let Ok(high) = settled(setting, to, frame, keys, count) else {
        drop((here, low));
        return Err(NoMemory);
    };
    Ok(lies_between(here, low, high, closed))
}

// `left in right`, where the right side may be a call of `path`.
#[cycle(eval)]
fn within<'s, S: Source<C>, C>(
    setting: &Setting<'s, S>,
    left: &'s Expr,
    right: &'s Expr,
    frame: &Scope<'s>,
    keys: &mut Record,
    count: &mut C,
) -> Result<Got<'s>, NoMemory>
    ensures value { IfOk result (λ g. got g ≡ value_of (S.docs setting.now.source.now) (fields
        setting.now.params.now) (within_node (expression left.now) (expression right.now))
        (scope_of frame.now)) }
    ensures keys { OnOk result (keys.new ≡ keys.old ++ looked (S.docs setting.now.source.now)
        (fields setting.now.params.now) (within_node (expression left.now) (expression right.now))
        (scope_of frame.now)) }
{
    let here = settled(setting, left, frame, keys, count)?;
    match path_arguments(right) {
        Some(args) => {
            let Ok(values) = arguments(setting, args, frame, keys, count) else {
                drop(here);
                return Err(NoMemory);
            };
            matches_path(setting.alloc, here, values)
        }
        None => {
            let Ok(list) = eval(setting, right, frame, keys, count) else {
                drop(here);
                return Err(NoMemory);
            };
            Ok(is_among(here, list))
        }
    }
}

// An array literal.
#[cycle(eval)]
fn array<'s, S: Source<C>, C>(
    setting: &Setting<'s, S>,
    list: &'s [Elem],
    frame: &Scope<'s>,
    keys: &mut Record,
    count: &mut C,
) -> Result<Got<'s>, NoMemory>
    ensures value { IfOk result (λ g. got g ≡ list_of (elements_values (S.docs
        setting.now.source.now) (fields setting.now.params.now) (elements_of (map element_of
        list.now)) (scope_of frame.now))) }
    ensures keys { OnOk result (keys.new ≡ keys.old ++ elements_looked (S.docs
        setting.now.source.now) (fields setting.now.params.now) (elements_of (map element_of
        list.now)) (scope_of frame.now)) }
{
    let mut items = Vec::with_capacity(setting.alloc, list.len())?;
    let mut behind = list;
    while let Some((first, later)) = behind.split_first() {
        let expr = element_expr(first);
        let value = eval(setting, expr, frame, keys, count)?;
        put_element(setting.alloc, &mut items, first, value)?;
        behind = later;
    }
    gather(setting.alloc, items)
}

// An object literal.
#[cycle(eval)]
#[tactic(auto, using(cs_parts::proofs::Trees::tree_of_object))]
pub(crate) fn object<'s, S: Source<C>, C>(
    setting: &Setting<'_, S>,
    list: &[Entry],
    frame: &Scope<'_>,
    keys: &mut Record,
    count: &mut C,
) -> Result<Got<'s>, NoMemory>
    ensures value { IfOk result (λ g. got g ≡ object (entries_pairs (S.docs setting.now.source.now)
        (fields setting.now.params.now) (entries_of (map entry_of list.now)) (scope_of frame.now)
        no_pairs)) }
    ensures keys { OnOk result (keys.new ≡ keys.old ++ entries_looked (S.docs
        setting.now.source.now) (fields setting.now.params.now) (entries_of (map entry_of
        list.now)) (scope_of frame.now)) }
{
    let mut pairs = Fields::with_capacity(setting.alloc, list.len())?;
    let mut behind = list;
    while let Some((first, later)) = behind.split_first() {
        one_entry(setting, first, frame, &mut pairs, keys, count)?;
        behind = later;
    }
    Ok(Got::Whole(Val::Obj(pairs)))
}

// An entry's pairs put into those so far.
#[cycle(eval)]
fn one_entry<S: Source<C>, C>(
    setting: &Setting<'_, S>,
    entry: &Entry,
    frame: &Scope<'_>,
    pairs: &mut Fields,
    keys: &mut Record,
    count: &mut C,
) -> Result<(), NoMemory>
    ensures value { OnOk result (fields pairs.new ≡ entry_pairs (S.docs setting.now.source.now)
        (fields setting.now.params.now) (entry_of entry.now) (scope_of frame.now) (fields
        pairs.old)) }
    ensures keys { OnOk result (keys.new ≡ keys.old ++ entry_looked (S.docs setting.now.source.now)
        (fields setting.now.params.now) (entry_of entry.now) (scope_of frame.now)) }
{
    if let Some(condition) = condition_of(entry) {
        if !is_met(setting, condition, frame, keys, count)? {
            return Ok(());
        }
    }
    let expr = entry_expr(entry);
    let value = eval(setting, expr, frame, keys, count)?;
    put_entry(setting.alloc, pairs, entry, value)
}

//! The first fault down a tree, in the order of the text. A check answers `Err` with the first
//! fault of its part. The cost grows with the tree alone: a part is looked at once by
//! `check_behind`, and at most once by each of `check_first`, the bracket around it and the entry
//! whose key it has.
ghost use Rattle.std.specs.Prelude.{◌≡◌, ◌++◌, map, option_map};
ghost use Rattle.cs_syntax.specs.Expression.{arguments_of, elements_of, entries_of, keys_of, operands_of, steps_of};
ghost use Rattle.cs_syntax.specs.Faults.{fault, faults, operator_faults, at_first, at_right, behind_first, in_operands, in_step, in_steps, in_entry, in_entries, in_element, in_elements, in_argument, in_arguments, in_keys};
ghost use Rattle.cs_value.specs.Words.{first_of};
ghost use Rattle.cs_syntax.specs.View.{argument_of, element_of, entry_of, expression, order_key_of, operands, step_of};
ghost use Rattle.cs_faults.specs.Found.{found, told};

use crate::calls::{
    check_bracket, check_call, check_key, check_operator, check_pipe, check_right_call, check_slice,
};
use crate::fault::Fault;
use crate::numbers::check_number;
use cs_syntax::{Arg, BinSign, Elem, Entry, Expr, OrderKey, Step};

// At the first token of an expression.
#[tactic(auto, using(crate::proofs::Sets::call), unfolding(cs_syntax::specs::View::expression))]
fn check_first<'e>(expr: &'e Expr) -> Result<(), Fault<'e>>
    ensures { found result ≡ first_of (at_first (expression expr.now)) }
{
    match expr {
        Expr::Number(number) => check_number(number.as_str()),
        Expr::Call { name, args } => check_call(name.as_str(), args),
        Expr::Chain { base, .. } => check_first(base),
        Expr::Run { first, .. } => check_first(first),
        Expr::Within { left, .. } => check_first(left),
        Expr::Between { left, .. } => check_first(left),
        _ => Ok(()),
    }
}

// At the first token of what stands on the right of `in`.
#[tactic(auto, using(crate::proofs::Sets::call), unfolding(cs_syntax::specs::View::expression))]
fn check_right<'e>(expr: &'e Expr) -> Result<(), Fault<'e>>
    ensures { found result ≡ first_of (at_right (expression expr.now)) }
{
    match expr {
        Expr::Call { name, args } => check_right_call(name.as_str(), args),
        _ => check_first(expr),
    }
}

#[cycle(faults)]
#[tactic(auto, using(crate::proofs::Firsts::first_append))]
fn check<'e>(expr: &'e Expr) -> Result<(), Fault<'e>>
    ensures { found result ≡ first_of (faults (expression expr.now)) }
{
    check_first(expr)?;
    check_behind(expr)
}

// Behind the first token of an expression.
#[cycle(faults)]
#[tactic(auto, using(crate::proofs::Sets::first), unfolding(cs_syntax::proofs::Open::of_parts))]
fn check_behind<'e>(expr: &'e Expr) -> Result<(), Fault<'e>>
    ensures { found result ≡ first_of (behind_first (expression expr.now)) }
{
    match expr {
        Expr::Round(inner) => check(inner),
        Expr::Call { args, .. } => check_arguments(args),
        Expr::Array(elements) => check_elements(elements),
        Expr::Object(entries) => check_entries(entries),
        Expr::Chain { base, steps } => {
            check_behind(base)?;
            check_steps(steps)
        },
        Expr::Prefix { operand, .. } => check(operand),
        Expr::Run { first, rest } => {
            check_behind(first)?;
            check_operands(rest)
        },
        Expr::Within { left, right } => {
            check_behind(left)?;
            check_right(right)?;
            check_behind(right)
        },
        Expr::Between { left, from, to, .. } => {
            check_behind(left)?;
            check(from)?;
            check(to)
        },
        _ => Ok(()),
    }
}

#[cycle(faults)]
#[tactic(auto, unfolding(cs_syntax::specs::View::operands))]
fn check_operands<'e>(rest: &'e [(BinSign, Expr)]) -> Result<(), Fault<'e>>
    ensures { found result ≡ first_of (in_operands (operands_of (operands rest.now))) }
{
    for (sign, operand) in rest {
        check_operand(*sign, operand)?;
    }
    Ok(())
}

#[cycle(faults)]
#[tactic(auto, using(crate::proofs::Firsts::first_append))]
fn check_operand<'e>(sign: BinSign, operand: &'e Expr) -> Result<(), Fault<'e>>
    ensures { found result ≡ first_of (operator_faults sign ++ faults (expression operand.now)) }
{
    check_operator(sign)?;
    check(operand)
}

#[cycle(faults)]
fn check_steps<'e>(steps: &'e [Step]) -> Result<(), Fault<'e>>
    ensures { found result ≡ first_of (in_steps (steps_of (map step_of steps.now))) }
{
    for step in steps {
        check_step(step)?;
    }
    Ok(())
}

#[cycle(faults)]
#[tactic(auto, unfolding(cs_syntax::specs::View::step_of, cs_syntax::specs::View::expression))]
fn check_step<'e>(step: &'e Step) -> Result<(), Fault<'e>>
    ensures { found result ≡ first_of (in_step (step_of step.now)) }
{
    match step {
        Step::Attr(_) | Step::Deref | Step::Each => Ok(()),
        Step::Slice { from, to, .. } => {
            check_slice(from, to)?;
            check(from)?;
            check(to)
        },
        Step::Bracket(inner) => {
            check_bracket(inner)?;
            check(inner)
        },
        Step::Project(entries) => check_entries(entries),
        Step::Pipe { name, keys } => {
            let keys: &[OrderKey] = keys;
            check_pipe(name.as_str(), keys)?;
            check_keys(keys)
        },
    }
}

#[cycle(faults)]
fn check_keys<'e>(keys: &'e [OrderKey]) -> Result<(), Fault<'e>>
    ensures { found result ≡ first_of (in_keys (keys_of (map order_key_of keys.now))) }
{
    for key in keys {
        check(&key.key)?;
    }
    Ok(())
}

#[cycle(faults)]
fn check_entries<'e>(entries: &'e [Entry]) -> Result<(), Fault<'e>>
    ensures { found result ≡ first_of (in_entries (entries_of (map entry_of entries.now))) }
{
    for entry in entries {
        check_entry(entry)?;
    }
    Ok(())
}

#[cycle(faults)]
#[tactic(auto, using(crate::proofs::Sets::first), unfolding(cs_syntax::proofs::Open::of_entry))]
fn check_entry<'e>(entry: &'e Entry) -> Result<(), Fault<'e>>
    ensures { found result ≡ first_of (in_entry (entry_of entry.now)) }
{
    match entry {
        Entry::Keyed(_, value) => check(value),
        Entry::Bare(value) => {
            check_first(value)?;
            check_key(value)?;
            check_behind(value)
        },
        Entry::When(condition, value) => {
            check(condition)?;
            check(value)
        },
        Entry::Spread(value) => check(value),
    }
}

#[cycle(faults)]
fn check_elements<'e>(elements: &'e [Elem]) -> Result<(), Fault<'e>>
    ensures { found result ≡ first_of (in_elements (elements_of (map element_of elements.now))) }
{
    for element in elements {
        check_element(element)?;
    }
    Ok(())
}

#[cycle(faults)]
#[tactic(auto, unfolding(cs_syntax::specs::View::element_of, cs_syntax::specs::View::expression))]
fn check_element<'e>(element: &'e Elem) -> Result<(), Fault<'e>>
    ensures { found result ≡ first_of (in_element (element_of element.now)) }
{
    match element {
        Elem::One(value) | Elem::Spread(value) => check(value),
    }
}

#[cycle(faults)]
fn check_arguments<'e>(args: &'e [Arg]) -> Result<(), Fault<'e>>
    ensures { found result ≡ first_of (in_arguments (arguments_of (map argument_of args.now))) }
{
    for arg in args {
        check_argument(arg)?;
    }
    Ok(())
}

#[cycle(faults)]
#[tactic(auto, using(crate::proofs::Sets::first), unfolding(cs_syntax::proofs::Open::of_argument))]
fn check_argument<'e>(arg: &'e Arg) -> Result<(), Fault<'e>>
    ensures { found result ≡ first_of (in_argument (argument_of arg.now)) }
{
    match arg {
        Arg::One(value) => check(value),
        Arg::When(condition, value) => {
            check(condition)?;
            check(value)
        },
    }
}

/// The first fault of the expression in the order of its text: this project's profile. `None`
/// exactly where it has none. Of several at one token, what the profile leaves out comes before an
/// unknown function, and that before a wrong number of arguments and a key that is missing. A name
/// is borrowed from the tree. It takes no memory.
pub fn first_fault<'e>(expr: &'e Expr) -> Option<Fault<'e>>
    ensures { option_map told result ≡ fault (expression expr.now) }
{
    match check(expr) {
        Ok(()) => None,
        Err(fault) => Some(fault),
    }
}

//! Whether neither `*` as a value nor `->` stands anywhere.
ghost use Rattle.std.specs.Prelude.{◌≡◌, map};
ghost use Rattle.cs_syntax.specs.Expression.{arguments_of, elements_of, entries_of, keys_of, operands_of, steps_of};
ghost use Rattle.cs_syntax.specs.View.{argument_of, element_of, entry_of, expression, order_key_of, operands, step_of};
ghost use Rattle.cs_plan.specs.Simple.{is_quiet, quiet_operands, quiet_argument, quiet_arguments, quiet_element, quiet_elements, quiet_entry, quiet_entries, quiet_step, quiet_steps, quiet_keys};

use cs_syntax::{Arg, BinSign, Elem, Entry, Expr, OrderKey, Step};

/// Whether neither `*` as a value nor `->` stands anywhere in the expression, so that evaluating it
/// looks nothing up. It takes no memory.
#[cycle(quiet)]
#[tactic(auto, using(crate::proofs::Sets::parts), unfolding(cs_syntax::specs::View::expression))]
pub fn is_quiet(expr: &Expr) -> bool
    ensures { result ≡ is_quiet (expression expr.now) }
{
    match expr {
        Expr::All => false,
        Expr::Round(inner) => is_quiet(inner),
        Expr::Call { args, .. } => quiet_arguments(args),
        Expr::Array(elements) => quiet_elements(elements),
        Expr::Object(entries) => quiet_entries(entries),
        Expr::Chain { base, steps } => is_quiet(base) && quiet_steps(steps),
        Expr::Prefix { operand, .. } => is_quiet(operand),
        Expr::Run { first, rest } => is_quiet(first) && quiet_operands(rest),
        Expr::Within { left, right } => is_quiet(left) && is_quiet(right),
        Expr::Between { left, from, to, .. } => is_quiet(left) && (is_quiet(from) && is_quiet(to)),
        _ => true,
    }
}

#[cycle(quiet)]
#[tactic(auto, unfolding(cs_syntax::specs::View::operands))]
fn quiet_operands(rest: &[(BinSign, Expr)]) -> bool
    ensures { result ≡ quiet_operands (operands_of (operands rest.now)) }
{
    for (_, operand) in rest {
        if !is_quiet(operand) {
            return false;
        }
    }
    true
}

#[cycle(quiet)]
#[tactic(auto, unfolding(cs_syntax::specs::View::argument_of, cs_syntax::specs::View::expression))]
fn quiet_argument(arg: &Arg) -> bool
    ensures { result ≡ quiet_argument (argument_of arg.now) }
{
    match arg {
        Arg::One(expr) => is_quiet(expr),
        Arg::When(condition, expr) => is_quiet(condition) && is_quiet(expr),
    }
}

#[cycle(quiet)]
fn quiet_arguments(args: &[Arg]) -> bool
    ensures { result ≡ quiet_arguments (arguments_of (map argument_of args.now)) }
{
    for arg in args {
        if !quiet_argument(arg) {
            return false;
        }
    }
    true
}

#[cycle(quiet)]
#[tactic(auto, unfolding(cs_syntax::specs::View::element_of, cs_syntax::specs::View::expression))]
fn quiet_element(elem: &Elem) -> bool
    ensures { result ≡ quiet_element (element_of elem.now) }
{
    match elem {
        Elem::One(expr) => is_quiet(expr),
        Elem::Spread(expr) => is_quiet(expr),
    }
}

#[cycle(quiet)]
fn quiet_elements(elements: &[Elem]) -> bool
    ensures { result ≡ quiet_elements (elements_of (map element_of elements.now)) }
{
    for elem in elements {
        if !quiet_element(elem) {
            return false;
        }
    }
    true
}

#[cycle(quiet)]
#[tactic(auto, unfolding(cs_syntax::specs::View::entry_of, cs_syntax::specs::View::expression))]
fn quiet_entry(entry: &Entry) -> bool
    ensures { result ≡ quiet_entry (entry_of entry.now) }
{
    match entry {
        Entry::Keyed(_, expr) => is_quiet(expr),
        Entry::Bare(expr) => is_quiet(expr),
        Entry::When(condition, expr) => is_quiet(condition) && is_quiet(expr),
        Entry::Spread(expr) => is_quiet(expr),
    }
}

#[cycle(quiet)]
fn quiet_entries(entries: &[Entry]) -> bool
    ensures { result ≡ quiet_entries (entries_of (map entry_of entries.now)) }
{
    for entry in entries {
        if !quiet_entry(entry) {
            return false;
        }
    }
    true
}

#[cycle(quiet)]
#[tactic(auto, using(crate::proofs::Sets::steps), unfolding(cs_syntax::specs::View::step_of))]
pub(crate) fn quiet_step(step: &Step) -> bool
    ensures { result ≡ quiet_step (step_of step.now) }
{
    match step {
        Step::Deref => false,
        Step::Attr(_) | Step::Each => true,
        Step::Slice { from, to, .. } => is_quiet(from) && is_quiet(to),
        Step::Bracket(inner) => is_quiet(inner),
        Step::Project(entries) => quiet_entries(entries),
        Step::Pipe { keys, .. } => quiet_keys(keys),
    }
}

#[cycle(quiet)]
pub(crate) fn quiet_steps(steps: &[Step]) -> bool
    ensures { result ≡ quiet_steps (steps_of (map step_of steps.now)) }
{
    for step in steps {
        if !quiet_step(step) {
            return false;
        }
    }
    true
}

#[cycle(quiet)]
#[tactic(auto, unfolding(cs_syntax::specs::View::order_key_of, cs_syntax::specs::View::expression))]
fn quiet_keys(keys: &[OrderKey]) -> bool
    ensures { result ≡ quiet_keys (keys_of (map order_key_of keys.now)) }
{
    for key in keys {
        if !is_quiet(&key.key) {
            return false;
        }
    }
    true
}

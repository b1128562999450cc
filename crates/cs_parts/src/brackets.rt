//! What stands in the bracket of a step.
ghost use Rattle.std.specs.Prelude.{◌≡◌, ℕ, pos, neg_ℤ, Option, IfSome, IfNone, false, map, drop, option_map};
ghost use Rattle.cs_syntax.specs.Expression.{steps_of, bracket as bracket_step, more_steps};
ghost use Rattle.cs_syntax.specs.View.{expression, step_of};
ghost use Rattle.cs_plan.specs.Steps.{bracketed, condition, position_of, number_of};
ghost use Rattle.cs_plan.specs.Simple.{is_filter};
ghost use Rattle.cs_meaning.specs.Looked.{starts_with_filter};
ghost use Rattle.cs_parts.specs.Kinds.{kinds_of};
ghost use Rattle.cs_parts.specs.Brackets.{stands_for};

use cs_syntax::{Expr, PreSign, Step, written_number};

/// What a bracket asks for: an element, an attribute, or what a condition leaves.
#[derive(Clone, Copy)]
pub enum Bracket<'e> {
    /// The element at this position, counted from the end where it is below 0: none where the
    /// profile refuses the number.
    Position(Option<i64>),
    /// The attribute of this name.
    Named(&'e str),
    /// The elements that meet the condition.
    Condition,
}

// The negative of a number, which 64 bits hold for every number that the profile takes.
fn negated(number: Option<i64>) -> Option<i64>
    ensures { (n : Option ℕ) → number ≡ option_map pos n
        → result ≡ option_map (λ n. neg_ℤ (pos n)) n }
{
    number?.checked_neg()
}

// The number that an expression is, if it is one alone: one that the profile refuses has no value.
#[tactic(auto, unfolding(cs_syntax::specs::View::expression))]
fn number_of(expr: &Expr) -> Option<Option<i64>>
    ensures { result ≡ option_map (option_map pos) (number_of (expression expr.now)) }
{
    match expr {
        Expr::Number(number) => Some(written_number(number.as_str())),
        _ => None,
    }
}

/// The position that an expression is: a number, or `-` and a number. `Some(None)` is a number that
/// the profile refuses: one with a fraction or an exponent, or above 2^63-1.
#[tactic(auto, unfolding(cs_syntax::specs::View::expression))]
pub fn position_of(expr: &Expr) -> Option<Option<i64>>
    ensures { result ≡ position_of (expression expr.now) }
{
    match expr {
        Expr::Prefix { signs, operand } => match signs.as_slice() {
            [PreSign::Minus] => Some(negated(number_of(operand)?)),
            _ => None,
        },
        _ => number_of(expr),
    }
}

/// What the bracket around this expression asks for.
pub fn bracket_of(expr: &Expr) -> Bracket<'_>
    ensures { stands_for result ≡ bracketed (expression expr.now) }
{
    match position_of(expr) {
        Some(place) => Bracket::Position(place),
        None => match expr.text() {
            Some(text) => Bracket::Named(text),
            None => Bracket::Condition,
        },
    }
}

/// The condition of the first step and the steps behind it, where the first step is a filter.
pub fn head_filter(steps: &[Step]) -> Option<(&Expr, &[Step])>
    ensures some { IfSome result (λ x. steps_of (map step_of steps.now) ≡ more_steps (bracket_step
        (expression x.0.now)) (steps_of (map step_of x.1.now))) }
    ensures condition { IfSome result (λ x. bracketed (expression x.0.now) ≡ condition) }
    ensures kinds { IfSome result (λ x. drop 1 (kinds_of (map step_of steps.now)) ≡ kinds_of (map
        step_of x.1.now)) }
    ensures none { IfNone result (starts_with_filter (steps_of (map step_of steps.now)) ≡ false) }
{
    let (first, later) = steps.split_first()?;
    match filter_of(first) {
        Some(condition) => Some((condition, later)),
        None => None,
    }
}

// The condition of a step that is a filter.
#[tactic(auto, unfolding(cs_syntax::specs::View::step_of, cs_syntax::specs::View::expression))]
fn filter_of(step: &Step) -> Option<&Expr>
    ensures some { IfSome result (λ e. step_of step.now ≡ bracket_step (expression e.now)) }
    ensures condition { IfSome result (λ e. bracketed (expression e.now) ≡
        Rattle.cs_plan.specs.Steps.condition) }
    ensures none { IfNone result (is_filter (step_of step.now) ≡ false) }
{
    match step {
        Step::Bracket(inner) => match bracket_of(inner) {
            Bracket::Condition => Some(inner),
            _ => None,
        },
        _ => None,
    }
}

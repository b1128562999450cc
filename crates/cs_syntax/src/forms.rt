//! The forms of expressions that brackets, slices and entries ask for.
ghost use Rattle.std.specs.Prelude.{◌≡◌, map, option_map};
ghost use Rattle.cs_syntax.specs.Brackets.{is_number, is_position, is_text, text_alone};
ghost use Rattle.cs_syntax.specs.Brackets.{keeps_key, keep_key, key_of};
ghost use Rattle.cs_syntax.specs.Expression.{steps_of};
ghost use Rattle.cs_syntax.specs.View.{expression, step_of};

use crate::tree::{Expr, PreSign, Step};

impl Expr {
    #[tactic(auto, unfolding(crate::specs::View::expression))]
    fn is_number(&self) -> bool
        ensures { result ≡ is_number (expression self.now) }
    {
        matches!(self, Expr::Number(_))
    }

    /// Whether the expression is a number, or `-` and a number.
    #[tactic(auto, unfolding(crate::specs::View::expression))]
    pub fn is_position(&self) -> bool
        ensures { result ≡ is_position (expression self.now) }
    {
        match self {
            Expr::Prefix { signs, operand } => match signs.as_slice() {
                [PreSign::Minus] => operand.is_number(),
                _ => false,
            },
            _ => self.is_number(),
        }
    }

    /// The text that the expression is, if it is one alone.
    #[tactic(auto, unfolding(crate::specs::View::expression))]
    pub fn text(&self) -> Option<&str>
        ensures { option_map (λ s. s.now) result ≡ text_alone (expression self.now) }
    {
        match self {
            Expr::Text(text) => Some(text.as_str()),
            _ => None,
        }
    }

    /// Whether the expression is a text alone, by which a bracket takes an attribute.
    #[tactic(auto, unfolding(crate::specs::View::expression))]
    pub fn is_text(&self) -> bool
        ensures { result ≡ is_text (expression self.now) }
    {
        matches!(self, Expr::Text(_))
    }

    /// The key of an entry that is the expression alone: the word with which the expression
    /// begins. `None` exactly where it begins otherwise, or where a step takes an attribute or is
    /// a piped call.
    #[tactic(auto, unfolding(crate::specs::View::expression, crate::specs::View::step_of))]
    pub fn key(&self) -> Option<&str>
        ensures { option_map (λ k. k.now) result ≡ key_of (expression self.now) }
    {
        match self {
            Expr::Word(word) => Some(word.as_str()),
            Expr::Chain { base, steps } => match &**base {
                Expr::Word(word) if keep_key(steps) => Some(word.as_str()),
                _ => None,
            },
            _ => None,
        }
    }
}

// Whether the step leaves a word its key.
#[tactic(auto, unfolding(crate::specs::View::step_of, crate::specs::View::expression))]
fn keeps_key(step: &Step) -> bool
    ensures { result ≡ keeps_key (step_of step.now) }
{
    match step {
        Step::Deref | Step::Each | Step::Slice { .. } | Step::Project(_) => true,
        Step::Bracket(inner) => !inner.is_text(),
        Step::Attr(_) | Step::Pipe { .. } => false,
    }
}

fn keep_key(steps: &[Step]) -> bool
    ensures { result ≡ keep_key (steps_of (map step_of steps.now)) }
{
    for step in steps {
        if !keeps_key(step) {
            return false;
        }
    }
    true
}

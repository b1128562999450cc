//! Attribute paths: a word, and steps that are names.
ghost use Rattle.std.specs.Prelude.{◌≡◌, ◌∷◌, ◌≤◌, IfOk, map, length, is_some, true, option_and_then};
ghost use Rattle.cs_plan.specs.Filters.{few, path_of, is_id_path};
ghost use Rattle.cs_plan.specs.Parts.{path_names};
ghost use Rattle.cs_plan.specs.Steps.{names_of};
ghost use Rattle.cs_syntax.specs.Expression.{steps_of};
ghost use Rattle.cs_syntax.specs.View.{expression, step_of};

use crate::steps::{are_names, name_of};
use cs_syntax::{Expr, Step};
use cs_value::{NoMemory, Txt};
use cs_view::Names;
use std::alloc::Global;
use std::marker::Model;

// A document is looked up by no more than four names.
const MOST_STEPS: usize = 3;

/// An attribute path where it stands in a filter. Contracts see it as the list of its names.
#[derive(Drop)]
pub(crate) struct LentNames<'f> {
    word: &'f Txt,
    steps: &'f [Step],
}

impl<'f> Model for LentNames<'f> {
    ghost use Rattle.std.specs.Prelude.{ℕ, List, map, length, ◌≤◌, ◌≡◌, is_some, true};
    ghost use Rattle.cs_syntax.specs.Expression.{steps_of};
    ghost use Rattle.cs_syntax.specs.View.{step_of};
    ghost use Rattle.cs_plan.specs.Steps.{names_of};
    ghost use Rattle.cs_plan.specs.Parts.{path_names};

    ghost Value = { List (List ℕ) };

    ghost view = { λ p. path_names p.word.now (steps_of (map step_of p.steps.now)) };

    ghost invariant = { λ p. (length p.steps.now ≤ 3)
        × (is_some (names_of (steps_of (map step_of p.steps.now))) ≡ true) };
}

impl<'f> LentNames<'f> {
    /// The path of a word and the steps behind it: `None` exactly where one of these is no name,
    /// or where they are more than three.
    #[tactic(auto, using(crate::proofs::Sets::names))]
    fn of(word: &'f Txt, steps: &'f [Step]) -> Option<LentNames<'f>>
        ensures { result
            ≡ option_and_then (λ names. few (word.now ∷ names))
            (names_of (steps_of (map step_of steps.now))) }
    {
        if steps.len() > MOST_STEPS {
            return None;
        }
        if !are_names(steps) {
            return None;
        }
        Some(LentNames { word, steps })
    }

    /// Whether it is `_id` alone.
    #[tactic(auto, using(crate::proofs::PathNames::id_alone, crate::proofs::PathNames::id_longer))]
    pub(crate) fn is_id(&self) -> bool
        ensures { result ≡ is_id_path self.now }
    {
        self.steps.is_empty() && self.word.as_str() == "_id"
    }

    /// The names with texts of their own.
    pub(crate) fn copied(self, alloc: Global) -> Result<Names, NoMemory>
        ensures { IfOk result (λ names. names ≡ self.entry) }
    {
        copied_names(alloc, self.word, self.steps)
    }
}

#[tactic(auto, using(crate::proofs::PathNames::named_more, crate::proofs::PathNames::name_before))]
fn copied_names(alloc: Global, word: &Txt, steps: &[Step]) -> Result<Names, NoMemory>
    requires few { length steps.now ≤ 3 }
    requires named { is_some (names_of (steps_of (map step_of steps.now))) ≡ true }
    ensures { IfOk result (λ names. names
        ≡ path_names word.now (steps_of (map step_of steps.now))) }
{
    let mut texts = Vec::with_capacity(alloc, 1 + steps.len())?;
    texts.push(word.copy(alloc)?)?;
    let mut left = steps;
    while let Some((step, later)) = left.split_first() {
        let Some(name) = name_of(step) else {
            unreachable!()
        };
        texts.push(Txt::copy_of(alloc, name)?)?;
        left = later;
    }
    Ok(Names::of(texts))
}

/// The attribute path that an expression is: a word and at most three steps `.w` or `["w"]`.
#[tactic(auto, unfolding(cs_syntax::specs::View::expression))]
pub(crate) fn path_of(expr: &Expr) -> Option<LentNames<'_>>
    ensures { result ≡ path_of (expression expr.now) }
{
    match expr {
        Expr::Word(word) => LentNames::of(word, &[]),
        Expr::Chain { base, steps } => match &**base {
            Expr::Word(word) => LentNames::of(word, steps),
            _ => None,
        },
        _ => None,
    }
}

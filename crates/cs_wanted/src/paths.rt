//! Attribute paths, and the kinds of keys that they give.
use cs_plan::{are_names, name_of};
use cs_syntax::{Expr, Step};
use cs_value::{NoMemory, Txt};
use cs_view::Names;
use std::alloc::Global;

// A document is looked up by no more than four names.
const MOST_STEPS: usize = 3;

/// An attribute path where it stands in a filter.
#[derive(Drop)]
pub(crate) struct LentPath<'q> {
    word: &'q Txt,
    steps: &'q [Step],
}

impl<'q> LentPath<'q> {
    // The path of a word and the steps behind it, if these are at most three names.
    fn of(word: &'q Txt, steps: &'q [Step]) -> Option<LentPath<'q>> {
        if steps.len() <= MOST_STEPS && are_names(steps) {
            Some(LentPath { word, steps })
        } else {
            None
        }
    }

    // Whether it is the word alone.
    fn is_word(&self, word: &str) -> bool {
        self.steps.is_empty() && self.word.as_str() == word
    }

    /// Whether it is `_id` alone.
    pub(crate) fn is_id(&self) -> bool {
        self.is_word("_id")
    }

    /// Whether it is `_type` alone.
    pub(crate) fn is_type(&self) -> bool {
        self.is_word("_type")
    }

    /// The names with texts of their own. `None` where they are not one to four names, as those of
    /// a path are.
    pub(crate) fn names(&self, alloc: Global) -> Result<Option<Names>, NoMemory> {
        let mut texts = Vec::with_capacity(alloc, 4)?;
        texts.push(self.word.copy(alloc)?)?;
        for step in self.steps {
            if let Some(name) = name_of(step) {
                texts.push(Txt::copy_of(alloc, name)?)?;
            }
        }
        if !texts.is_empty() && texts.len() <= 4 {
            Ok(Some(Names::of(texts)))
        } else {
            Ok(None)
        }
    }
}

/// The attribute path that an expression is: a word and at most three steps `.w` or `["w"]`.
pub(crate) fn path_of(expr: &Expr) -> Option<LentPath<'_>> {
    match expr {
        Expr::Word(word) => LentPath::of(word, &[]),
        Expr::Chain { base, steps } => match &**base {
            Expr::Word(word) => LentPath::of(word, steps),
            _ => None,
        },
        _ => None,
    }
}

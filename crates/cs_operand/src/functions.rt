//! Functions whose values need no memory.
ghost use Rattle.std.specs.Prelude.{◌≡◌};
ghost use Rattle.cs_value.specs.Tree.{boolean};
ghost use Rattle.cs_ops.specs.Truth.{said, truth};
ghost use Rattle.cs_func.specs.Lists.{count, defined};
ghost use Rattle.cs_func.specs.Texts.{size, begins};
ghost use Rattle.cs_meaning.specs.Operators.{in_path};
ghost use Rattle.cs_operand.specs.Operands.{operand};

use crate::operand::Operand;
use cs_func::{begins_with, characters, path_matches};

impl<'v> Operand<'v> {
    /// `count`: how many elements a list has, null of anything else.
    pub fn count(self) -> Operand<'v>
        ensures { operand result ≡ count (operand self.entry) }
    {
        match self {
            Operand::List(items) => Operand::Number(items.len() as i64),
            _ => Operand::Null,
        }
    }

    /// `length`: how many characters a text has, how many elements a list.
    pub fn size(self) -> Operand<'v>
        ensures { operand result ≡ size (operand self.entry) }
    {
        match self {
            Operand::Text(text) => Operand::Number(characters(text.as_str()) as i64),
            Operand::List(items) => Operand::Number(items.len() as i64),
            _ => Operand::Null,
        }
    }

    /// `defined`: whether the value is more than null.
    pub fn is_defined(self) -> bool
        ensures { boolean result ≡ defined (operand self.entry) }
    {
        !matches!(self, Operand::Null)
    }

    /// `string::startsWith`. It says nothing where there are not two texts.
    pub fn begins(self, start: Operand<'_>) -> Option<bool>
        ensures value { said result ≡ begins (operand self.entry) (operand start.entry) }
        ensures truth { result ≡ truth (begins (operand self.entry) (operand start.entry)) }
    {
        match (self, start) {
            (Operand::Text(text), Operand::Text(start)) => {
                Some(begins_with(text.as_str(), start.as_str()))
            }
            _ => None,
        }
    }

    /// `self in path(pattern)`. It says nothing where there are not two texts.
    pub fn matches_path(self, pattern: Operand<'_>) -> Option<bool>
        ensures value { said result ≡ in_path (operand self.entry) (operand pattern.entry) }
        ensures truth { result ≡ truth (in_path (operand self.entry) (operand pattern.entry)) }
    {
        match (self, pattern) {
            (Operand::Text(text), Operand::Text(pattern)) => {
                Some(path_matches(pattern.as_str(), text.as_str()))
            }
            _ => None,
        }
    }
}

//! Equality, comparison and truth of operands.
ghost use Rattle.std.specs.Prelude.{◌≡◌};
ghost use Rattle.std.specs.List.{list_any};
ghost use Rattle.cs_value.specs.View.{list_tree};
ghost use Rattle.cs_ops.specs.Equal.{equal};
ghost use Rattle.cs_ops.specs.Operators.{within, between};
ghost use Rattle.cs_ops.specs.Order.{partial};
ghost use Rattle.cs_ops.specs.Truth.{said, truth};
ghost use Rattle.cs_meaning.specs.Operators.{is_true};
ghost use Rattle.cs_operand.specs.Operands.{operand};

use crate::operand::Operand;
use cs_value::Val;
use std::cmp::Ordering;

impl Operand<'_> {
    /// Whether two values are equal: no list and no object is equal to anything.
    pub fn is_equal(self, other: Operand<'_>) -> bool
        ensures { result ≡ equal (operand self.entry) (operand other.entry) }
    {
        match (self, other) {
            (Operand::Null, Operand::Null) => true,
            (Operand::Bool(x), Operand::Bool(y)) => x == y,
            (Operand::Number(m), Operand::Number(n)) => m == n,
            (Operand::Text(s), Operand::Text(t)) => s.as_str() == t.as_str(),
            _ => false,
        }
    }

    /// The comparison with another value: `None` exactly where they have none.
    pub fn compared(self, other: Operand<'_>) -> Option<Ordering>
        ensures { result ≡ partial (operand self.entry) (operand other.entry) }
    {
        match (self, other) {
            (Operand::Number(m), Operand::Number(n)) => Some(m.cmp(&n)),
            (Operand::Text(s), Operand::Text(t)) => Some(s.as_str().cmp(t.as_str())),
            (Operand::Bool(x), Operand::Bool(y)) => Some(x.cmp(&y)),
            _ => None,
        }
    }

    /// What the value says as a condition: nothing, where it is no boolean.
    pub fn truth(self) -> Option<bool>
        ensures { result ≡ truth (operand self.entry) }
    {
        match self {
            Operand::Bool(b) => Some(b),
            _ => None,
        }
    }

    /// Whether the value is `true`.
    pub fn is_true(self) -> bool
        ensures { result ≡ is_true (operand self.entry) }
    {
        self.truth().unwrap_or(false)
    }

    /// `self in list`: whether the value is equal to an element of a list. It says nothing where
    /// there is no list.
    pub fn is_among(self, list: Operand<'_>) -> Option<bool>
        ensures value { said result ≡ within (operand self.entry) (operand list.entry) }
        ensures truth { result ≡ truth (within (operand self.entry) (operand list.entry)) }
    {
        match list {
            Operand::List(items) => Some(has_equal(items, self)),
            _ => None,
        }
    }

    /// `self in low..high` where it is closed, else `self in low...high`. It says nothing where the
    /// value has no comparison with one of them.
    pub fn is_between(self, low: Operand<'_>, high: Operand<'_>, closed: bool) -> Option<bool>
        ensures value { said result
            ≡ between (operand self.entry) (operand low.entry) (operand high.entry) closed }
        ensures truth { result
            ≡ truth (between (operand self.entry) (operand low.entry) (operand high.entry)
            closed) }
    {
        let from = self.compared(low)?;
        let to = self.compared(high)?;
        let ends = if closed { to.is_le() } else { to.is_lt() };
        Some(from.is_ge() && ends)
    }
}

// Whether some element is equal to the value.
fn has_equal(items: &Vec<Val>, value: Operand<'_>) -> bool
    ensures { result
        ≡ list_any (λ t. equal t (operand value.entry)) (list_tree items.now.items) }
{
    for item in items {
        if Operand::of(item).is_equal(value) {
            return true;
        }
    }
    false
}

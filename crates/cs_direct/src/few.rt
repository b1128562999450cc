//! The values of a call's arguments, of which no function has more than two.
ghost use Rattle.std.specs.Prelude.{◌≡◌, ◌∷◌, ◌++◌, [], IfSome};
ghost use Rattle.cs_meaning.specs.Operators.{sole};
ghost use Rattle.cs_direct.specs.Few.{few};
ghost use Rattle.cs_operand.specs.Operands.{operand};

use cs_operand::Operand;

/// At most two values.
#[derive(Clone, Copy)]
pub(crate) enum Few<'s> {
    Zero,
    One(Operand<'s>),
    Two(Operand<'s>, Operand<'s>),
}

impl<'s> Few<'s> {
    /// These and one more. `None` where there are two already.
    pub(crate) fn with(self, more: Operand<'s>) -> Option<Few<'s>>
        ensures { IfSome result (λ values. few values ≡ few self.entry ++ operand more.entry ∷ []) }
    {
        match self {
            Few::Zero => Some(Few::One(more)),
            Few::One(first) => Some(Few::Two(first, more)),
            Few::Two(_first, _second) => None,
        }
    }

    /// The one value of these. `None` where there is none or there are more.
    pub(crate) fn sole(self) -> Option<Operand<'s>>
        ensures { IfSome result (λ o. operand o ≡ sole (few self.entry)) }
    {
        match self {
            Few::One(only) => Some(only),
            _ => None,
        }
    }
}

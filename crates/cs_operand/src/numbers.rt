//! Numbers.
ghost use Rattle.std.specs.Prelude.{◌≡◌, ℤ, FitsSigned, SomeIff};
ghost use Rattle.std.specs.Int.{w64};
ghost use Rattle.cs_ops.specs.Arithmetic.{number};
ghost use Rattle.cs_ops.specs.Operators.{prefix};
ghost use Rattle.cs_ops.specs.declared.op.Pre.TheVariants.{Minus};
ghost use Rattle.cs_plan.specs.Constants.{literal};
ghost use Rattle.cs_operand.specs.Operands.{operand};

use crate::operand::Operand;
use cs_syntax::written_number;

impl<'v> Operand<'v> {
    /// The value of a number as it is written: null where it has a fraction or an exponent, or is
    /// not below 2^63.
    pub fn written(number: &str) -> Operand<'v>
        ensures { operand result ≡ literal number.now }
    {
        match written_number(number) {
            Some(n) => Operand::Number(n),
            None => Operand::Null,
        }
    }

    /// The number that a checked operation gave, null where it gave none.
    pub fn checked(checked: Option<i64>) -> Operand<'v>
        ensures { (z : ℤ) → SomeIff checked (FitsSigned w64 z) z → operand result ≡ number z }
    {
        match checked {
            Some(n) => Operand::Number(n),
            None => Operand::Null,
        }
    }

    /// The value of `-` and the operand: null of what is no number, and of -2^63.
    pub fn negated(self) -> Operand<'v>
        ensures { operand result ≡ prefix Minus (operand self.entry) }
    {
        match self {
            Operand::Number(n) => Operand::checked(n.checked_neg()),
            _ => Operand::Null,
        }
    }
}

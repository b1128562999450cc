//! Operators between operands.
ghost use Rattle.std.specs.Prelude.{◌≡◌, IfSome};
ghost use Rattle.cs_ops.specs.Arithmetic.{remainder};
ghost use Rattle.cs_ops.specs.Operators.{prefix};
ghost use Rattle.cs_meaning.specs.Operators.{operated, signed, decides, operator_of, front_operator};
ghost use Rattle.cs_operand.specs.Operands.{operand};

use cs_operand::Operand;
use cs_ops::{both, either, opposite};
use cs_syntax::{BinSign, PreSign};

/// Whether the left side alone decides.
pub(crate) fn decides(sign: BinSign, left: Operand<'_>) -> bool
    ensures { result ≡ decides (operator_of sign) (operand left.entry) }
{
    match sign {
        BinSign::And => !left.truth().unwrap_or(true),
        BinSign::Or => left.is_true(),
        _ => false,
    }
}

fn remainder<'s>(m: i64, n: i64) -> Operand<'s>
    ensures { operand result ≡ remainder m n }
{
    if n == 0 {
        Operand::Null
    } else {
        Operand::Number(m.wrapping_rem(n))
    }
}

// An operation on two numbers. What is no number is left to the general way.
macro_rules! of_numbers {
    ($a:expr, $b:expr, $m:ident, $n:ident, $value:expr) => {
        match ($a, $b) {
            (Operand::Number($m), Operand::Number($n)) => Some($value),
            _ => None,
        }
    };
}

// A test of a comparison, null where there is none.
macro_rules! compared {
    ($a:expr, $b:expr, $test:ident) => {
        match $a.compared($b) {
            Some(order) => Operand::Bool(order.$test()),
            None => Operand::Null,
        }
    };
}

/// The value of a sign between two values. `None` where it would need memory, and where numbers are
/// asked for and there are none.
pub(crate) fn operated<'s>(sign: BinSign, a: Operand<'s>, b: Operand<'s>) -> Option<Operand<'s>>
    ensures { IfSome result (λ o. operand o ≡ operated sign (operand a.entry) (operand b.entry)) }
{
    match sign {
        BinSign::And => Some(Operand::said(both(a.truth(), b.truth()))),
        BinSign::Or => Some(Operand::said(either(a.truth(), b.truth()))),
        BinSign::Eq => Some(Operand::Bool(a.is_equal(b))),
        BinSign::Ne => Some(Operand::Bool(!a.is_equal(b))),
        BinSign::Lt => Some(compared!(a, b, is_lt)),
        BinSign::Le => Some(compared!(a, b, is_le)),
        BinSign::Gt => Some(compared!(a, b, is_gt)),
        BinSign::Ge => Some(compared!(a, b, is_ge)),
        BinSign::Add => of_numbers!(a, b, m, n, Operand::checked(m.checked_add(n))),
        BinSign::Sub => of_numbers!(a, b, m, n, Operand::checked(m.checked_sub(n))),
        BinSign::Mul => of_numbers!(a, b, m, n, Operand::checked(m.checked_mul(n))),
        BinSign::Rem => of_numbers!(a, b, m, n, remainder(m, n)),
        BinSign::Match | BinSign::Div | BinSign::Pow => Some(Operand::Null),
    }
}

// A sign in front of a value.
fn signed_once<'s>(sign: PreSign, a: Operand<'s>) -> Option<Operand<'s>>
    ensures { IfSome result (λ o. operand o ≡ prefix (front_operator sign) (operand a.entry)) }
{
    match (sign, a) {
        (PreSign::Minus, a) => Some(a.negated()),
        (PreSign::Plus, Operand::Number(n)) => Some(Operand::Number(n)),
        (PreSign::Not, a) => Some(Operand::said(opposite(a.truth()))),
        _ => None,
    }
}

/// Signs in front of a value, the innermost first. `None` where `+` asks for a number and there is
/// none.
pub(crate) fn signed<'s>(signs: &[PreSign], a: Operand<'s>) -> Option<Operand<'s>>
    ensures { IfSome result (λ o. operand o ≡ signed signs.now (operand a.entry)) }
{
    let mut here = a;
    let mut at = signs.len();
    while at > 0 {
        at -= 1;
        here = signed_once(signs[at], here)?;
    }
    Some(here)
}

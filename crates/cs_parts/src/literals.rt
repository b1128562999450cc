//! Values that no expression is evaluated for, and operators by their signs.
ghost use Rattle.std.specs.Prelude.{◌≡◌, IfOk};
ghost use Rattle.cs_value.specs.View.{tree, fields};
ghost use Rattle.cs_view.specs.Scopes.{scope_of};
ghost use Rattle.cs_plan.specs.Steps.{in_scope};
ghost use Rattle.cs_meaning.specs.Operators.{parameter, operator_of, operated, decides, front_operator, signed, is_true};
ghost use Rattle.cs_parts.specs.Parts.{got, item};

use crate::{Got, Item, is_false};
use cs_ops::{Op, Pre, binary, binary_onto, prefix};
use cs_plan::up;
use cs_syntax::{BinSign, PreSign};
use cs_value::{Fields, NoMemory, Val};
use cs_view::Scope;
use std::alloc::Global;

/// The value so many levels out, null where the scope is too short.
#[tactic(auto, using(crate::proofs::Trees::tree_of_null))]
pub fn at_level<'s>(frame: &Scope<'s>, level: u32) -> Got<'s>
    ensures { got result ≡ in_scope level (scope_of frame.now) }
{
    match up(frame, level) {
        Some(val) => Got::Part(val),
        None => Got::Whole(Val::Null),
    }
}

/// The value of a parameter, null where it is not given.
#[tactic(auto, using(crate::proofs::Trees::tree_of_null))]
pub fn param<'s>(params: &'s Fields, name: &str) -> Got<'s>
    ensures { got result ≡ parameter name.now (fields params.now) }
{
    match params.get(name) {
        Some(val) => Got::Part(val),
        None => Got::Whole(Val::Null),
    }
}

// The operator of a sign, if it has one.
fn operator_of(sign: BinSign) -> Option<Op>
    ensures { result ≡ operator_of sign }
{
    match sign {
        BinSign::Or => Some(Op::Or),
        BinSign::And => Some(Op::And),
        BinSign::Eq => Some(Op::Eq),
        BinSign::Ne => Some(Op::Ne),
        BinSign::Lt => Some(Op::Lt),
        BinSign::Le => Some(Op::Le),
        BinSign::Gt => Some(Op::Gt),
        BinSign::Ge => Some(Op::Ge),
        BinSign::Add => Some(Op::Add),
        BinSign::Sub => Some(Op::Sub),
        BinSign::Mul => Some(Op::Mul),
        BinSign::Rem => Some(Op::Rem),
        BinSign::Match | BinSign::Div | BinSign::Pow => None,
    }
}

/// The value of a sign between two values. What was made for the left one is used again.
#[tactic(auto, using(crate::proofs::Trees::tree_of_null))]
pub fn operated(alloc: Global, sign: BinSign, left: Item<'_>, right: &Val) -> Result<Val, NoMemory>
    ensures { IfOk result (λ v. tree v ≡ operated sign (item left.entry) (tree right.now)) }
{
    let Some(op) = operator_of(sign) else {
        return Ok(Val::Null);
    };
    match left {
        Item::Lent(val) => binary(alloc, op, val, right),
        Item::Made(val) => binary_onto(alloc, op, val, right),
    }
}

/// Whether the left side alone decides.
pub fn decides(sign: BinSign, left: &Val) -> bool
    ensures { result ≡ decides (operator_of sign) (tree left.now) }
{
    match sign {
        BinSign::And => is_false(left),
        BinSign::Or => is_true_val(left),
        _ => false,
    }
}

// Whether the value is `true`.
fn is_true_val(val: &Val) -> bool
    ensures { result ≡ is_true (tree val.now) }
{
    match val {
        Val::Bool(b) => *b,
        _ => false,
    }
}

// The operator of a sign in front.
fn front_operator(sign: PreSign) -> Pre
    ensures { result ≡ front_operator sign }
{
    match sign {
        PreSign::Minus => Pre::Minus,
        PreSign::Plus => Pre::Plus,
        PreSign::Not => Pre::Not,
    }
}

/// Signs in front of a value, the innermost first.
pub fn signed(signs: &[PreSign], val: Val) -> Val
    ensures { tree result ≡ signed signs.now (tree val) }
{
    let mut here = val;
    let mut at = signs.len();
    while at > 0 {
        at -= 1;
        here = prefix(front_operator(signs[at]), &here);
    }
    here
}

//! The faults that one token of an expression may have, but for numbers.
ghost use Rattle.std.specs.Prelude.{◌≡◌, map, Some};
ghost use Rattle.cs_syntax.specs.Expression.{arguments_of, keys_of};
ghost use Rattle.cs_syntax.specs.Faults.{operator_faults, arity_faults, call_faults, right_call_faults, order_faults, pipe_faults, bracket_faults, slice_faults, key_faults};
ghost use Rattle.cs_value.specs.Words.{first_of};
ghost use Rattle.cs_syntax.specs.Brackets.{key_of};
ghost use Rattle.cs_syntax.specs.View.{argument_of, expression, order_key_of};
ghost use Rattle.cs_faults.specs.Found.{found, told, arity_told, no_function};

use crate::brackets::is_constant;
use crate::fault::Fault;
use crate::functions::{Arity, accepts, arity_of, is_left_out};
use cs_syntax::{Arg, BinSign, Expr, OrderKey, is_path};

pub(crate) fn check_operator<'e>(sign: BinSign) -> Result<(), Fault<'e>>
    ensures { found result ≡ first_of (operator_faults sign) }
{
    match sign {
        BinSign::Div => Err(Fault::Unsupported { name: "/" }),
        BinSign::Pow => Err(Fault::Unsupported { name: "**" }),
        BinSign::Match => Err(Fault::Unsupported { name: "match" }),
        _ => Ok(()),
    }
}

fn check_arity<'e>(name: &'e str, args: &[Arg], arity: Arity) -> Result<(), Fault<'e>>
    ensures { found result ≡ first_of (arity_faults name.now
        (arguments_of (map argument_of args.now)) (Some (arity_told arity))) }
{
    if accepts(arity, args) {
        Ok(())
    } else {
        Err(Fault::Arity { name })
    }
}

// The fault of a name that no function has.
fn no_function<'e>(name: &'e str) -> Fault<'e>
    ensures { told result ≡ no_function name.now }
{
    if is_left_out(name) || is_path(name) {
        Fault::Unsupported { name }
    } else {
        Fault::UnknownFunction { name }
    }
}

/// The fault of the name of a call that is not alone on the right of `in`.
#[tactic(auto, using(crate::proofs::NamedFunctions::call_of_function))]
pub(crate) fn check_call<'e>(name: &'e str, args: &[Arg]) -> Result<(), Fault<'e>>
    ensures { found result ≡ first_of
        (call_faults name.now (arguments_of (map argument_of args.now))) }
{
    match arity_of(name) {
        Some(arity) => check_arity(name, args, arity),
        None => Err(no_function(name)),
    }
}

/// The fault of the name of a call that is alone on the right of `in`.
pub(crate) fn check_right_call<'e>(name: &'e str, args: &[Arg]) -> Result<(), Fault<'e>>
    ensures { found result ≡ first_of
        (right_call_faults name.now (arguments_of (map argument_of args.now))) }
{
    if is_path(name) {
        return check_arity(name, args, Arity::Exactly(1));
    }
    check_call(name, args)
}

#[tactic(auto, using(crate::proofs::Views::order_with_key))]
fn check_order<'e>(name: &'e str, keys: &[OrderKey]) -> Result<(), Fault<'e>>
    ensures { found result
        ≡ first_of (order_faults name.now (keys_of (map order_key_of keys.now))) }
{
    if keys.is_empty() {
        return Err(Fault::Arity { name });
    }
    Ok(())
}

/// The fault of the name of a piped call.
#[tactic(auto, using(crate::proofs::NamedFunctions::pipe_of_order))]
pub(crate) fn check_pipe<'e>(name: &'e str, keys: &[OrderKey]) -> Result<(), Fault<'e>>
    ensures { found result
        ≡ first_of (pipe_faults name.now (keys_of (map order_key_of keys.now))) }
{
    if name == "order" {
        check_order(name, keys)
    } else if is_left_out(name) {
        Err(Fault::Unsupported { name })
    } else {
        Err(Fault::UnknownFunction { name })
    }
}

/// The fault of a bracket, at its `[`.
pub(crate) fn check_bracket<'e>(inner: &'e Expr) -> Result<(), Fault<'e>>
    ensures { found result ≡ first_of (bracket_faults (expression inner.now)) }
{
    if !inner.is_position() && !inner.is_text() && is_constant(inner) {
        return Err(Fault::Unsupported { name: "constant" });
    }
    Ok(())
}

/// The fault of the ends of a slice, at its `[`.
pub(crate) fn check_slice<'e>(from: &'e Expr, to: &'e Expr) -> Result<(), Fault<'e>>
    ensures { found result ≡ first_of (slice_faults (expression from.now) (expression to.now)) }
{
    if from.is_position() && to.is_position() {
        Ok(())
    } else {
        Err(Fault::Unsupported {
            name: "slice-bounds",
        })
    }
}

/// The fault of a bare entry without a determinable key.
pub(crate) fn check_key<'e>(value: &'e Expr) -> Result<(), Fault<'e>>
    ensures { found result ≡ first_of (key_faults (key_of (expression value.now))) }
{
    match value.key() {
        Some(_) => Ok(()),
        None => Err(Fault::NoKey),
    }
}

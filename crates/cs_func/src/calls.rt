//! The calls of functions.
ghost use Rattle.std.specs.Prelude.{◌≡◌, IsTrue, is_some, option_map, IfOk, IfErr};
ghost use Rattle.cs_value.specs.View.{tree};
ghost use Rattle.cs_func.specs.Functions.{value, has_two, makes};

use crate::function::Function;
use crate::lists::{compact, count, defined, unique};
use crate::numbers::{greatest, least, sum};
use crate::texts::{begins, join, size, split, string};
use cs_value::{NoMemory, Val};
use std::alloc::Global;

// A function of two arguments.
macro_rules! with_second {
    ($second:expr, $y:ident, $value:expr) => {
        match $second {
            Some($y) => $value,
            None => Ok(Val::Null),
        }
    };
}

/// The value of a function of its arguments. The second is there exactly where the function has
/// two. `NoMemory` comes only from a function that makes a list or a text; every other function
/// takes no memory.
pub fn call(
    alloc: Global,
    function: Function,
    first: &Val,
    second: Option<&Val>,
) -> Result<Val, NoMemory>
    requires { is_some second ≡ has_two function }
    ensures value { IfOk result (λ v. tree v
        ≡ value function (tree first.now) (option_map (λ y. tree y.now) second.entry)) }
    ensures memory { IfErr result (λ _. IsTrue (makes function)) }
{
    match function {
        Function::Count => Ok(count(first)),
        Function::Length => Ok(size(first)),
        Function::Defined => Ok(defined(first)),
        Function::Text => string(alloc, first),
        Function::Unique => unique(alloc, first),
        Function::Compact => compact(alloc, first),
        Function::Join => with_second!(second, separator, join(alloc, first, separator)),
        Function::Split => with_second!(second, separator, split(alloc, first, separator)),
        Function::StartsWith => with_second!(second, prefix, Ok(begins(first, prefix))),
        Function::Sum => Ok(sum(first)),
        Function::Min => Ok(least(first)),
        Function::Max => Ok(greatest(first)),
    }
}

//! Functions by their names.
ghost use Rattle.std.specs.Cmp.Lexicographic.{slice_cmp};
ghost use Rattle.std.specs.Ordering.{is_eq, nat_cmp};
ghost use Rattle.std.specs.Prelude.{◌≡◌};
ghost use Rattle.cs_func.specs.Names.{named};

use crate::function::Function;

// A row of the table of names.
#[derive(Clone, Copy)]
struct Name {
    name: &'static str,
    function: Function,
}

impl Name {
    // Lengths are compared first: most names of other functions have another one, so that a
    // look-up reads the bytes of one or two of them.
    fn is_named(&self, name: &str) -> bool
        ensures { result ≡ is_eq (slice_cmp nat_cmp self.now.name.now name.now) }
    {
        self.name.len() == name.len() && self.name == name
    }
}

// The rows of the table, in the order of their names' bytes.
macro_rules! names {
    ($($name:literal => $function:ident),*) => {
        [$(Name { name: $name, function: Function::$function }),*]
    };
}

static NAMES: [Name; 16] = names!(
    "array::compact" => Compact,
    "array::join" => Join,
    "array::unique" => Unique,
    "count" => Count,
    "defined" => Defined,
    "global::count" => Count,
    "global::defined" => Defined,
    "global::length" => Length,
    "global::string" => Text,
    "length" => Length,
    "math::max" => Max,
    "math::min" => Min,
    "math::sum" => Sum,
    "string" => Text,
    "string::split" => Split,
    "string::startsWith" => StartsWith
);

/// The function of the name, with its namespace, or with `global::` before a name without one:
/// `None` exactly where no function of this crate has it.
pub fn named(name: &str) -> Option<Function>
    ensures { result ≡ named name.now }
{
    match NAMES.iter().find(|row| row.is_named(name)) {
        Some(row) => Some(row.function),
        None => None,
    }
}

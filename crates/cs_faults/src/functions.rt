//! The functions of the query language by their names, and the arguments that each takes.
ghost use Rattle.std.specs.Prelude.{◌≡◌, map, option_map};
ghost use Rattle.std.specs.List.{list_any, starts_with};
ghost use Rattle.std.specs.Prelude.{nat_eq};
ghost use Rattle.std.specs.Str.{bytes_eq};
ghost use Rattle.cs_syntax.specs.Expression.{arguments_of};
ghost use Rattle.cs_syntax.specs.Functions.{arity_of, accepts, all_plain, pairs_come_first, is_left_out};
ghost use Rattle.cs_syntax.specs.View.{argument_of};
ghost use Rattle.cs_faults.specs.Found.{arity_told};

use cs_syntax::{Arg, without_global};
use cs_table::{Row, Table};

/// The arguments that a function takes.
#[derive(Clone, Copy)]
pub(crate) enum Arity {
    /// So many.
    Exactly(usize),
    /// So many or more.
    AtLeast(usize),
    /// Pairs `condition => value`, and then at most one value for no condition met.
    PairsAndDefault,
}

// A name and the arity of its function.
#[derive(Clone, Copy)]
struct Name {
    name: &'static str,
    arity: Arity,
}

impl Row for Name {
    ghost called = { λ n. n.name.now };

    fn name(&self) -> &str {
        self.name
    }
}

// The rows of the table, in the order of their names' bytes.
macro_rules! names {
    ($($name:literal => $arity:expr),*) => { [$(Name { name: $name, arity: $arity }),*] };
}

static FUNCTIONS: [Name; 22] = names!(
    "array::compact" => Arity::Exactly(1),
    "array::join" => Arity::Exactly(2),
    "array::unique" => Arity::Exactly(1),
    "coalesce" => Arity::AtLeast(0),
    "count" => Arity::Exactly(1),
    "defined" => Arity::Exactly(1),
    "global::coalesce" => Arity::AtLeast(0),
    "global::count" => Arity::Exactly(1),
    "global::defined" => Arity::Exactly(1),
    "global::length" => Arity::Exactly(1),
    "global::references" => Arity::AtLeast(1),
    "global::select" => Arity::PairsAndDefault,
    "global::string" => Arity::Exactly(1),
    "length" => Arity::Exactly(1),
    "math::max" => Arity::Exactly(1),
    "math::min" => Arity::Exactly(1),
    "math::sum" => Arity::Exactly(1),
    "references" => Arity::AtLeast(1),
    "select" => Arity::PairsAndDefault,
    "string" => Arity::Exactly(1),
    "string::split" => Arity::Exactly(2),
    "string::startsWith" => Arity::Exactly(2)
);

static LEFT_OUT: [&str; 11] = [
    "round",
    "lower",
    "upper",
    "dateTime",
    "identity",
    "now",
    "before",
    "after",
    "score",
    "boost",
    "math::avg",
];

static NAMESPACES_LEFT_OUT: [&str; 5] = ["pt::", "geo::", "sanity::", "delta::", "diff::"];

/// The arguments that the function of the name takes: `None` exactly where no function has it.
pub(crate) fn arity_of(name: &str) -> Option<Arity>
    ensures { option_map arity_told result ≡ arity_of name.now }
{
    let table = Table::over(&FUNCTIONS);
    match table.find(name) {
        Some(row) => Some(row.arity),
        None => None,
    }
}

#[tactic(auto, unfolding(cs_syntax::specs::View::argument_of))]
fn all_plain(args: &[Arg]) -> bool
    ensures { result ≡ all_plain (arguments_of (map argument_of args.now)) }
{
    for argument in args {
        if let Arg::When(_, _) = argument {
            return false;
        }
    }
    true
}

#[tactic(auto, unfolding(cs_syntax::specs::View::argument_of))]
fn pairs_come_first(args: &[Arg]) -> bool
    ensures { result ≡ pairs_come_first (arguments_of (map argument_of args.now)) }
{
    let mut has_default = false;
    for argument in args {
        if has_default {
            return false;
        }
        if let Arg::One(_) = argument {
            has_default = true;
        }
    }
    true
}

/// Whether a call may have these arguments.
#[tactic(auto, using(cs_syntax::proofs::Views::count_of_arguments))]
pub(crate) fn accepts(arity: Arity, args: &[Arg]) -> bool
    ensures { result ≡ accepts (arity_told arity) (arguments_of (map argument_of args.now)) }
{
    match arity {
        Arity::Exactly(count) => args.len() == count && all_plain(args),
        Arity::AtLeast(least) => args.len() >= least && all_plain(args),
        Arity::PairsAndDefault => pairs_come_first(args),
    }
}

fn is_among(name: &[u8], others: &[&str]) -> bool
    ensures { result
        ≡ list_any (λ other. bytes_eq name.now other) (map (λ o. o.now) others.entry.now) }
{
    for other in others {
        if name == other.as_bytes() {
            return true;
        }
    }
    false
}

fn begins_with_one(name: &[u8], spaces: &[&str]) -> bool
    ensures { result ≡ list_any (λ space. starts_with nat_eq name.now space)
        (map (λ o. o.now) spaces.entry.now) }
{
    for space in spaces {
        if name.starts_with(space.as_bytes()) {
            return true;
        }
    }
    false
}

/// Whether the profile leaves out the function of the name, or all of its namespace.
pub(crate) fn is_left_out(name: &str) -> bool
    ensures { result ≡ is_left_out name.now }
{
    let name = without_global(name);
    is_among(name, &LEFT_OUT) || begins_with_one(name, &NAMESPACES_LEFT_OUT)
}

//! Why an operation is refused at a target.
ghost use Rattle.std.specs.Prelude.{◌≡◌, ℕ, List, Option, Some, None, option_map, bytes_eq, cond, map};
ghost use Rattle.std.specs.List.{list_any};
ghost use Rattle.cs_patch.specs.Operations.{fixed, fixed_at};
ghost use Rattle.cs_targets.specs.Seen.{seen};
ghost use Rattle.cs_patch.specs.Asked.{name_of, refusal_of, number_of, list_at, check_of, first_seen};

use cs_alter::Change;
use cs_jsonmatch::Part;
use cs_targets::{Stands, Target};

// The attributes that only the store writes.
#[derive(Clone, Copy, Drop)]
pub(crate) enum Fixed {
    Id,
    Type,
    Rev,
    CreatedAt,
    UpdatedAt,
}

#[derive(Clone, Copy, Drop)]
pub(crate) enum Cause {
    Immutable(Fixed),
    NotNumber,
    Overflow,
    NotArray,
}

// What an operation asks of a target: that it is not fixed; and that it is a number whose change is
// one of 64 bits, or a list.
#[derive(Clone, Copy, Drop)]
pub(crate) enum Ask {
    Free,
    Number(Change),
    List,
}

fn fixed_name(name: &str) -> Option<Fixed>
    ensures { option_map name_of result ≡ cond (list_any (bytes_eq name.now) fixed)
        (Some name.now) None }
{
    match name {
        "_id" => Some(Fixed::Id),
        "_type" => Some(Fixed::Type),
        "_rev" => Some(Fixed::Rev),
        "_createdAt" => Some(Fixed::CreatedAt),
        "_updatedAt" => Some(Fixed::UpdatedAt),
        _ => None,
    }
}

fn fixed_cause(location: &[Part]) -> Option<Cause>
    ensures { (path : List ℕ) → option_map (refusal_of path) result ≡ fixed_at location.now }
{
    let Some(Part::Name(name)) = location.first() else {
        return None;
    };
    match fixed_name(name.as_str()) {
        Some(fixed) => Some(Cause::Immutable(fixed)),
        None => None,
    }
}

fn number_cause(stands: Stands, change: Change) -> Option<Cause>
    ensures { (path : List ℕ) → option_map (refusal_of path) result ≡ number_of path change stands }
{
    let Stands::Number(number) = stands else {
        return Some(Cause::NotNumber);
    };
    let fits = match change {
        Change::Add(n) => number.checked_add(n).is_some(),
        Change::Subtract(n) => number.checked_sub(n).is_some(),
    };
    if fits { None } else { Some(Cause::Overflow) }
}

fn list_cause(stands: Stands) -> Option<Cause>
    ensures { (path : List ℕ) → option_map (refusal_of path) result ≡ list_at path stands }
{
    match stands {
        Stands::List => None,
        _ => Some(Cause::NotArray),
    }
}

fn cause_at(ask: Ask, target: &Target) -> Option<Cause>
    ensures { (path : List ℕ) (ns : List (List ℕ)) → option_map (refusal_of path) result
        ≡ check_of ask path (seen ns target.now) }
{
    match ask {
        Ask::Free => fixed_cause(&target.location),
        Ask::Number(change) => match fixed_cause(&target.location) {
            Some(cause) => Some(cause),
            None => number_cause(target.stands, change),
        },
        Ask::List => match fixed_cause(&target.location) {
            Some(cause) => Some(cause),
            None => list_cause(target.stands),
        },
    }
}

pub(crate) fn first_cause(ask: Ask, targets: &[&Target]) -> Option<Cause>
    ensures { (path : List ℕ) (ns : List (List ℕ)) → option_map (refusal_of path) result
        ≡ first_seen (check_of ask path) (map (λ t. seen ns t.now) targets.now) }
{
    for target in targets {
        if let Some(cause) = cause_at(ask, target) {
            return Some(cause);
        }
    }
    None
}

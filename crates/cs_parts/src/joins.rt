//! How the steps of a chain are joined.
ghost use Rattle.std.specs.Prelude.{◌≡◌, IfOk, map, drop};
ghost use Rattle.cs_syntax.specs.View.{expression, step_of};
ghost use Rattle.cs_meaning.specs.Joining.{form, kind_before, kind, way, entrance, gives_array};
ghost use Rattle.cs_parts.specs.Kinds.{kinds_of, first_kind};

use crate::brackets::{Bracket, bracket_of};
use crate::{Entrance, Form, Kind, Shape, Way};
use cs_syntax::{Expr, Step};
use cs_value::NoMemory;
use smallvec::SmallVec;
use std::alloc::Global;

/// What a step is to joining.
#[tactic(auto, using(crate::proofs::Sets::form), unfolding(cs_syntax::specs::View::step_of))]
pub fn form_of(step: &Step) -> Form
    ensures { result ≡ form (step_of step.now) }
{
    match step {
        Step::Attr(_) | Step::Deref => Form::Single,
        Step::Each | Step::Slice { .. } => Form::Listing,
        Step::Bracket(inner) => match bracket_of(inner) {
            Bracket::Position(_) => Form::Element,
            Bracket::Named(_) => Form::Single,
            Bracket::Condition => Form::Listing,
        },
        Step::Project(_) => Form::Projection,
        Step::Pipe { .. } => Form::Pipe,
    }
}

fn kind_before(form: Form, kind: Kind) -> Kind
    ensures { result ≡ kind_before form kind }
{
    match form {
        Form::Pipe => Kind::Empty,
        Form::Single => match kind {
            Kind::Empty => Kind::Taking(Shape::One, Shape::One),
            Kind::Taking(_, gives) => Kind::Taking(Shape::One, gives),
        },
        Form::Projection => match kind {
            Kind::Empty => Kind::Taking(Shape::One, Shape::One),
            Kind::Taking(takes, gives) => Kind::Taking(takes, gives),
        },
        Form::Element => match kind {
            Kind::Empty => Kind::Taking(Shape::Array, Shape::One),
            Kind::Taking(_, gives) => Kind::Taking(Shape::Array, gives),
        },
        Form::Listing => match kind {
            Kind::Taking(Shape::Array, gives) => Kind::Taking(Shape::Array, gives),
            _ => Kind::Taking(Shape::Array, Shape::Array),
        },
    }
}

/// How a step of this form leads on to a rest of this kind.
pub fn way_of(form: Form, kind: Kind) -> Way
    ensures { result ≡ way form kind }
{
    match form {
        Form::Pipe => Way::Ends,
        Form::Listing => Way::After,
        Form::Projection => match kind {
            Kind::Taking(Shape::Array, _) => Way::Over,
            _ => Way::Through,
        },
        Form::Single | Form::Element => Way::Through,
    }
}

/// How an array enters a rest of this kind.
pub fn entrance_of(kind: Kind) -> Entrance
    ensures { result ≡ entrance kind }
{
    match kind {
        Kind::Empty | Kind::Taking(Shape::Array, _) => Entrance::Whole,
        Kind::Taking(Shape::One, Shape::One) => Entrance::Mapped,
        Kind::Taking(Shape::One, Shape::Array) => Entrance::Flat,
    }
}

/// Whether a base gives an array.
#[tactic(auto, unfolding(cs_syntax::specs::View::expression))]
pub fn gives_array(base: &Expr) -> bool
    ensures { result ≡ gives_array (expression base.now) }
{
    match base {
        Expr::All | Expr::Array(_) => true,
        _ => false,
    }
}

/// So many kinds of rests need no memory of their own.
pub const SHORT: usize = 8;

/// The kinds of all rests of a chain, the longest first: found once, from the right end.
#[tactic(auto)]
pub fn kinds(alloc: Global, steps: &[Step]) -> Result<SmallVec<Kind, SHORT>, NoMemory>
    ensures { IfOk result (λ ks. ks.items ≡ kinds_of (map step_of steps.now)) }
{
    let mut found = SmallVec::new(alloc);
    let mut kind = Kind::Empty;
    let mut at = steps.len();
    while at > 0 {
        at -= 1;
        kind = kind_before(form_of(&steps[at]), kind);
        if found.push(kind).is_err() {
            return Err(NoMemory);
        }
    }
    found.as_mut_slice().reverse();
    Ok(found)
}

/// The kind of the rest whose kinds these are.
pub fn first_kind(kinds: &[Kind]) -> Kind
    ensures { result ≡ first_kind kinds.now }
{
    match kinds.split_first() {
        Some((kind, _)) => *kind,
        None => Kind::Empty,
    }
}

/// The kinds behind the first.
pub fn behind(kinds: &[Kind]) -> &[Kind]
    ensures { result.now ≡ drop 1 kinds.now }
{
    match kinds.split_first() {
        Some((_, later)) => later,
        None => kinds,
    }
}

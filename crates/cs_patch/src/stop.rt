//! Why a path was not carried out, before it is told.
ghost use Rattle.std.specs.Prelude.{◌≡◌, IfOk};
ghost use Rattle.cs_patch.specs.Operations.{Outcome, refused};
ghost use Rattle.cs_patch.specs.Asked.{name_of, refusal_of};
ghost use Rattle.cs_patch.specs.Faults.{IsPatchFault};
ghost use Rattle.cs_patch.specs.Outcomes.{IsStop};

use crate::fault::PatchFault;
use crate::refusal::{Cause, Fixed};
use cs_value::{NoMemory, Txt};
use std::alloc::Global;

#[derive(Clone, Copy, Drop)]
pub(crate) enum Stop {
    Because(Cause),
    TooDeep,
    NoMemory,
}

impl From<NoMemory> for Stop {
    ghost use Rattle.std.specs.Prelude.{◌≡◌};
    ghost use Rattle.cs_patch.specs.declared.stop.Stop.TheVariants.{NoMemory};

    ghost from_gives = { λ _ e. e ≡ NoMemory };

    fn from(_refused: NoMemory) -> Stop {
        Stop::NoMemory
    }
}

fn called(fixed: Fixed) -> &'static str
    ensures { result.now ≡ name_of fixed }
{
    match fixed {
        Fixed::Id => "_id",
        Fixed::Type => "_type",
        Fixed::Rev => "_rev",
        Fixed::CreatedAt => "_createdAt",
        Fixed::UpdatedAt => "_updatedAt",
    }
}

// The fault of a path that is written so.
fn fault(alloc: Global, cause: Cause, path: &str) -> Result<PatchFault, NoMemory>
    ensures { IfOk result (λ f. (o : Outcome) → o ≡ refused (refusal_of path.now cause)
        → IsPatchFault (λ r. o ≡ refused r) f) }
{
    Ok(match cause {
        Cause::Immutable(fixed) => PatchFault::Immutable {
            name: Txt::copy_of(alloc, called(fixed))?,
        },
        Cause::NotNumber => PatchFault::NotNumber {
            path: Txt::copy_of(alloc, path)?,
        },
        Cause::Overflow => PatchFault::Overflow {
            path: Txt::copy_of(alloc, path)?,
        },
        Cause::NotArray => PatchFault::NotArray {
            path: Txt::copy_of(alloc, path)?,
        },
    })
}

// What is told of a path that is written so and was not carried out.
pub(crate) fn told(alloc: Global, stop: Stop, path: &str) -> PatchFault
    ensures { (o : Outcome) → IsStop path.now o stop → IsPatchFault (λ r. o ≡ refused r) result }
{
    match stop {
        Stop::Because(cause) => match fault(alloc, cause, path) {
            Ok(fault) => fault,
            Err(_) => PatchFault::NoMemory,
        },
        Stop::TooDeep => PatchFault::TooDeep,
        Stop::NoMemory => PatchFault::NoMemory,
    }
}

//! Why a line of a data file is not taken.
ghost use Rattle.std.specs.Prelude.{List};
ghost use Rattle.cs_value.specs.Tree.{Tree};
ghost use Rattle.cs_json.specs.Reading.{Outcome, IsCause};
ghost use Rattle.cs_machine.specs.DataFile.{of_outcome};
ghost use Rattle.cs_load.specs.Refusals.{IsRefused};

use crate::fault::DataCause;
use cs_json::JsonFault;

/// Why a line was not taken.
#[derive(Drop)]
pub(crate) enum LineRefusal {
    /// The line is refused.
    Cause(DataCause),
    /// The allocator had no memory to give.
    NoMemory,
}

impl From<cs_value::NoMemory> for LineRefusal {
    ghost use Rattle.std.specs.Prelude.{◌≡◌};
    ghost use Rattle.cs_load.specs.declared.refusal.LineRefusal.TheVariants.{NoMemory};

    ghost from_gives = { λ _ e. e ≡ NoMemory };

    fn from(_refused: cs_value::NoMemory) -> LineRefusal {
        LineRefusal::NoMemory
    }
}

/// The refusal that a fault of the line's JSON is.
pub(crate) fn json_refusal(fault: JsonFault) -> LineRefusal
    ensures { (documents : List Tree) (o : Outcome) → IsCause fault o
        → IsRefused result (of_outcome documents o) }
{
    match fault {
        JsonFault::NotJson => LineRefusal::Cause(DataCause::NotJson),
        JsonFault::TooDeep => LineRefusal::Cause(DataCause::TooDeep),
        JsonFault::NotWhole => LineRefusal::Cause(DataCause::NotWhole),
        JsonFault::NoMemory => LineRefusal::NoMemory,
    }
}

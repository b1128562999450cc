//! Numbers that the profile leaves out.
ghost use Rattle.std.specs.Prelude.{◌≡◌};
ghost use Rattle.cs_syntax.specs.Faults.{number_faults};
ghost use Rattle.cs_value.specs.Words.{first_of};
ghost use Rattle.cs_faults.specs.Found.{found};

use crate::fault::Fault;
use cs_syntax::{has_exponent, has_fraction, written_number};

/// The fault of a number as it is written.
pub(crate) fn check_number(number: &str) -> Result<(), Fault<'_>>
    ensures { found result ≡ first_of (number_faults number.now) }
{
    if written_number(number).is_some() {
        return Ok(());
    }
    if has_exponent(number) {
        return Err(Fault::Unsupported { name: "exponent" });
    }
    if has_fraction(number) {
        return Err(Fault::Unsupported { name: "fraction" });
    }
    Err(Fault::Unsupported {
        name: "wide-number",
    })
}

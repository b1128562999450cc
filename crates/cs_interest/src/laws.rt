//! The laws of interest, for proofs: each function does nothing, and its contract is the law.
ghost use Rattle.cs_interest.specs.Laws.{NarrowestIsHad, TouchedHasCode, TouchedIsAsked};

use cs_codes::laws::keys_are_listed;

/// A number that stands under the code of a key that changes touch is asked.
pub fn touched_is_asked()
    ensures { TouchedIsAsked }
{
    keys_are_listed();
}

/// A key that changes touch has its code among those of the changes, or that of every document.
pub fn touched_has_code()
    ensures { TouchedHasCode }
{
    keys_are_listed();
}

/// A document that has each of some keys has the narrowest of them.
pub fn narrowest_is_had()
    ensures { NarrowestIsHad }
{}

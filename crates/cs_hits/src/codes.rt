//! The codes under which interest in keys is held: whether they are those of others, and whether
//! changes may touch a key whose code is among some.
ghost use Rattle.std.specs.Prelude.{◌≡◌, List, map, true, false, IfOk};
ghost use Rattle.std.specs.List.{list_any};
ghost use Rattle.std.specs.List.Sorted.{IsNonDecreasing};
ghost use Rattle.cs_view.specs.Touched.{touched};
ghost use Rattle.cs_view.specs.View.{edits};
ghost use Rattle.cs_view.specs.declared.key.Key.{Key as KeySpec};
ghost use Rattle.cs_codes.specs.Codes.{is_among};
ghost use Rattle.cs_interest.specs.Interest.{interest_code};
ghost use Rattle.cs_hits.specs.Codes.{AreSought};
ghost use Rattle.cs_hits.specs.Shares.{TellsCodes};

use cs_codes::{Seed, has_code};
use cs_interest::laws::touched_has_code;
use cs_interest::{codes_of_changes, interest_code};
use cs_value::NoMemory;
use cs_view::{Change, Key};
use std::alloc::Global;

// Whether the keys have the codes that the others have, in the same order.
fn same_codes(seed: &Seed, one: &[Key], other: &[Key]) -> bool
    ensures { result ≡ true
        → map (interest_code seed.now) one.now ≡ map (interest_code seed.now) other.now }
{
    if one.len() != other.len() {
        return false;
    }
    for place in 0..one.len() {
        if interest_code(seed, &one[place]) != interest_code(seed, &other[place]) {
            return false;
        }
    }
    true
}

/// Sets `recoded` where the keys that are looked up now have other codes than those that were.
pub(crate) fn tell_codes(seed: &Seed, were: &[Key], are: &[Key], recoded: &mut bool)
    ensures { TellsCodes seed.now were.now are.now recoded.old recoded.new }
{
    if !same_codes(seed, are, were) {
        *recoded = true;
    }
}

// Whether one of the codes is among some which ascend.
fn has_some(ascending: &[u64], codes: &[u64]) -> bool
    requires { IsNonDecreasing ascending.now }
    ensures { result ≡ list_any (λ c. is_among c ascending.now) codes.now }
{
    for code in codes {
        if has_code(ascending, *code) {
            return true;
        }
    }
    false
}

/// Whether the changes may touch one of the keys in which interest is held under the codes, which
/// ascend. `false` only where they touch none; it follows the changes, and the logarithm of the
/// number of codes. `NoMemory` where the allocator has no room for the codes of the changes.
pub fn may_touch(
    alloc: Global,
    seed: &Seed,
    codes: &[u64],
    changes: &[Change],
) -> Result<bool, NoMemory>
    requires { IsNonDecreasing codes.now }
    ensures { IfOk result (λ b. b ≡ false → (ks : List KeySpec) → AreSought seed.now ks codes.now
        → touched ks (edits changes.now) ≡ false) }
{
    touched_has_code();
    // Interest in what no index keeps is held under the code 0.
    if has_code(codes, 0) {
        return Ok(true);
    }
    let changed = codes_of_changes(alloc, seed, changes)?;
    Ok(has_some(codes, &changed))
}

//! The code under which interest in a key is held.
ghost use Rattle.std.specs.Prelude.{◌≡◌};
ghost use Rattle.cs_interest.specs.Interest.{interest_code};

use cs_codes::{Seed, id_code, key_code, ref_code};
use cs_view::Key;

/// The code under which interest in a key is held: that of the key. Interest in a key of every
/// document has the code 0.
pub fn interest_code(seed: &Seed, key: &Key) -> u64
    ensures { result ≡ interest_code seed.now key.now }
{
    match key {
        Key::All => 0,
        Key::Id(id) => id_code(seed, id),
        Key::Path(names, _) => {
            // There are at least one of them and at most four.
            let _few = names.len();
            key_code(seed, key)
        }
        Key::Elem(names, _) => {
            // Here too.
            let _few = names.len();
            key_code(seed, key)
        }
        Key::Ref(target) => ref_code(seed, target),
    }
}

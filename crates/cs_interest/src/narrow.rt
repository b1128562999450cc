//! By which of several keys a number is held.
ghost use Rattle.std.specs.Prelude.{◌≡◌};
ghost use Rattle.cs_interest.specs.Interest.{interest_code};
ghost use Rattle.cs_interest.specs.Narrow.{is_type, scalar_breadth, path_breadth, breadth, narrower, narrowest};

use crate::code::interest_code;
use cs_codes::Seed;
use cs_view::{Key, Names, Scalar};

// Whether the path is `_type` alone.
fn is_type(names: &Names) -> bool
    ensures { result ≡ is_type names.now }
{
    match names.texts().split_first() {
        Some((name, rest)) => rest.is_empty() && name.as_str() == "_type",
        None => false,
    }
}

fn scalar_breadth(scalar: &Scalar) -> u32
    ensures { result ≡ scalar_breadth scalar.now }
{
    match scalar {
        Scalar::Bool(_) => 3,
        Scalar::Num(_) | Scalar::Text(_) => 2,
    }
}

fn path_breadth(names: &Names, scalar: &Scalar) -> u32
    ensures { result ≡ path_breadth names.now scalar.now }
{
    // There are at least one of them and at most four.
    let _few = names.len();
    if is_type(names) {
        3
    } else {
        scalar_breadth(scalar)
    }
}

// The lower, the fewer documents are expected to have the key.
fn breadth(key: &Key) -> u32
    ensures { result ≡ breadth key.now }
{
    match key {
        Key::Id(_) => 0,
        Key::Ref(_) => 1,
        Key::Path(names, scalar) | Key::Elem(names, scalar) => path_breadth(names, scalar),
        Key::All => 5,
    }
}

fn narrower<'k>(one: &'k Key, other: &'k Key) -> &'k Key
    ensures { result.now ≡ narrower one.now other.now }
{
    if breadth(other) < breadth(one) {
        other
    } else {
        one
    }
}

/// The code under which interest in the documents that have each of the keys is held: that of the
/// narrowest key, the one that the fewest documents are expected to have; the code of every
/// document where there is no key. It takes no memory.
pub fn narrowest_code(seed: &Seed, keys: &[Key]) -> u64
    ensures { result ≡ interest_code seed.now (narrowest keys.now) }
{
    let every = Key::All;
    let mut narrowest = &every;
    for key in keys {
        narrowest = narrower(narrowest, key);
    }
    interest_code(seed, narrowest)
}

//! Which keys an object has.
ghost use Rattle.std.specs.Prelude.{◌≡◌, ◌++◌, map, is_some};
ghost use Rattle.std.specs.List.{list_all};
ghost use Rattle.cs_value.specs.Pairs.{find};
ghost use Rattle.cs_value.specs.View.{fields};
ghost use Rattle.cs_wire.specs.Commands.{is_among, key_names, has_keys};

use cs_value::Fields;

fn is_among(key: &str, keys: &[&str]) -> bool
    ensures { result ≡ is_among key.now (map (λ k. k.now) keys.entry.now) }
{
    for other in keys {
        if key == *other {
            return true;
        }
    }
    false
}

fn has_all(object: &Fields, keys: &[&str]) -> bool
    ensures { result ≡ list_all (λ k. is_some (find k (fields object.now)))
        (map (λ k. k.now) keys.entry.now) }
{
    for key in keys {
        if object.get(*key).is_none() {
            return false;
        }
    }
    true
}

fn is_known(key: &str, must: &[&str], may: &[&str]) -> bool
    ensures { result ≡ is_among key.now
        (map (λ k. k.now) must.entry.now ++ map (λ k. k.now) may.entry.now) }
{
    is_among(key, must) || is_among(key, may)
}

fn has_only(object: &Fields, must: &[&str], may: &[&str]) -> bool
    ensures { result ≡ list_all
        (λ k. is_among k (map (λ k. k.now) must.entry.now ++ map (λ k. k.now) may.entry.now))
        (key_names (fields object.now)) }
{
    for (key, _) in object.pairs.iter() {
        if !is_known(key, must, may) {
            return false;
        }
    }
    true
}

/// Whether the object has every key of `must`, and no key but these and those of `may`. Nothing is
/// asked of the values.
pub fn has_keys(object: &Fields, must: &[&str], may: &[&str]) -> bool
    ensures { result ≡ has_keys (map (λ k. k.now) must.entry.now)
        (map (λ k. k.now) may.entry.now) (fields object.now) }
{
    has_all(object, must) && has_only(object, must, may)
}

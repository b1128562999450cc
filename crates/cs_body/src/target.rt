//! Which documents a mutation is meant for.
ghost use Rattle.std.specs.Prelude.{◌≡◌, ◌∷◌, codes, map, option_map};
ghost use Rattle.cs_value.specs.View.{fields};
ghost use Rattle.cs_wire.specs.Commands.{given, text_in, params_in};
ghost use Rattle.cs_body.specs.Transaction.{one, asked};
ghost use Rattle.cs_body.specs.Body.{aim_in};
ghost use Rattle.cs_body.specs.Taken.{KeepsAllBut, aim_keys};
ghost use Rattle.cs_body.specs.View.{aim};

use crate::txn::Target;
use cs_value::Fields;
use cs_wire::{has_keys, take_params, take_text};
use std::alloc::Global;

fn take_id(object: &mut Fields) -> Option<Target>
    ensures taken { option_map aim result
        ≡ option_map (λ id. one id) (text_in (codes "id") (fields object.old)) }
    ensures left { KeepsAllBut aim_keys (fields object.old) (fields object.new) }
{
    let id = take_text(object, "id")?;
    Some(Target::Id(id))
}

fn take_query(alloc: Global, object: &mut Fields) -> Option<Target>
    ensures taken { option_map aim result ≡ given
        (option_map (λ s params. asked s params) (text_in (codes "query") (fields object.old)))
        (params_in (fields object.old)) }
    ensures left { KeepsAllBut aim_keys (fields object.old) (fields object.new) }
{
    let text = take_text(object, "query")?;
    let params = take_params(alloc, object)?;
    Some(Target::Query { text, params })
}

// The target, moved out of the object. Beside `id` the object may have the keys of `beside_id`, and
// beside `query` those of `beside_query`, which are `params` and the same. `None` exactly where it
// has other keys, or a value of another type under one of a target's.
pub(crate) fn take_target(
    alloc: Global,
    object: &mut Fields,
    beside_id: &[&str],
    beside_query: &[&str],
) -> Option<Target>
    requires same { map (λ k. k.now) beside_query.now
        ≡ codes "params" ∷ map (λ k. k.now) beside_id.now }
    ensures taken { option_map aim result
        ≡ aim_in (map (λ k. k.now) beside_id.entry.now) (fields object.old) }
    ensures left { KeepsAllBut aim_keys (fields object.old) (fields object.new) }
{
    if has_keys(object, &["id"], beside_id) {
        return take_id(object);
    }
    if has_keys(object, &["query"], beside_query) {
        return take_query(alloc, object);
    }
    None
}

//! The typed parts of a command's object, each moved out of it.
ghost use Rattle.std.specs.Prelude.{◌≡◌, codes, option_map};
ghost use Rattle.cs_value.specs.Pairs.{without};
ghost use Rattle.cs_value.specs.View.{fields};
ghost use Rattle.cs_wire.specs.Commands.{text_in, name_in, params_in, flag_in};

use cs_value::{Fields, Txt, Val, is_id};
use std::alloc::Global;

/// The text under the key, moved out of the object. `None` exactly where the key is absent or has a
/// value of another type, which is then dropped.
pub fn take_text(object: &mut Fields, key: &str) -> Option<Txt>
    ensures taken { result ≡ text_in key.now (fields object.old) }
    ensures left { fields object.new ≡ without key.now (fields object.old) }
{
    match object.take(key) {
        Some(Val::Text(text)) => Some(text),
        _ => None,
    }
}

// The name under the key: a text of the form of an id. `None` where there is none.
pub(crate) fn take_name(object: &mut Fields, key: &str) -> Option<Txt>
    ensures taken { result ≡ name_in key.now (fields object.old) }
    ensures left { fields object.new ≡ without key.now (fields object.old) }
{
    let name = take_text(object, key)?;
    if is_id(name.as_str()) {
        Some(name)
    } else {
        None
    }
}

/// The parameters, the object under `params`, moved out of the object, or an object without
/// attributes where the key is absent: that takes no memory. `None` exactly where `params` has a
/// value of another type, which is then dropped.
pub fn take_params(alloc: Global, object: &mut Fields) -> Option<Fields>
    ensures taken { option_map fields result ≡ params_in (fields object.old) }
    ensures left { fields object.new ≡ without (codes "params") (fields object.old) }
{
    match object.take("params") {
        None => Some(Fields::new(alloc)),
        Some(Val::Obj(params)) => Some(params),
        Some(_) => None,
    }
}

// The boolean under the key, or `false` where the key is absent; `None` where it has another type.
pub(crate) fn take_flag(object: &mut Fields, key: &str) -> Option<bool>
    ensures taken { result ≡ flag_in key.now (fields object.old) }
    ensures left { fields object.new ≡ without key.now (fields object.old) }
{
    match object.take(key) {
        None => Some(false),
        Some(Val::Bool(flag)) => Some(flag),
        Some(_) => None,
    }
}

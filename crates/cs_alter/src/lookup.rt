//! What stands at a location.
ghost use Rattle.std.specs.Prelude.{◌≡◌, option_map};
ghost use Rattle.cs_value.specs.View.{tree};
ghost use Rattle.cs_alter.specs.Within.{at, member};

use cs_jsonmatch::Part;
use cs_value::Val;

fn step_into<'v>(val: &'v Val, part: &Part) -> Option<&'v Val>
    ensures { option_map (λ v. tree v.now) result ≡ member part.now (tree val.now) }
{
    match part {
        Part::Name(name) => val.field(name.as_str()),
        Part::Pos(index) => {
            if let Val::List(items) = val {
                items.get(*index)
            } else {
                None
            }
        }
    }
}

/// What stands at the location. `None` exactly where nothing stands there.
pub fn look<'v>(val: &'v Val, location: &[Part]) -> Option<&'v Val>
    ensures { option_map (λ v. tree v.now) result ≡ at location.now (tree val.now) }
{
    let mut here = val;
    for part in location {
        let Some(next) = step_into(here, part) else {
            return None;
        };
        here = next;
    }
    Some(here)
}

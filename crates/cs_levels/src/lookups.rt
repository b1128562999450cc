//! The documents that the filter of a `*` is tried at.
ghost use Rattle.std.specs.Prelude.{◌≡◌, ◌∷◌, ◌++◌, [], IfOk, OnOk, map};
ghost use Rattle.cs_value.specs.View.{tree, fields};
ghost use Rattle.cs_syntax.specs.View.{expression};
ghost use Rattle.cs_view.specs.Scopes.{scope_of};
ghost use Rattle.cs_plan.specs.Filters.{key_in};
ghost use Rattle.cs_levels.specs.Tried.{tried};

use cs_parts::Source;
use cs_plan::{choose, filter_keys, first_by_kind, is_quiet};
use cs_syntax::Expr;
use cs_value::{Fields, NoMemory, Val};
use cs_view::{Record, Scope};
use std::alloc::Global;

/// The documents at which a filter is tried. The filter's key is noted, by whichever of its keys
/// they are found.
pub fn look_up<'s, S: Source<C>, C>(
    alloc: Global,
    condition: &Expr,
    frame: &Scope<'_>,
    params: &Fields,
    source: &'s S,
    keys: &mut Record,
    count: &mut C,
) -> Result<Vec<&'s Val>, NoMemory>
    ensures found { IfOk result (λ v. map (λ r. tree r.now) v.items ≡ tried (S.docs source.now)
        (fields params.now) (expression condition.now) (scope_of frame.now)) }
    ensures keys { OnOk result (keys.new ≡ keys.old ++ key_in (expression condition.now) (scope_of
        frame.now) (fields params.now) ∷ []) }
{
    if is_quiet(condition) {
        let all = filter_keys(alloc, condition, frame, params)?;
        let found = source.select_all(alloc, &all, count)?;
        keys.add(first_by_kind(all))?;
        return Ok(found);
    }
    let key = choose(alloc, condition, frame, params)?;
    let found = source.select(alloc, &key, count)?;
    keys.add(key)?;
    Ok(found)
}

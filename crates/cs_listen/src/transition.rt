//! What a listener sees of a change.
ghost use Rattle.std.specs.Prelude.{◌≡◌, option_map};
ghost use Rattle.cs_value.specs.View.{fields};
ghost use Rattle.cs_view.specs.View.{document_of, edit};
ghost use Rattle.cs_plain.specs.Predicates.{filter};
ghost use Rattle.cs_listen.specs.Events.{sees, turned, transition};
ghost use Rattle.cs_reply.specs.View.{transition as kind};

use cs_plain::{Plain, test};
use cs_reply::Transition;
use cs_value::Fields;
use cs_view::{Change, Doc};

// Whether the filter is true of what stands there: of nothing it is not.
fn sees(predicate: &Plain, params: &Fields, side: &Option<Doc>) -> bool
    ensures { result ≡ sees (filter predicate.now) (fields params.now)
        (option_map document_of side.now) }
{
    match side {
        Some(doc) => test(predicate, params, doc),
        None => false,
    }
}

fn turned(before: bool, after: bool) -> Option<Transition>
    ensures { option_map kind result ≡ turned before after }
{
    match (before, after) {
        (false, false) => None,
        (false, true) => Some(Transition::Appear),
        (true, false) => Some(Transition::Disappear),
        (true, true) => Some(Transition::Update),
    }
}

/// What a listener with this predicate sees of a change: `None` exactly where the filter is true
/// neither before nor after. It takes no memory.
pub fn transition_of(predicate: &Plain, params: &Fields, change: &Change) -> Option<Transition>
    ensures { option_map kind result ≡ transition (filter predicate.now) (fields params.now)
        (edit change.now) }
{
    turned(
        sees(predicate, params, &change.before),
        sees(predicate, params, &change.after),
    )
}

//! Whether changes touch keys. The documents of a change have its id, so that none is asked for its
//! own.
ghost use Rattle.std.specs.Prelude.{◌≡◌, true};
ghost use Rattle.cs_view.specs.Changes.{are_changes, is_of_id};
ghost use Rattle.cs_view.specs.Touched.{is_touched, touched, touches};
ghost use Rattle.cs_view.specs.View.{edit, edits};

use crate::change::Change;
use crate::key::Key;
use crate::record::is_touched;
use cs_value::Txt;

/// Whether some key is had by the document before or after some change, as [`Record::touched`] says
/// it of any keys, where the changes are such of a dataset: then no document is asked for its id. It
/// takes no memory.
///
/// [`Record::touched`]: crate::Record::touched
pub fn some_touched(keys: &[Key], changes: &[Change]) -> bool
    requires { are_changes (edits changes.now) ≡ true }
    ensures { result ≡ touched keys.now (edits changes.now) }
{
    for key in keys {
        if key_touched(key, changes) {
            return true;
        }
    }
    false
}

// The same of one key.
fn key_touched(key: &Key, changes: &[Change]) -> bool
    requires { are_changes (edits changes.now) ≡ true }
    ensures { result ≡ is_touched (edits changes.now) key.now }
{
    match key {
        Key::Id(id) => id_touched(id, changes),
        _ => is_touched(key, changes),
    }
}

// The same of the key of an id.
fn id_touched(id: &Txt, changes: &[Change]) -> bool
    requires { are_changes (edits changes.now) ≡ true }
    ensures { result ≡ is_touched (edits changes.now) (Key.Id id.now) }
{
    for change in changes {
        if is_of(id, change) {
            return true;
        }
    }
    false
}

// Whether the document before or after the change has the id.
fn is_of(id: &Txt, change: &Change) -> bool
    requires before { is_of_id (edit change.now).0 (edit change.now).1.0 ≡ true }
    requires after { is_of_id (edit change.now).0 (edit change.now).1.1 ≡ true }
    ensures { result ≡ touches (Key.Id id.now) (edit change.now) }
{
    change.stands() && change.id.as_str() == id.as_str()
}

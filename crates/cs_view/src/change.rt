//! Changes of a dataset.
ghost use Rattle.std.specs.Prelude.{◌≡◌, ◌||◌, is_some};

use crate::doc::Doc;
use cs_value::Txt;

/// A change of a dataset: the document that stands under an id before, and the one that stands
/// there after; `None` where none does.
///
/// A list of changes has strictly ascending ids, and each document in a change has the change's id.
#[derive(Drop)]
pub struct Change {
    pub id: Txt,
    pub before: Option<Doc>,
    pub after: Option<Doc>,
}

impl Change {
    /// Whether a document stands before the change or after it.
    pub fn stands(&self) -> bool
        ensures { result ≡ (is_some self.now.before || is_some self.now.after) }
    {
        self.before.is_some() || self.after.is_some()
    }
}

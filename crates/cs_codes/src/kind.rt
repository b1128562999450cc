//! The kinds of keys by which an index may find documents.
ghost use Rattle.std.specs.Prelude.{◌≡◌, true};
ghost use Rattle.cs_codes.specs.Kinds.{IsOfKind};

use cs_value::Txt;
use cs_view::{Key, Names};

/// A kind of keys: those that differ in their scalar or target alone.
#[derive(Drop)]
pub enum KeyKind {
    /// The values at the end of the names.
    Path(Names),
    /// The elements of the lists at the end of the names.
    Elem(Names),
    /// References.
    Ref,
}

// Whether the two are the same names.
fn are_same(one: &[Txt], other: &[Txt]) -> bool
    ensures { result ≡ true → one.now ≡ other.now }
{
    one == other
}

impl KeyKind {
    /// Whether the key is one of the kind. An id and all documents are of none.
    pub(crate) fn has(&self, key: &Key) -> bool
        ensures { result ≡ true → IsOfKind key.now self.now }
    {
        match (key, self) {
            (Key::Path(names, _), KeyKind::Path(own)) => are_same(names.texts(), own.texts()),
            (Key::Elem(names, _), KeyKind::Elem(own)) => are_same(names.texts(), own.texts()),
            (Key::Ref(_), KeyKind::Ref) => true,
            _ => false,
        }
    }

    // Whether the two are one kind. Nothing but time hangs on the answer.
    pub(crate) fn is(&self, other: &KeyKind) -> bool {
        match (self, other) {
            (KeyKind::Path(names), KeyKind::Path(own)) => are_same(names.texts(), own.texts()),
            (KeyKind::Elem(names), KeyKind::Elem(own)) => are_same(names.texts(), own.texts()),
            (KeyKind::Ref, KeyKind::Ref) => true,
            _ => false,
        }
    }
}

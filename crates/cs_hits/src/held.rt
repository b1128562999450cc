//! What is held for documents, by ascending id.
ghost use Rattle.std.specs.Prelude.{◌≡◌, ◌<◌, get_or, length, set, false, true, map, OnOk, IfOk, IfSome};
ghost use Rattle.cs_value.specs.Tree.{Tree};
ghost use Rattle.cs_view.specs.Dataset.{ascending, with_doc, without};
ghost use Rattle.cs_view.specs.View.{document_of};
ghost use Rattle.cs_hits.specs.Held.{IsPlaceOf, IsPut, IsTaken};

use cs_value::{NoMemory, Txt};
use cs_view::Doc;
use std::mem;

/// What is held for a document: it alone, or more beside it.
pub trait Held {
    ghost held: { Self → Tree };

    /// The document.
    fn doc(&self) -> &Doc
        ensures { document_of result.now ≡ held self.now };
}

impl Held for Doc {
    ghost held = { document_of };

    fn doc(&self) -> &Doc {
        self
    }
}

// Where what is held for the document of the id stands, or else the place that it would take.
fn seek<T: Held>(all: &[T], id: &Txt) -> Result<usize, usize>
    requires { ascending (map T.held all.now) ≡ true }
    ensures { IsPlaceOf id.now (map T.held all.now) result }
{
    all.binary_search_by(|one| one.doc().id().as_str().cmp(id.as_str()))
}

/// Puts one in the place of its document's id. Where one stood there, the place and that one are
/// given; `None` says that it stands between others now, or at an end. `NoMemory` where the list
/// cannot grow.
pub fn put<T: Held + Drop>(all: &mut Vec<T>, one: T) -> Result<Option<(usize, T)>, NoMemory>
    requires { ascending (map T.held all.old.items) ≡ true }
    ensures put { OnOk result (map T.held all.new.items
        ≡ with_doc (T.held one) (map T.held all.old.items)) }
    ensures among { OnOk result (IsPut one all.old.items all.new.items) }
    ensures stood { IfOk result (λ at. IfSome at (λ x. (x.0 < length all.old.items)
        × (all.new.items ≡ set all.old.items x.0 one)
        × ((d : T) → x.1 ≡ get_or all.old.items x.0 d))) }
{
    match seek(all, one.doc().id()) {
        Ok(place) => {
            let old = mem::replace(&mut all[place], one);
            Ok(Some((place, old)))
        }
        Err(place) => {
            all.insert(place, one)?;
            Ok(None)
        }
    }
}

/// Takes out what is held for the document of the id: whether there was something.
pub fn remove<T: Held + Drop>(all: &mut Vec<T>, id: &Txt) -> bool
    requires { ascending (map T.held all.old.items) ≡ true }
    ensures left { map T.held all.new.items ≡ without id.now (map T.held all.old.items) }
    ensures among { IsTaken all.old.items all.new.items }
    ensures none { result ≡ false → all.new.items ≡ all.old.items }
{
    match seek(all, id) {
        Ok(place) => {
            drop(all.remove(place));
            true
        }
        Err(_) => false,
    }
}

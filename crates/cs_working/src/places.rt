//! Places of a working dataset: below [`MOST_PLACES`] those of the store, and from there on those
//! of what is put.
ghost use Rattle.std.specs.Prelude.{◌≡◌, Some, IsSome, option_map};
ghost use Rattle.cs_view.specs.Dataset.{standing};
ghost use Rattle.cs_view.specs.View.{document_of};
ghost use Rattle.cs_shelf.specs.View.{documents};
ghost use Rattle.cs_working.specs.Working.{base, working, doc_at};

use crate::working::Working;
use cs_shelf::MOST_PLACES;
use cs_value::Txt;
use cs_view::Doc;

impl<'d> Working<'d> {
    // The place of what the store holds under the id.
    fn store_place(&self, id: &Txt) -> Option<u32>
        ensures { option_map (doc_at self.now) result
            ≡ option_map Some (standing id.now (base self.now)) }
    {
        self.store.docs().place(id)
    }

    // The place of what is put under the id.
    fn put_place(&self, id: &Txt) -> Option<u32>
        ensures { option_map (doc_at self.now) result
            ≡ option_map Some (standing id.now (documents self.now.put)) }
    {
        match self.put.place(id) {
            Some(place) => Some(MOST_PLACES + place),
            None => None,
        }
    }

    // The place of the document with the id: `None` exactly where there is none.
    pub(crate) fn place(&self, id: &Txt) -> Option<u32>
        ensures { option_map (doc_at self.now) result
            ≡ option_map Some (standing id.now (working self.now)) }
    {
        if self.touched.contains(id) {
            self.put_place(id)
        } else {
            self.store_place(id)
        }
    }

    // The document at a place where one stands.
    pub(crate) fn at(&self, place: u32) -> &Doc
        requires { IsSome (doc_at self.now place) }
        ensures { doc_at self.now place ≡ Some (document_of result.now) }
    {
        if place < MOST_PLACES {
            self.store.docs().at(place)
        } else {
            self.put.at(place - MOST_PLACES)
        }
    }
}

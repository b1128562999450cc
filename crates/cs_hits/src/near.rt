//! The documents near a bound, which settle an answer that is made of the first few of an order.
ghost use Rattle.std.specs.Prelude.{◌≡◌, false, true, map, IfOk, IfSome, OnOk, Some};
ghost use Rattle.cs_value.specs.View.{fields};
ghost use Rattle.cs_syntax.specs.Queries.{expression_of};
ghost use Rattle.cs_view.specs.Dataset.{ascending, kept_if, placed, without};
ghost use Rattle.cs_view.specs.Document.{id_of};
ghost use Rattle.cs_view.specs.View.{document_of, edit};
ghost use Rattle.cs_window.specs.Windowed.{is_filtered};
ghost use Rattle.cs_window.specs.Window.{is_near};
ghost use Rattle.cs_hits.specs.Near.{AreNearest, IsWithin, bound_of, is_near_hit, near_docs};

use crate::held::{put, remove};
use cs_eval::{hit, is_near, nearest, window};
use cs_syntax::Query;
use cs_value::{Fields, NoMemory, Txt, Val};
use cs_view::{Change, Doc};
use cs_window::place_bounds_window;
use std::alloc::Global;

/// What one of the documents behind an answer is ordered by, and those of them that do not stand
/// behind it, by ascending id.
#[derive(Drop)]
pub struct Near {
    pub bound: Vec<Val>,
    pub docs: Vec<Doc>,
}

/// Whether so many documents are no fewer than the window of the query has.
pub fn is_enough(query: &Query, count: usize) -> bool
    ensures { result ≡ true → IsWithin (expression_of query.now) count }
{
    match window(query) {
        Some(many) => many <= count,
        None => false,
    }
}

impl Near {
    /// Those of the documents that stand near the window of the query. `None` where it has none,
    /// and where it is not worth the while: the documents are few, or most of them are near.
    /// `NoMemory` where the allocator has no room for them.
    pub fn among(
        alloc: Global,
        query: &Query,
        params: &Fields,
        docs: &[Doc],
    ) -> Result<Option<Near>, NoMemory>
        requires { is_filtered (expression_of query.now) ≡ true }
        ensures { IfOk result (λ o. IfSome o
            (AreNearest (expression_of query.now) (fields params.now) (map document_of docs.now))) }
    {
        place_bounds_window();
        let Some(many) = window(query) else {
            return Ok(None);
        };
        let place = many + many / 2 + 4;
        if docs.len() <= place + place / 2 {
            return Ok(None);
        }
        let Some((bound, near)) = nearest(alloc, query, params, docs, place)? else {
            return Ok(None);
        };
        if near.len() > docs.len() / 4 * 3 {
            return Ok(None);
        }
        Ok(Some(Near { bound, docs: near }))
    }

    /// Puts a copy of the document in the place of its id where it does not stand behind the
    /// bound, and else takes out the one of its id: whether a document is or was there. `NoMemory`
    /// where the allocator has no room for it.
    pub fn put(
        &mut self,
        alloc: Global,
        query: &Query,
        params: &Fields,
        doc: &Doc,
    ) -> Result<bool, NoMemory>
        requires filtered { is_filtered (expression_of query.now) ≡ true }
        requires ascending { ascending (near_docs self.old) ≡ true }
        ensures placed { OnOk result (near_docs self.new ≡ placed (id_of (document_of doc.now))
            (kept_if (is_near (expression_of query.now) (fields params.now) (bound_of self.old))
            (Some (document_of doc.now))) (near_docs self.old)) }
        ensures same { IfOk result (λ b. b ≡ false → near_docs self.new ≡ near_docs self.old) }
        ensures bound { self.new.bound ≡ self.old.bound }
    {
        if is_near(alloc, query, params, &self.bound, doc)? {
            put(&mut self.docs, doc.copy()?)?;
            return Ok(true);
        }
        Ok(remove(&mut self.docs, doc.id()))
    }

    /// Brings them behind one change, where they are those of hits. `false` says that they are as
    /// before. `NoMemory` where the allocator has no room for what is put.
    pub fn place(
        &mut self,
        alloc: Global,
        query: &Query,
        params: &Fields,
        change: &Change,
    ) -> Result<bool, NoMemory>
        requires filtered { is_filtered (expression_of query.now) ≡ true }
        requires ascending { ascending (near_docs self.old) ≡ true }
        ensures placed { OnOk result (near_docs self.new ≡ placed (edit change.now).0
            (kept_if (is_near_hit (expression_of query.now) (fields params.now) (bound_of self.old))
            (edit change.now).1.1) (near_docs self.old)) }
        ensures same { IfOk result (λ b. b ≡ false → near_docs self.new ≡ near_docs self.old) }
        ensures bound { self.new.bound ≡ self.old.bound }
    {
        if let Some(doc) = &change.after {
            if hit(alloc, query, params, doc)? && is_near(alloc, query, params, &self.bound, doc)? {
                put(&mut self.docs, doc.copy()?)?;
                return Ok(true);
            }
        }
        Ok(remove(&mut self.docs, &change.id))
    }

    /// Takes out the document of the id: whether there was one.
    pub fn remove(&mut self, id: &Txt) -> bool
        requires { ascending (near_docs self.old) ≡ true }
        ensures left { near_docs self.new ≡ without id.now (near_docs self.old) }
        ensures same { result ≡ false → near_docs self.new ≡ near_docs self.old }
        ensures bound { self.new.bound ≡ self.old.bound }
    {
        remove(&mut self.docs, id)
    }
}

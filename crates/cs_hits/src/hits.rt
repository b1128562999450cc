//! The documents that make a filter true, of which an answer is made, kept as documents change.
ghost use Rattle.std.specs.Prelude.{◌≡◌, ◌≤◌, ◌+◌, None, false, true, map, IfOk, OnOk};
ghost use Rattle.cs_value.specs.Tree.{Pairs};
ghost use Rattle.cs_value.specs.View.{fields};
ghost use Rattle.cs_syntax.specs.Expression.{Expression};
ghost use Rattle.cs_syntax.specs.Queries.{expression_of};
ghost use Rattle.cs_view.specs.Changes.{after_changes, are_changes, changes_where};
ghost use Rattle.cs_view.specs.Dataset.{standing, ascending, kept_if, placed, with_doc, without};
ghost use Rattle.cs_view.specs.View.{document_of, edit, edits};
ghost use Rattle.cs_meaning.specs.Hits.{cost, is_hit};
ghost use Rattle.cs_window.specs.Windowed.{is_filtered};
ghost use Rattle.cs_hits.specs.Hits.{AreEnough, AreHits, AreNear, KeepsBound, NoneIsNew, docs_of, settling};

use crate::held::{put, remove};
use crate::near::{Near, is_enough};
use cs_eval::{hit, hits};
use cs_syntax::Query;
use cs_value::{Fields, NoMemory, Steps, Txt};
use cs_view::{Change, Doc, View};
use cs_window::{nearer_is_within, window_settles_tail};
use std::alloc::Global;
use std::sync::ledger::Ledger;

/// The documents that make the filter of a query true, by ascending id, and those of them that
/// stand near its window, where it has one and they are many.
#[derive(Drop)]
pub struct Hits {
    pub docs: Vec<Doc>,
    pub near: Option<Near>,
}

impl Hits {
    /// The hits of the query in the view. No more documents are visited than have its key.
    /// `NoMemory` where the allocator has no room for them.
    pub fn find<V: View<L>, L: Ledger>(
        alloc: Global,
        query: &Query,
        params: &Fields,
        view: &V,
        steps: &mut Steps<L>,
    ) -> Result<Hits, NoMemory>
        requires { is_filtered (expression_of query.now) ≡ true }
        ensures hits { IfOk result
            (AreHits (V.docs view.now) (expression_of query.now) (fields params.now)) }
        ensures visits { steps.new
            ≤ steps.old + cost (expression_of query.now) (fields params.now) (V.docs view.now) }
    {
        let docs = hits(alloc, query, params, view, steps)?;
        let near = Near::among(alloc, query, params, &docs)?;
        Ok(Hits { docs, near })
    }

    /// The documents that settle the answer: those near its window, or all.
    pub fn settling(&self) -> &[Doc]
        ensures { map document_of result.now ≡ settling self.now }
    {
        match &self.near {
            Some(near) => &near.docs,
            None => &self.docs,
        }
    }

    // Puts a copy of a document of which the filter is true in the place of its id. `false` says
    // that what settles the answer is as before.
    fn put(
        &mut self,
        alloc: Global,
        query: &Query,
        params: &Fields,
        doc: &Doc,
    ) -> Result<bool, NoMemory>
        requires filtered { is_filtered (expression_of query.now) ≡ true }
        requires ascending { ascending (docs_of self.old) ≡ true }
        requires near { AreNear (expression_of query.now) (fields params.now) self.old }
        ensures put { OnOk result (docs_of self.new
            ≡ with_doc (document_of doc.now) (docs_of self.old)) }
        ensures near { OnOk result
            (AreNear (expression_of query.now) (fields params.now) self.new) }
        ensures same { IfOk result (λ b. b ≡ false → settling self.new ≡ settling self.old) }
        ensures bound { KeepsBound self.old self.new }
    {
        put(&mut self.docs, doc.copy()?)?;
        match &mut self.near {
            Some(near) => near.put(alloc, query, params, doc),
            None => Ok(true),
        }
    }

    // Takes out the document of the id. `false` says that what settles the answer is as before.
    fn remove(&mut self, id: &Txt) -> bool
        requires ascending { ascending (docs_of self.old) ≡ true }
        requires settling { ascending (settling self.old) ≡ true }
        ensures left { docs_of self.new ≡ without id.now (docs_of self.old) }
        ensures near { (e : Expression) (params : Pairs) → AreNear e params self.old
            → AreNear e params self.new }
        ensures same { result ≡ false → settling self.new ≡ settling self.old }
        ensures bound { KeepsBound self.old self.new }
    {
        let gone = remove(&mut self.docs, id);
        match &mut self.near {
            Some(near) => near.remove(id),
            None => gone,
        }
    }

    // Brings the hits behind one change. `false` says that what settles the answer is as before.
    fn place(
        &mut self,
        alloc: Global,
        query: &Query,
        params: &Fields,
        change: &Change,
    ) -> Result<bool, NoMemory>
        requires filtered { is_filtered (expression_of query.now) ≡ true }
        requires ascending { ascending (docs_of self.old) ≡ true }
        requires near { AreNear (expression_of query.now) (fields params.now) self.old }
        requires new { (edit change.now).1.0 ≡ None
            → standing (edit change.now).0 (docs_of self.old) ≡ None }
        ensures placed { OnOk result (docs_of self.new ≡ placed (edit change.now).0
            (kept_if (is_hit (expression_of query.now) (fields params.now)) (edit change.now).1.1)
            (docs_of self.old)) }
        ensures near { OnOk result
            (AreNear (expression_of query.now) (fields params.now) self.new) }
        ensures same { IfOk result (λ b. b ≡ false → settling self.new ≡ settling self.old) }
        ensures bound { OnOk result (KeepsBound self.old self.new) }
    {
        if let Some(doc) = &change.after {
            if hit(alloc, query, params, doc)? {
                return self.put(alloc, query, params, doc);
            }
        }
        // What is new was not among them.
        if change.before.is_none() {
            return Ok(false);
        }
        Ok(self.remove(&change.id))
    }

    /// Brings the hits behind the changes. `false` says that what settles the answer is as before.
    /// Nothing is asked of a view. After `NoMemory` they are of no more use.
    pub fn follow(
        &mut self,
        alloc: Global,
        query: &Query,
        params: &Fields,
        changes: &[Change],
    ) -> Result<bool, NoMemory>
        requires filtered { is_filtered (expression_of query.now) ≡ true }
        requires ascending { ascending (docs_of self.old) ≡ true }
        requires near { AreNear (expression_of query.now) (fields params.now) self.old }
        requires changes { are_changes (edits changes.now) ≡ true }
        requires new { NoneIsNew (edits changes.now) (docs_of self.old) }
        ensures docs { OnOk result (docs_of self.new
            ≡ after_changes (docs_of self.old) (changes_where
            (is_hit (expression_of query.now) (fields params.now)) (edits changes.now))) }
        ensures near { OnOk result
            (AreNear (expression_of query.now) (fields params.now) self.new) }
        ensures same { IfOk result (λ b. b ≡ false → settling self.new ≡ settling self.old) }
        ensures bound { OnOk result (KeepsBound self.old self.new) }
    {
        let mut touched = false;
        let mut left = changes.len();
        while left > 0 {
            left -= 1;
            let moved = self.place(alloc, query, params, &changes[left])?;
            touched = touched | moved;
        }
        Ok(touched)
    }

    /// Keeps no documents near the window where too few are left.
    pub fn loosen(&mut self, query: &Query)
        ensures docs { docs_of self.new ≡ docs_of self.old }
        ensures near { (params : Pairs) → AreNear (expression_of query.now) params self.old
            → AreNear (expression_of query.now) params self.new }
        ensures enough { (params : Pairs) → AreNear (expression_of query.now) params self.old
            → AreEnough (expression_of query.now) params self.new }
    {
        let enough = match &self.near {
            Some(near) => is_enough(query, near.docs.len()),
            None => true,
        };
        if !enough {
            self.near = None;
        }
    }

    /// Keeps fewer documents near the window where there are many. `NoMemory` where the allocator
    /// has no room to order them.
    pub fn narrow(&mut self, alloc: Global, query: &Query, params: &Fields) -> Result<(), NoMemory>
        requires filtered { is_filtered (expression_of query.now) ≡ true }
        requires near { AreNear (expression_of query.now) (fields params.now) self.old }
        requires enough { AreEnough (expression_of query.now) (fields params.now) self.old }
        ensures near { AreNear (expression_of query.now) (fields params.now) self.new }
        ensures enough { AreEnough (expression_of query.now) (fields params.now) self.new }
        ensures docs { docs_of self.new ≡ docs_of self.old }
    {
        window_settles_tail();
        nearer_is_within();
        if let Some(near) = Near::among(alloc, query, params, self.settling())? {
            self.near = Some(near);
        }
        Ok(())
    }
}

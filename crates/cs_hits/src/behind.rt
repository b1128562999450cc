//! The documents behind the answer of a windowed query: those near its window, or all of its hits.
ghost use Rattle.std.specs.Prelude.{◌≡◌, ◌≤◌, ◌+◌, List, false, true, map, IfOk, OnOk};
ghost use Rattle.cs_value.specs.Tree.{Tree, Pairs};
ghost use Rattle.cs_value.specs.View.{fields};
ghost use Rattle.cs_syntax.specs.Queries.{expression_of};
ghost use Rattle.cs_view.specs.Changes.{after_changes, changes_where};
ghost use Rattle.cs_view.specs.Dataset.{ascending, kept_if, placed};
ghost use Rattle.cs_view.specs.View.{document_of, edit, edits};
ghost use Rattle.cs_meaning.specs.Hits.{cost};
ghost use Rattle.cs_window.specs.Windowed.{is_filtered};
ghost use Rattle.cs_hits.specs.Behind.{AreBehind, AreEnoughBehind, KeepsKind, held_docs, is_held};

use crate::held::{put, remove};
use crate::near::{Near, is_enough};
use cs_eval::{hit, hits};
use cs_syntax::Query;
use cs_value::{Fields, NoMemory, Steps};
use cs_view::{Change, Doc, View};
use cs_window::nearer_is_within;
use std::alloc::Global;
use std::sync::ledger::Ledger;

/// The documents behind the answer of a windowed query, by ascending id.
#[derive(Drop)]
pub enum Behind {
    /// All hits, where they are few or most of them are near the window.
    All(Vec<Doc>),
    /// The hits near the window alone.
    Window(Near),
}

impl Behind {
    /// Those of the query in the view. No more documents are visited than have its key. `NoMemory`
    /// where the allocator has no room for them.
    pub fn find<V: View<L>, L: Ledger>(
        alloc: Global,
        query: &Query,
        params: &Fields,
        view: &V,
        steps: &mut Steps<L>,
    ) -> Result<Behind, NoMemory>
        requires { is_filtered (expression_of query.now) ≡ true }
        ensures are { IfOk result
            (AreBehind (V.docs view.now) (expression_of query.now) (fields params.now)) }
        ensures enough { IfOk result
            (AreEnoughBehind (V.docs view.now) (expression_of query.now) (fields params.now)) }
        ensures visits { steps.new
            ≤ steps.old + cost (expression_of query.now) (fields params.now) (V.docs view.now) }
    {
        let docs = hits(alloc, query, params, view, steps)?;
        match Near::among(alloc, query, params, &docs)? {
            Some(near) => Ok(Behind::Window(near)),
            None => Ok(Behind::All(docs)),
        }
    }

    /// The documents.
    pub fn docs(&self) -> &[Doc]
        ensures { map document_of result.now ≡ held_docs self.now }
    {
        match self {
            Behind::All(docs) => docs,
            Behind::Window(near) => &near.docs,
        }
    }

    // Brings them behind one change. `false` says that they are as before.
    fn place(
        &mut self,
        alloc: Global,
        query: &Query,
        params: &Fields,
        change: &Change,
    ) -> Result<bool, NoMemory>
        requires filtered { is_filtered (expression_of query.now) ≡ true }
        requires ascending { ascending (held_docs self.old) ≡ true }
        ensures placed { OnOk result (held_docs self.new ≡ placed (edit change.now).0
            (kept_if (is_held (expression_of query.now) (fields params.now) self.old)
            (edit change.now).1.1) (held_docs self.old)) }
        ensures same { IfOk result (λ b. b ≡ false → held_docs self.new ≡ held_docs self.old) }
        ensures kind { OnOk result (KeepsKind self.old self.new) }
    {
        match self {
            Behind::All(docs) => {
                if let Some(doc) = &change.after {
                    if hit(alloc, query, params, doc)? {
                        put(docs, doc.copy()?)?;
                        return Ok(true);
                    }
                }
                Ok(remove(docs, &change.id))
            }
            Behind::Window(near) => near.place(alloc, query, params, change),
        }
    }

    /// Brings them behind the changes. `false` says that they are as before. Nothing is asked of a
    /// view. After `NoMemory` they are of no more use.
    pub fn follow(
        &mut self,
        alloc: Global,
        query: &Query,
        params: &Fields,
        changes: &[Change],
    ) -> Result<bool, NoMemory>
        requires filtered { is_filtered (expression_of query.now) ≡ true }
        requires ascending { ascending (held_docs self.old) ≡ true }
        ensures docs { OnOk result (held_docs self.new
            ≡ after_changes (held_docs self.old) (changes_where
            (is_held (expression_of query.now) (fields params.now) self.old) (edits changes.now))) }
        ensures same { IfOk result (λ b. b ≡ false → held_docs self.new ≡ held_docs self.old) }
        ensures kind { OnOk result (KeepsKind self.old self.new) }
    {
        let mut touched = false;
        let mut left = changes.len();
        while left > 0 {
            left -= 1;
            let moved = self.place(alloc, query, params, &changes[left])?;
            touched = touched | moved;
        }
        Ok(touched)
    }

    // Whether no fewer are left near the window than it has.
    fn is_enough(&self, query: &Query) -> bool
        ensures { result ≡ true → (docs : List Tree) (params : Pairs)
            → AreBehind docs (expression_of query.now) params self.now
            → AreEnoughBehind docs (expression_of query.now) params self.now }
    {
        match self {
            Behind::All(_) => true,
            Behind::Window(near) => is_enough(query, near.docs.len()),
        }
    }

    /// Finds them anew where fewer are left near the window than it has. No more documents are
    /// visited than have the query's key. `NoMemory` where the allocator has no room for them.
    pub fn fill<V: View<L>, L: Ledger>(
        &mut self,
        alloc: Global,
        query: &Query,
        params: &Fields,
        view: &V,
        steps: &mut Steps<L>,
    ) -> Result<(), NoMemory>
        requires filtered { is_filtered (expression_of query.now) ≡ true }
        requires are { AreBehind (V.docs view.now) (expression_of query.now) (fields params.now)
            self.old }
        ensures are { OnOk result (AreBehind (V.docs view.now) (expression_of query.now)
            (fields params.now) self.new) }
        ensures enough { OnOk result (AreEnoughBehind (V.docs view.now) (expression_of query.now)
            (fields params.now) self.new) }
        ensures visits { steps.new
            ≤ steps.old + cost (expression_of query.now) (fields params.now) (V.docs view.now) }
    {
        if !self.is_enough(query) {
            *self = Behind::find(alloc, query, params, view, steps)?;
        }
        Ok(())
    }

    /// Keeps fewer of them where there are many. `NoMemory` where the allocator has no room to
    /// order them.
    pub fn narrow(&mut self, alloc: Global, query: &Query, params: &Fields) -> Result<(), NoMemory>
        requires { is_filtered (expression_of query.now) ≡ true }
        ensures { (docs : List Tree)
            → AreBehind docs (expression_of query.now) (fields params.now) self.old
            → AreEnoughBehind docs (expression_of query.now) (fields params.now) self.old
            → AreBehind docs (expression_of query.now) (fields params.now) self.new
            × AreEnoughBehind docs (expression_of query.now) (fields params.now) self.new }
    {
        nearer_is_within();
        if let Some(near) = Near::among(alloc, query, params, self.docs())? {
            *self = Behind::Window(near);
        }
        Ok(())
    }
}

//! Prepared changes put into the store. What is copied comes first, then what stands under new ids,
//! which is undone where memory is refused, and then what takes no memory.
ghost use Rattle.std.specs.Prelude.{◌≡◌, ◌++◌, [], true, OnOk, OnErr, IfOk, map};
ghost use Rattle.std.specs.List.{AllByRecursion};
ghost use Rattle.std.specs.Option.{option_to_list};
ghost use Rattle.cs_view.specs.Changes.{after_changes, LeadFrom};
ghost use Rattle.cs_view.specs.Dataset.{stands};
ghost use Rattle.cs_view.specs.Document.{id_of};
ghost use Rattle.cs_view.specs.View.{document_of, edit, edits};
ghost use Rattle.cs_shelf.specs.View.{documents, StayIn, AreSteady};
ghost use Rattle.cs_docs.specs.Installing.{entered, replaced, put, is_new, is_gone, picked, with_all, without_all};
ghost use Rattle.cs_docs.specs.Verdict.{AreTaken};
ghost use Rattle.cs_docs.specs.Store.{docs, prepared as changes_of, AreChanges, ArePlacesSteady};

use crate::docs::Docs;
use crate::prepared::Prepared;
use cs_shelf::Shelf;
use cs_value::NoMemory;
use cs_view::{Change, Doc};
use std::alloc::Global;

// Copies of what changes put: under new ids, and in the place of other documents.
#[derive(Drop)]
struct Copies {
    entering: Vec<Doc>,
    replacing: Vec<Doc>,
}

impl Copies {
    // One more copy, of what the change puts, if anything.
    fn add(&mut self, change: &Change) -> Result<(), NoMemory>
        ensures entering { OnOk result (map document_of self.new.entering.items
            ≡ map document_of self.old.entering.items
            ++ option_to_list (entered (edit change.now).1)) }
        ensures replacing { OnOk result (map document_of self.new.replacing.items
            ≡ map document_of self.old.replacing.items
            ++ option_to_list (replaced (edit change.now).1)) }
    {
        if let Some(after) = &change.after {
            let copy = after.copy()?;
            match &change.before {
                Some(_) => self.replacing.push(copy)?,
                None => self.entering.push(copy)?,
            }
        }
        Ok(())
    }
}

fn make_copies(alloc: Global, changes: &[Change]) -> Result<Copies, NoMemory>
    ensures entering { IfOk result
        (λ c. map document_of c.entering.items ≡ picked entered (edits changes.now)) }
    ensures replacing { IfOk result
        (λ c. map document_of c.replacing.items ≡ picked replaced (edits changes.now)) }
{
    let mut copies = Copies {
        entering: Vec::new(alloc),
        replacing: Vec::new(alloc),
    };
    for change in changes {
        copies.add(change)?;
    }
    Ok(copies)
}

// Takes out what stands under the ids that are new in the changes.
fn leave(shelf: &mut Shelf, changes: &[Change])
    ensures left { documents shelf.new
        ≡ without_all is_new (edits changes.now) (documents shelf.old) }
    ensures stood { StayIn shelf.new shelf.old }
{
    for change in changes {
        if change.before.is_none() {
            shelf.remove(&change.id);
        }
    }
}

// Puts the documents of new ids. Without memory nothing changes.
fn enter(shelf: &mut Shelf, changes: &[Change], entering: Vec<Doc>) -> Result<(), NoMemory>
    requires changes { AreChanges changes.now }
    requires leads { LeadFrom (documents shelf.old) (edits changes.now) }
    requires these { map document_of entering.items ≡ picked entered (edits changes.now) }
    ensures entered { OnOk result (documents shelf.new
        ≡ with_all (picked entered (edits changes.now)) (documents shelf.old)) }
    ensures kept { OnErr result (documents shelf.new ≡ documents shelf.old) }
    ensures stay { OnOk result (StayIn shelf.old shelf.new) }
    ensures steady { OnErr result (AreSteady shelf.old shelf.new) }
{
    for document in entering {
        match shelf.add(document) {
            Ok(()) => {}
            Err(refused) => {
                leave(shelf, changes);
                return Err(refused);
            }
        }
    }
    Ok(())
}

// Puts the documents in the place of those of their ids. It takes no memory.
fn replace(shelf: &mut Shelf, replacing: Vec<Doc>)
    requires { AllByRecursion (λ d. stands (id_of d) (documents shelf.old) ≡ true)
        (map document_of replacing.items) }
    ensures replaced { documents shelf.new
        ≡ with_all (map document_of replacing.items) (documents shelf.old) }
    ensures stay { StayIn shelf.old shelf.new }
{
    for document in replacing {
        shelf.replace(document);
    }
}

// Takes out what changes take away. It takes no memory.
fn remove(shelf: &mut Shelf, changes: &[Change])
    ensures removed { documents shelf.new
        ≡ without_all is_gone (edits changes.now) (documents shelf.old) }
    ensures stood { StayIn shelf.new shelf.old }
{
    for change in changes {
        if change.after.is_none() {
            shelf.remove(&change.id);
        }
    }
}

// The documents that changes put, moved out of them.
fn put_documents(alloc: Global, changes: Vec<Change>) -> Result<Vec<Doc>, NoMemory>
    ensures { IfOk result (λ ds. map document_of ds.items ≡ picked put (edits changes.items)) }
{
    let mut documents = Vec::with_capacity(alloc, changes.len())?;
    for change in changes {
        let Change { after, .. } = change;
        if let Some(document) = after {
            documents.push(document)?;
        }
    }
    Ok(documents)
}

// Puts what changes put and takes out what they take away. Without memory nothing changes.
fn install(shelf: &mut Shelf, changes: &[Change]) -> Result<(), NoMemory>
    requires changes { AreChanges changes.now }
    requires leads { LeadFrom (documents shelf.old) (edits changes.now) }
    ensures installed { OnOk result (documents shelf.new
        ≡ after_changes (documents shelf.old) (edits changes.now)) }
    ensures kept { OnErr result (documents shelf.new ≡ documents shelf.old) }
    ensures steady { AreSteady shelf.old shelf.new }
{
    let Copies {
        entering,
        replacing,
    } = make_copies(shelf.alloc(), changes)?;
    enter(shelf, changes, entering)?;
    replace(shelf, replacing);
    remove(shelf, changes);
    Ok(())
}

impl Docs {
    /// Installs prepared changes: documents are copied out of them. `NoMemory` where the allocator
    /// has no room for them; nothing changes then. Each change costs some look-ups by id.
    pub fn install(&mut self, prepared: &Prepared) -> Result<(), NoMemory>
        requires { AreTaken (docs self.old) (changes_of prepared.now) }
        ensures installed { OnOk result (docs self.new
            ≡ after_changes (docs self.old) (changes_of prepared.now)) }
        ensures kept { OnErr result (docs self.new ≡ docs self.old) }
        ensures steady { ArePlacesSteady self.old self.new }
    {
        install(&mut self.shelf, prepared.changes())
    }

    /// The store of changes that are prepared for the empty one. The documents are moved, and none
    /// is copied. `NoMemory` where the allocator has no room for their places.
    pub fn of(alloc: Global, prepared: Prepared) -> Result<Docs, NoMemory>
        requires { AreTaken [] (changes_of prepared) }
        ensures { IfOk result (λ d. docs d ≡ after_changes [] (changes_of prepared)) }
    {
        let Prepared { changes, .. } = prepared;
        let documents = put_documents(alloc, changes)?;
        let shelf = Shelf::of(alloc, documents)?;
        Ok(Docs { shelf })
    }
}

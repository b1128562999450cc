//! A patch whose paths were read, and a patch applied to a document.
ghost use Rattle.std.specs.Prelude.{◌≡◌, None, Some, IfOk, IfErr, OnOk, MatchResult};
ghost use Rattle.cs_value.specs.View.{tree};
ghost use Rattle.cs_view.specs.Document.{rev_of};
ghost use Rattle.cs_view.specs.View.{document_of};
ghost use Rattle.cs_patch.specs.Operations.{document, refused, and_then, set_path, unset_path, inc_path, dec_path};
ghost use Rattle.cs_patch.specs.Patched.{paths, first_fault, in_turn, maybe_insert, operations, patched, revision_refusal};
ghost use Rattle.cs_patch.specs.View.{patch as patch_of};
ghost use Rattle.cs_patch.specs.Readings.{ArePathsShort};
ghost use Rattle.cs_patch.specs.Read.{read_patch};
ghost use Rattle.cs_patch.specs.Faults.{IsPatchFault, IsPathsFault};
ghost use Rattle.cs_patch.specs.Outcomes.{Tells};

use crate::entries::{InsertAt, NumberAt, RemovalAt, ValueAt};
use crate::fault::{PatchFault, PathsFault};
use crate::insert::insert;
use crate::laws::patched_is_a_document;
use crate::patch::Patch;
use crate::read::{insert_at, numbers_at, removals_at, values_at};
use crate::stamp::stamp;
use crate::turns::{dec_all, inc_all, set_all, set_all_missing, unset_all};
use cs_value::{Txt, Val};
use cs_view::Doc;
use std::alloc::Global;

/// A patch whose paths were read, once for all the documents that it is applied to. It borrows the
/// patch. Contracts see it as the patch that it was read from.
#[derive(Drop)]
pub struct ReadPatch<'p> {
    pub(crate) if_revision: Option<&'p Txt>,
    pub(crate) set_if_missing: Vec<ValueAt<'p>>,
    pub(crate) set: Vec<ValueAt<'p>>,
    pub(crate) unset: Vec<RemovalAt<'p>>,
    pub(crate) inc: Vec<NumberAt<'p>>,
    pub(crate) dec: Vec<NumberAt<'p>>,
    pub(crate) insert: Option<InsertAt<'p>>,
}

impl<'p> ReadPatch<'p> {
    /// Reads the paths of a patch, in the order of the operations. `BadPath` comes for the first
    /// text that is no path, and `NoMemory` where the allocator has no room. Each text has fewer
    /// than 2^32 bytes.
    pub fn read(alloc: Global, patch: &'p Patch) -> Result<ReadPatch<'p>, PathsFault>
        requires short { ArePathsShort (patch_of patch.now) }
        ensures read { IfOk result (λ r. read_patch r ≡ patch_of patch.now) }
        ensures spelled { OnOk result (first_fault (paths (patch_of patch.now)) ≡ None) }
        ensures refused { IfErr result (λ f. IsPathsFault f (patch_of patch.now)) }
    {
        Ok(ReadPatch {
            if_revision: patch.if_revision.as_ref(),
            set_if_missing: values_at(alloc, &patch.set_if_missing)?,
            set: values_at(alloc, &patch.set)?,
            unset: removals_at(alloc, &patch.unset)?,
            inc: numbers_at(alloc, &patch.inc)?,
            dec: numbers_at(alloc, &patch.dec)?,
            insert: insert_at(alloc, &patch.insert)?,
        })
    }

    // The revision that a document must have is asked for first.
    fn check_revision(&self, alloc: Global, doc: &Doc) -> Result<(), PatchFault>
        ensures { MatchResult result
            (λ _. revision_refusal (read_patch self.now).if_revision
            (rev_of (document_of doc.now)) ≡ None)
            (IsPatchFault (λ r. revision_refusal (read_patch self.now).if_revision
            (rev_of (document_of doc.now)) ≡ Some r)) }
    {
        let Some(expected) = self.if_revision else {
            return Ok(());
        };
        let found = doc.rev();
        if expected.as_str() == found.as_str() {
            return Ok(());
        }
        Err(PatchFault::Revision {
            expected: expected.copy(alloc)?,
            found: found.copy(alloc)?,
        })
    }

    // `insert`, which comes last.
    fn put(&self, alloc: Global, val: &mut Val) -> Result<(), PatchFault>
        ensures { Tells result (tree val.new)
            (maybe_insert (read_patch self.now).insert (tree val.old)) }
    {
        match &self.insert {
            Some(entry) => insert(alloc, val, entry),
            None => Ok(()),
        }
    }

    // The operations from `dec` on.
    fn from_dec(&self, alloc: Global, val: &mut Val) -> Result<(), PatchFault>
        ensures { Tells result (tree val.new)
            (and_then (maybe_insert (read_patch self.now).insert)
            (in_turn dec_path (read_patch self.now).dec (tree val.old))) }
    {
        match dec_all(alloc, val, &self.dec) {
            Ok(()) => self.put(alloc, val),
            Err(fault) => Err(fault),
        }
    }

    // The operations from `inc` on.
    fn from_inc(&self, alloc: Global, val: &mut Val) -> Result<(), PatchFault>
        ensures { Tells result (tree val.new)
            (and_then (maybe_insert (read_patch self.now).insert)
            (and_then (in_turn dec_path (read_patch self.now).dec)
            (in_turn inc_path (read_patch self.now).inc (tree val.old)))) }
    {
        match inc_all(alloc, val, &self.inc) {
            Ok(()) => self.from_dec(alloc, val),
            Err(fault) => Err(fault),
        }
    }

    // The operations from `unset` on.
    fn from_unset(&self, alloc: Global, val: &mut Val) -> Result<(), PatchFault>
        ensures { Tells result (tree val.new)
            (and_then (maybe_insert (read_patch self.now).insert)
            (and_then (in_turn dec_path (read_patch self.now).dec)
            (and_then (in_turn inc_path (read_patch self.now).inc)
            (in_turn unset_path (read_patch self.now).unset (tree val.old))))) }
    {
        match unset_all(alloc, val, &self.unset) {
            Ok(()) => self.from_inc(alloc, val),
            Err(fault) => Err(fault),
        }
    }

    // The operations from `set` on.
    fn from_set(&self, alloc: Global, val: &mut Val) -> Result<(), PatchFault>
        ensures { Tells result (tree val.new)
            (and_then (maybe_insert (read_patch self.now).insert)
            (and_then (in_turn dec_path (read_patch self.now).dec)
            (and_then (in_turn inc_path (read_patch self.now).inc)
            (and_then (in_turn unset_path (read_patch self.now).unset)
            (in_turn set_path (read_patch self.now).set (tree val.old)))))) }
    {
        match set_all(alloc, val, &self.set) {
            Ok(()) => self.from_unset(alloc, val),
            Err(fault) => Err(fault),
        }
    }

    // The operations, in their order.
    fn work(&self, alloc: Global, val: &mut Val) -> Result<(), PatchFault>
        ensures { Tells result (tree val.new)
            (operations (read_patch self.now) (tree val.old)) }
    {
        match set_all_missing(alloc, val, &self.set_if_missing) {
            Ok(()) => self.from_set(alloc, val),
            Err(fault) => Err(fault),
        }
    }

    // What the operations make of a copy of the document.
    fn worked(&self, alloc: Global, doc: &Doc) -> Result<Val, PatchFault>
        ensures { MatchResult result
            (λ v. operations (read_patch self.now) (document_of doc.now) ≡ document (tree v))
            (IsPatchFault (λ r. operations (read_patch self.now) (document_of doc.now)
            ≡ refused r)) }
    {
        let mut val = doc.val().copy(alloc)?;
        match self.work(alloc, &mut val) {
            Ok(()) => Ok(val),
            Err(fault) => Err(fault),
        }
    }

    /// The document that the patch makes of a document, in the transaction `tx` at the moment: the
    /// document is copied once, and the copy changed. Each fault comes exactly where the patch is
    /// refused for that cause: `Revision` first, then the operations' own in their order, each path
    /// on the outcome of the one before. `NoMemory` comes where the allocator has no room.
    pub fn apply(&self, alloc: Global, doc: &Doc, tx: &Txt, moment: &Txt) -> Result<Doc, PatchFault>
        ensures done { IfOk result (λ d. patched (read_patch self.now) (document_of doc.now) tx.now
            moment.now ≡ document (document_of d)) }
        ensures refused { IfErr result (IsPatchFault (λ r. patched (read_patch self.now)
            (document_of doc.now) tx.now moment.now ≡ refused r)) }
    {
        patched_is_a_document();
        self.check_revision(alloc, doc)?;
        let worked = self.worked(alloc, doc)?;
        let stamped = stamp(alloc, worked, tx, moment)?;
        Ok(Doc::of(alloc, stamped)?)
    }
}

/// Reads the paths of a patch and applies it to one document: see [`ReadPatch::apply`]. The texts
/// are paths, each of fewer than 2^32 bytes.
pub fn apply(
    alloc: Global,
    patch: &Patch,
    doc: &Doc,
    tx: &Txt,
    moment: &Txt,
) -> Result<Doc, PatchFault>
    requires short { ArePathsShort (patch_of patch.now) }
    requires spelled { first_fault (paths (patch_of patch.now)) ≡ None }
    ensures done { IfOk result (λ d. patched
        (patch_of patch.now) (document_of doc.now) tx.now moment.now
        ≡ document (document_of d)) }
    ensures refused { IfErr result (IsPatchFault (λ r. patched
        (patch_of patch.now) (document_of doc.now)
        tx.now moment.now ≡ refused r)) }
{
    match ReadPatch::read(alloc, patch) {
        Ok(read) => read.apply(alloc, doc, tx, moment),
        Err(_) => Err(PatchFault::NoMemory),
    }
}

//! The laws of patches, for proofs: each function does nothing, and its contract is the law.
ghost use Rattle.cs_patch.specs.Laws.{PatchedIsADocument, NothingAskedIsStamped, NoTargetsNoChange, NoParentsNoChange};

use cs_jsonmatch::each_text_is_read;

/// A patched document is a document with the same id.
pub fn patched_is_a_document()
    ensures { PatchedIsADocument }
{
    each_text_is_read();
}

/// A patch without operations changes `_rev` and `_updatedAt` alone.
pub fn nothing_asked_is_stamped()
    ensures { NothingAskedIsStamped }
{}

/// A path without targets leaves the document, whatever is asked of it.
pub fn no_targets_no_change()
    ensures { NoTargetsNoChange }
{}

/// An insertion without parents leaves the document, where its path may be one of `insert`.
pub fn no_parents_no_change()
    ensures { NoParentsNoChange }
{}

//! The laws of transactions, for proofs: each function does nothing, and its contract is the law.
ghost use Rattle.cs_txn.specs.Laws.{EnteredIsADocument, WithinAreShort, CommitsKeepDatasets, CommitsAreTheirChanges};

use cs_docs::laws::fits_within_and_clean;
use cs_patch::laws::patched_is_a_document;
use cs_view::laws::changes_lead_to_the_other;

/// What becomes of a body that is not too deep is a document with the same id.
pub fn entered_is_a_document()
    ensures { EnteredIsADocument }
{}

/// Mutations are short, as they are to be prepared, whose texts have no more bytes than a number
/// below 2^32.
pub fn within_are_short()
    ensures { WithinAreShort }
{}

/// An accepted transaction leads from a dataset to one that is clean and within the limit.
pub fn commits_keep_datasets()
    ensures { CommitsKeepDatasets }
{
    patched_is_a_document();
    fits_within_and_clean();
}

/// The changes of an accepted transaction lead from the dataset before to the one after, and the
/// two sides of each differ.
pub fn commits_are_their_changes()
    ensures { CommitsAreTheirChanges }
{
    commits_keep_datasets();
    changes_lead_to_the_other();
}

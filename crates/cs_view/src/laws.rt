//! Laws of datasets, changes and keys, for proofs: each function does nothing, and its contract is
//! the law.
ghost use Rattle.cs_view.specs.Laws.{HoldingTheSameIsBeingOne, ChangesHoldDocuments, ChangesKeepDatasets, ChangesAreHeld, ChangesLeadOnAndBack, ChangesLeadBackAndOn, ChangesInARow, FilterFollowsChanges, ChangesLeadToTheOther, ChangesAreComputed, ChangesAreOneList, UntouchedSelectsTheSame};

/// Two datasets that hold the same under each id are one.
pub fn holding_the_same_is_being_one()
    ensures { HoldingTheSameIsBeingOne }
{}

/// What stands in changes are documents.
pub fn changes_hold_documents()
    ensures { ChangesHoldDocuments }
{}

/// Before and after changes a dataset is a dataset.
pub fn changes_keep_datasets()
    ensures { ChangesKeepDatasets }
{}

/// Before and after changes a dataset holds under each id what the changes say, or else what it
/// held.
pub fn changes_are_held()
    ensures { ChangesAreHeld }
{}

/// Changes that lead on from a dataset lead to the dataset after them, and from there back again.
pub fn changes_lead_on_and_back()
    ensures { ChangesLeadOnAndBack }
{}

/// Changes that lead to a dataset lead back to the one before them, and from there on again.
pub fn changes_lead_back_and_on()
    ensures { ChangesLeadBackAndOn }
{}

/// After two lists of changes in a row a dataset holds under each id what the second says, or else
/// what the first says, or else what it held.
pub fn changes_in_a_row()
    ensures { ChangesInARow }
{}

/// The documents that pass a test after changes are those that passed before, after the changes of
/// those that pass.
pub fn filter_follows_changes()
    ensures { FilterFollowsChanges }
{}

/// The changes between two datasets lead on from the one to the other.
pub fn changes_lead_to_the_other()
    ensures { ChangesLeadToTheOther }
{}

/// The list that `changes_between` gives holds the changes between two datasets.
pub fn changes_are_computed()
    ensures { ChangesAreComputed }
{}

/// There is one list of the changes between two datasets.
pub fn changes_are_one_list()
    ensures { ChangesAreOneList }
{}

/// A key of an untouched record selects the same documents before and after.
pub fn untouched_selects_the_same()
    ensures { UntouchedSelectsTheSame }
{}

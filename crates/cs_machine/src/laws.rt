//! The laws of the plain machine, for proofs: each function does nothing, and its contract is the
//! law.
ghost use Rattle.cs_machine.specs.Laws.{LoadedDatasetsAreHeld, RunsHoldDatasets, RunsKeepAnswersCurrent, LastAnswersAreTold, RunsNameOnce, RunsStayWithinLimits, RefusedLinesChangeNothing, IdsAreUsedOnce, UsedIdsStayUsed, RunsGoOn};

use cs_docs::laws::none_dangles_where_clean;
use cs_txn::laws::commits_keep_datasets;

/// The dataset of every data file that loads is clean and within the limit.
pub fn loaded_datasets_are_held()
    ensures { LoadedDatasetsAreHeld }
{
    none_dangles_where_clean();
}

/// From a dataset that is clean and within the limit, every run leads to such a dataset.
pub fn runs_hold_datasets()
    ensures { RunsHoldDatasets }
{
    commits_keep_datasets();
}

/// In every state that a run reaches, the last answer of each live query is its value over the
/// documents.
pub fn runs_keep_answers_current()
    ensures { RunsKeepAnswersCurrent }
{}

/// A line that changes the last answer of a live query, or makes one, tells it in its replies.
pub fn last_answers_are_told()
    ensures { LastAnswersAreTold }
{}

/// In every state that a run reaches, no two live queries or listeners have one name.
pub fn runs_name_once()
    ensures { RunsNameOnce }
{}

/// In every state that a run reaches, there are at most 1,024 live queries, and as many listeners.
pub fn runs_stay_within_limits()
    ensures { RunsStayWithinLimits }
{}

/// A line that is refused leaves the state as it is.
pub fn refused_lines_change_nothing()
    ensures { RefusedLinesChangeNothing }
{}

/// The id of an accepted transaction was not used before it, and is from then on.
pub fn ids_are_used_once()
    ensures { IdsAreUsedOnce }
{}

/// An id that is used stays so, whatever lines come.
pub fn used_ids_stay_used()
    ensures { UsedIdsStayUsed }
{}

/// Lines after others lead to the state, and have the machine write the bytes, that they do from
/// the state that the others lead to.
pub fn runs_go_on()
    ensures { RunsGoOn }
{}

//! The value of a query that is not simple, with what finding it looked up.
ghost use Rattle.std.specs.Prelude.{◌≡◌, true, IfOk};
ghost use Rattle.cs_value.specs.View.{fields};
ghost use Rattle.cs_syntax.specs.Queries.{expression_of};
ghost use Rattle.cs_window.specs.Windowed.{is_windowed};
ghost use Rattle.cs_hits.specs.Behind.{AreBehind};
ghost use Rattle.cs_kept.specs.Evaluated.{IsEvaluated};
ghost use Rattle.cs_kept.specs.Fits.{FitsWindow};
ghost use Rattle.cs_keys.specs.Keys.{rest_of};

use cs_codes::Seed;
use cs_eval::{eval, query_key, tail_over};
use cs_hits::Behind;
use cs_keys::Keys;
use cs_syntax::Query;
use cs_value::{Fields, NoMemory, Steps, Val};
use cs_view::{Record, View};
use cs_window::{window_settles_tail_over, windowed_is_filtered, windowed_is_tail_of_hits};
use std::alloc::Global;
use std::sync::ledger::Ledger;

/// The value of a query, and the keys that finding it looked up.
#[derive(Drop)]
pub(crate) struct Evaluated {
    pub(crate) answer: Val,
    pub(crate) keys: Keys,
}

/// The value of a query over the view.
pub(crate) fn evaluate<V: View<L>, L: Ledger>(
    alloc: Global,
    seed: &Seed,
    query: &Query,
    params: &Fields,
    view: &V,
    steps: &mut Steps<L>,
) -> Result<Evaluated, NoMemory>
    ensures { IfOk result (IsEvaluated (V.docs view.now) (expression_of query.now)
        (fields params.now) seed.now) }
{
    let mut record = Record::new(alloc);
    let answer = eval(alloc, query, params, view, &mut record, steps)?.into_val(alloc)?;
    let keys = Keys::of(alloc, seed, record)?;
    Ok(Evaluated { answer, keys })
}

/// The value of a windowed query over the view, from the documents behind it.
pub(crate) fn evaluate_behind<V: View<L>, L: Ledger>(
    behind: &mut Behind,
    alloc: Global,
    seed: &Seed,
    query: &Query,
    params: &Fields,
    view: &V,
    steps: &mut Steps<L>,
) -> Result<Evaluated, NoMemory>
    requires windowed { is_windowed (expression_of query.now) ≡ true }
    requires are { AreBehind (V.docs view.now) (expression_of query.now) (fields params.now)
        behind.old }
    ensures evaluated { IfOk result (IsEvaluated (V.docs view.now) (expression_of query.now)
        (fields params.now) seed.now) }
    ensures fits { IfOk result (λ found. FitsWindow (V.docs view.now) (expression_of query.now)
        (fields params.now) (rest_of found.keys) behind.new) }
{
    windowed_is_filtered();
    windowed_is_tail_of_hits();
    window_settles_tail_over();
    behind.fill(alloc, query, params, view, steps)?;
    let mut record = Record::new(alloc);
    let docs = behind.docs();
    let answer = tail_over(alloc, query, params, docs, view, &mut record, steps)?;
    let own = query_key(alloc, query, params)?;
    let keys = Keys::with(alloc, seed, own, record)?;
    behind.narrow(alloc, query, params)?;
    Ok(Evaluated { answer, keys })
}

//! The documents that the query of a mutation finds.
ghost use Rattle.std.specs.Prelude.{◌≡◌, ◌≤◌, ◌<◌, ◌^◌, ◌+◌, true, Ok, Err, IfOk, IfErr, length};
ghost use Rattle.cs_value.specs.View.{fields};
ghost use Rattle.cs_syntax.specs.Queries.{expression_of};
ghost use Rattle.cs_parse.specs.Verdict.{query as is_query, verdict};
ghost use Rattle.cs_txn.specs.Mutated.{found, found_by};
ghost use Rattle.cs_txn.specs.View.{IsTold};
ghost use Rattle.cs_txn.specs.Visits.{is_simple_reading, reading_cost};
ghost use Rattle.cs_working.specs.Working.{working as docs_of};

use crate::named::named_in_found;
use crate::why::Why;
use cs_eval::eval;
use cs_parse::{ParseFault, parse};
use cs_syntax::Query;
use cs_value::{Fields, Steps, Txt};
use cs_view::Record;
use cs_working::Working;
use std::alloc::Global;
use std::collections::BTreeSet;
use std::sync::ledger::Ledger;

// The ids of the documents that the value of the query names.
fn found_by<L: Ledger>(
    alloc: Global,
    working: &Working<'_>,
    query: &Query,
    params: &Fields,
    steps: &mut Steps<L>,
) -> Result<BTreeSet<Txt>, Why>
    ensures ids { IfOk result (λ ids. found_by (docs_of working.now) (fields params.now)
        (is_query (expression_of query.now)) ≡ Ok ids.keys) }
    ensures refused { IfErr result (IsTold (λ c. found_by (docs_of working.now)
        (fields params.now) (is_query (expression_of query.now)) ≡ Err c)) }
    ensures visits { is_simple_reading (is_query (expression_of query.now)) ≡ true → steps.new
        ≤ steps.old + reading_cost (docs_of working.now) (fields params.now)
        (is_query (expression_of query.now)) }
{
    let mut keys = Record::new(alloc);
    let found = eval(alloc, query, params, working, &mut keys, steps)?;
    named_in_found(alloc, working, found)
}

/// The ids of the documents that a query with its parameters finds over the dataset that is worked
/// on, or why it finds none. `Query` comes exactly where the text is no query, with why it is none,
/// and `NotDocuments` exactly where its value names something else than documents.
pub(crate) fn found<L: Ledger>(
    alloc: Global,
    working: &Working<'_>,
    text: &Txt,
    params: &Fields,
    steps: &mut Steps<L>,
) -> Result<BTreeSet<Txt>, Why>
    requires short { length text.now < 2 ^ 32 }
    ensures ids { IfOk result (λ ids. found (docs_of working.now) text.now (fields params.now)
        ≡ Ok ids.keys) }
    ensures refused { IfErr result (IsTold (λ c. found (docs_of working.now) text.now
        (fields params.now) ≡ Err c)) }
    ensures visits { is_simple_reading (verdict text.now) ≡ true → steps.new
        ≤ steps.old + reading_cost (docs_of working.now) (fields params.now) (verdict text.now) }
{
    match parse(alloc, text.as_str()) {
        Ok(query) => found_by(alloc, working, &query, params, steps),
        Err(ParseFault::NoMemory) => Err(Why::NoMemory),
        Err(fault) => Err(Why::Query(fault)),
    }
}

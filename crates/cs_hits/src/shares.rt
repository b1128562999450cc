//! The shares that the hits of a mapped query have in its answer, by ascending id.
ghost use Rattle.std.specs.Prelude.{◌≡◌, ◌≢◌, ◌++◌, [], List, false, true, map, IfOk, OnOk};
ghost use Rattle.cs_value.specs.Tree.{Pairs, Tree};
ghost use Rattle.cs_value.specs.View.{tree, fields};
ghost use Rattle.cs_value.specs.Words.{list_of};
ghost use Rattle.cs_json.specs.Text.{json_text};
ghost use Rattle.cs_syntax.specs.Expression.{Expression};
ghost use Rattle.cs_syntax.specs.Queries.{expression_of};
ghost use Rattle.cs_view.specs.Changes.{are_changes, before_changes, LeadTo};
ghost use Rattle.cs_view.specs.Dataset.{ascending, kept_if, placed, with_doc};
ghost use Rattle.cs_view.specs.Touched.{touched};
ghost use Rattle.cs_view.specs.View.{document_of, edit, edits};
ghost use Rattle.cs_meaning.specs.Hits.{hits, is_hit};
ghost use Rattle.cs_window.specs.Mapped.{is_mapped};
ghost use Rattle.cs_interest.specs.Interest.{interest_code};
ghost use Rattle.cs_hits.specs.Codes.{AreSought};
ghost use Rattle.cs_hits.specs.Held.{IsPut};
ghost use Rattle.cs_hits.specs.Looked.{marks};
ghost use Rattle.cs_hits.specs.Shares.{AreShares, SameBut, SharesFollow, TellsCodes, share_doc, share_docs, share_values, shares_looked};

use crate::codes::tell_codes;
use crate::held::{put, remove};
use crate::share::Share;
use cs_codes::{Seed, sort_codes};
use cs_eval::{hit, hits};
use cs_interest::interest_code;
use cs_json::write_list;
use cs_syntax::Query;
use cs_value::{Fields, NoMemory, Steps, Val};
use cs_view::laws::{changes_lead_back_and_on, untouched_selects_the_same};
use cs_view::{Change, Doc, Key, View};
use cs_window::{looked_settles_share, mapped_is_filtered};
use std::alloc::Global;
use std::sync::ledger::Ledger;

// The shares of documents.
fn shares_of<V: View<L>, L: Ledger>(
    alloc: Global,
    query: &Query,
    params: &Fields,
    docs: &[Doc],
    view: &V,
    steps: &mut Steps<L>,
) -> Result<Vec<Share>, NoMemory>
    requires { is_mapped (expression_of query.now) ≡ true }
    ensures docs { IfOk result (λ ss. share_docs ss.items ≡ map document_of docs.now) }
    ensures shares { IfOk result (λ ss. AreShares (V.docs view.now) (expression_of query.now)
        (fields params.now) ss.items) }
{
    let mut shares = Vec::with_capacity(alloc, docs.len())?;
    for doc in docs {
        shares.push(Share::find(alloc, query, params, doc, view, steps)?)?;
    }
    Ok(shares)
}

/// The shares of the query's hits in the view, by ascending id. `NoMemory` where the allocator has
/// no room for them.
pub fn find_shares<V: View<L>, L: Ledger>(
    alloc: Global,
    query: &Query,
    params: &Fields,
    view: &V,
    steps: &mut Steps<L>,
) -> Result<Vec<Share>, NoMemory>
    requires { is_mapped (expression_of query.now) ≡ true }
    ensures hits { IfOk result (λ ss. share_docs ss.items
        ≡ hits (expression_of query.now) (fields params.now) (V.docs view.now)) }
    ensures shares { IfOk result (λ ss. AreShares (V.docs view.now) (expression_of query.now)
        (fields params.now) ss.items) }
{
    mapped_is_filtered();
    let docs = hits(alloc, query, params, view, steps)?;
    shares_of(alloc, query, params, &docs, view, steps)
}

/// The answer that is made of the shares: the list of copies of them. `NoMemory` where the
/// allocator has no room for it.
pub fn answer_of(alloc: Global, shares: &[Share]) -> Result<Val, NoMemory>
    ensures { IfOk result (λ v. tree v ≡ list_of (share_values shares.now)) }
{
    let mut list = Vec::with_capacity(alloc, shares.len())?;
    for share in shares {
        list.push(share.value.copy(alloc)?)?;
    }
    Ok(Val::List(list))
}

/// The text of the list of the shares, put together from theirs. `NoMemory` where the allocator has
/// no room for it.
pub fn text_of(alloc: Global, shares: &[Share]) -> Result<Vec<u8>, NoMemory>
    ensures { (docs : List Tree) (e : Expression) (params : Pairs)
        → AreShares docs e params shares.now
        → IfOk result (λ b. b.items ≡ json_text (list_of (share_values shares.now))) }
{
    write_list(alloc, shares)
}

// Adds the codes under which interest in the keys is held.
fn add_codes(seed: &Seed, keys: &[Key], codes: &mut Vec<u64>) -> Result<(), NoMemory>
    ensures { OnOk result
        (codes.new.items ≡ codes.old.items ++ map (interest_code seed.now) keys.now) }
{
    for key in keys {
        codes.push(interest_code(seed, key))?;
    }
    Ok(())
}

// The codes under which interest is held in what finding the shares looked up, in its order.
fn listed_codes(alloc: Global, seed: &Seed, shares: &[Share]) -> Result<Vec<u64>, NoMemory>
    ensures { IfOk result (λ cs. cs.items
        ≡ map (interest_code seed.now) (shares_looked shares.now)) }
{
    let mut codes = Vec::with_capacity(alloc, shares.len())?;
    for share in shares {
        add_codes(seed, share.looked.keys(), &mut codes)?;
    }
    Ok(codes)
}

/// The codes under which interest is held in what finding the shares looked up, ascending.
/// `NoMemory` where the allocator has no room for them.
pub fn codes_of(alloc: Global, seed: &Seed, shares: &[Share]) -> Result<Vec<u64>, NoMemory>
    ensures { IfOk result (λ cs. AreSought seed.now (shares_looked shares.now) cs.items) }
{
    let mut codes = listed_codes(alloc, seed, shares)?;
    sort_codes(&mut codes);
    Ok(codes)
}

/// Whether the changes, whose ids have these marks, touch what finding one of the shares looked up.
/// It takes no memory.
pub fn shares_touched(shares: &[Share], id_marks: &[u64], changes: &[Change]) -> bool
    requires changes { are_changes (edits changes.now) ≡ true }
    requires marks { id_marks.now ≡ marks changes.now }
    ensures { result ≡ touched (shares_looked shares.now) (edits changes.now) }
{
    for share in shares {
        if share.looked.touched(id_marks, changes) {
            return true;
        }
    }
    false
}

/// Brings the shares to the dataset after the changes, whose ids have these marks: the places of
/// those that were found anew, by what the changes touch. None is looked at unless `asked`, which
/// may be unset where the changes touch none of them. `recoded` is set where interest in what
/// finding them looks up now has other codes. After `NoMemory` they are of no more use.
pub fn renew_shares<V: View<L>, L: Ledger>(
    alloc: Global,
    seed: &Seed,
    query: &Query,
    params: &Fields,
    shares: &mut Vec<Share>,
    view: &V,
    id_marks: &[u64],
    changes: &[Change],
    asked: bool,
    recoded: &mut bool,
    steps: &mut Steps<L>,
) -> Result<Vec<usize>, NoMemory>
    requires mapped { is_mapped (expression_of query.now) ≡ true }
    requires changes { are_changes (edits changes.now) ≡ true }
    requires marks { id_marks.now ≡ marks changes.now }
    requires asked { asked ≡ false
        → touched (shares_looked shares.old.items) (edits changes.now) ≡ false }
    requires led { LeadTo (V.docs view.now) (edits changes.now) }
    requires shares { AreShares (before_changes (V.docs view.now) (edits changes.now))
        (expression_of query.now) (fields params.now) shares.old.items }
    ensures docs { OnOk result (share_docs shares.new.items ≡ share_docs shares.old.items) }
    ensures shares { OnOk result (AreShares (V.docs view.now) (expression_of query.now)
        (fields params.now) shares.new.items) }
    ensures but { IfOk result (λ anew. SameBut anew.items (share_values shares.old.items)
        (share_values shares.new.items)) }
    ensures same { IfOk result (λ anew. anew.items ≡ []
        → shares.new.items ≡ shares.old.items) }
    ensures codes { OnOk result (TellsCodes seed.now (shares_looked shares.old.items)
        (shares_looked shares.new.items) recoded.old recoded.new) }
{
    looked_settles_share();
    untouched_selects_the_same();
    changes_lead_back_and_on();
    let mut anew = Vec::new(alloc);
    if !asked {
        return Ok(anew);
    }
    for place in 0..shares.len() {
        let share = &mut shares[place];
        if share.renew(
            alloc, seed, query, params, view, id_marks, changes, recoded, steps,
        )? {
            anew.push(place)?;
        }
    }
    Ok(anew)
}

// Puts the share in the place of its document's id, and notes the place where one stood there.
// `true` says that none did, so that those behind it stand elsewhere now; `recoded` is set then,
// and where interest in what finding it looked up has other codes.
fn put_share(
    seed: &Seed,
    shares: &mut Vec<Share>,
    share: Share,
    anew: &mut Vec<usize>,
    recoded: &mut bool,
) -> Result<bool, NoMemory>
    requires { ascending (share_docs shares.old.items) ≡ true }
    ensures put { OnOk result (share_docs shares.new.items
        ≡ with_doc (share_doc share) (share_docs shares.old.items)) }
    ensures among { OnOk result (IsPut share shares.old.items shares.new.items) }
    ensures but { IfOk result (λ shifted. shifted ≡ false → (ts : List Tree)
        → SameBut anew.old.items ts (share_values shares.old.items)
        → SameBut anew.new.items ts (share_values shares.new.items)) }
    ensures noted { IfOk result (λ shifted. shifted ≡ false → anew.new.items ≢ []) }
    ensures codes { OnOk result (TellsCodes seed.now (shares_looked shares.old.items)
        (shares_looked shares.new.items) recoded.old recoded.new) }
{
    match put(shares, share)? {
        Some((stood, old)) => {
            let now = shares[stood].looked.keys();
            tell_codes(seed, old.looked.keys(), now, recoded);
            drop(old);
            anew.push(stood)?;
            Ok(false)
        }
        None => {
            *recoded = true;
            Ok(true)
        }
    }
}

// Brings the shares behind one change, and notes the place of one that was found anew. `true` says
// that one was taken out, or put where none stood.
fn place<V: View<L>, L: Ledger>(
    alloc: Global,
    seed: &Seed,
    query: &Query,
    params: &Fields,
    shares: &mut Vec<Share>,
    view: &V,
    change: &Change,
    anew: &mut Vec<usize>,
    recoded: &mut bool,
    steps: &mut Steps<L>,
) -> Result<bool, NoMemory>
    requires mapped { is_mapped (expression_of query.now) ≡ true }
    requires ascending { ascending (share_docs shares.old.items) ≡ true }
    requires shares { AreShares (V.docs view.now) (expression_of query.now) (fields params.now)
        shares.old.items }
    ensures placed { OnOk result (share_docs shares.new.items ≡ placed (edit change.now).0
        (kept_if (is_hit (expression_of query.now) (fields params.now)) (edit change.now).1.1)
        (share_docs shares.old.items)) }
    ensures shares { OnOk result (AreShares (V.docs view.now) (expression_of query.now)
        (fields params.now) shares.new.items) }
    ensures but { IfOk result (λ shifted. shifted ≡ false → (ts : List Tree)
        → SameBut anew.old.items ts (share_values shares.old.items)
        → SameBut anew.new.items ts (share_values shares.new.items)) }
    ensures same { IfOk result (λ shifted. shifted ≡ false → anew.new.items ≡ []
        → (anew.old.items ≡ []) × (shares.new.items ≡ shares.old.items)) }
    ensures codes { OnOk result (TellsCodes seed.now (shares_looked shares.old.items)
        (shares_looked shares.new.items) recoded.old recoded.new) }
{
    mapped_is_filtered();
    if let Some(doc) = &change.after {
        if hit(alloc, query, params, doc)? {
            let share = Share::find(alloc, query, params, doc, view, steps)?;
            return put_share(seed, shares, share, anew, recoded);
        }
    }
    let removed = remove(shares, &change.id);
    *recoded = *recoded | removed;
    Ok(removed)
}

/// Brings the shares of the dataset's documents behind the changes that led to it, and notes the
/// places of those that were found anew. `true` says that one was taken out, or put where none
/// stood, so that others stand elsewhere now. `recoded` is set where interest in what finding them
/// looked up is held under other codes now. After `NoMemory` they are of no more use.
pub fn follow_shares<V: View<L>, L: Ledger>(
    alloc: Global,
    seed: &Seed,
    query: &Query,
    params: &Fields,
    shares: &mut Vec<Share>,
    view: &V,
    changes: &[Change],
    anew: &mut Vec<usize>,
    recoded: &mut bool,
    steps: &mut Steps<L>,
) -> Result<bool, NoMemory>
    requires mapped { is_mapped (expression_of query.now) ≡ true }
    requires ascending { ascending (share_docs shares.old.items) ≡ true }
    requires shares { AreShares (V.docs view.now) (expression_of query.now) (fields params.now)
        shares.old.items }
    ensures follow { OnOk result (SharesFollow (V.docs view.now) (edits changes.now)
        (expression_of query.now) (fields params.now) shares.old.items shares.new.items) }
    ensures but { IfOk result (λ shifted. shifted ≡ false → (ts : List Tree)
        → SameBut anew.old.items ts (share_values shares.old.items)
        → SameBut anew.new.items ts (share_values shares.new.items)) }
    ensures same { IfOk result (λ shifted. shifted ≡ false → anew.new.items ≡ []
        → (anew.old.items ≡ []) × (shares.new.items ≡ shares.old.items)) }
    ensures codes { OnOk result (TellsCodes seed.now (shares_looked shares.old.items)
        (shares_looked shares.new.items) recoded.old recoded.new) }
{
    let mut shifted = false;
    let mut left = changes.len();
    while left > 0 {
        left -= 1;
        let moved = place(
            alloc,
            seed,
            query,
            params,
            shares,
            view,
            &changes[left],
            anew,
            recoded,
            steps,
        )?;
        shifted = shifted | moved;
    }
    Ok(shifted)
}

//! The share that a hit has in the answer of a mapped query.
ghost use Rattle.std.specs.Prelude.{◌≡◌, false, true, IfOk, OnErr, OnOk};
ghost use Rattle.cs_value.specs.View.{fields};
ghost use Rattle.cs_syntax.specs.Queries.{expression_of};
ghost use Rattle.cs_view.specs.Changes.{are_changes, LeadTo, before_changes};
ghost use Rattle.cs_view.specs.Touched.{touched};
ghost use Rattle.cs_view.specs.View.{document_of, edits};
ghost use Rattle.cs_window.specs.Mapped.{is_mapped};
ghost use Rattle.cs_hits.specs.Looked.{marks};
ghost use Rattle.cs_hits.specs.Shares.{IsShare, TellsCodes, share_doc};

use crate::codes::tell_codes;
use crate::held::Held;
use crate::looked::Looked;
use cs_codes::Seed;
use cs_eval::share;
use cs_json::{HasText, write};
use cs_syntax::Query;
use cs_value::{Fields, NoMemory, Steps, Val};
use cs_view::laws::{changes_lead_back_and_on, untouched_selects_the_same};
use cs_view::{Change, Doc, Record, View};
use cs_window::looked_settles_share;
use std::alloc::Global;
use std::sync::ledger::Ledger;

/// A document, its share in an answer with its text, and the keys that finding the share looked up.
#[derive(Drop)]
pub struct Share {
    pub doc: Doc,
    pub value: Val,
    pub text: Vec<u8>,
    pub looked: Looked,
}

impl Held for Share {
    ghost held = { share_doc };

    fn doc(&self) -> &Doc {
        &self.doc
    }
}

impl HasText for Share {
    ghost text = { λ s. s.text.items };

    fn text(&self) -> &[u8] {
        &self.text
    }
}

impl Share {
    /// The share of a document over the documents of the view. `NoMemory` where the allocator has
    /// no room for it.
    pub fn find<V: View<L>, L: Ledger>(
        alloc: Global,
        query: &Query,
        params: &Fields,
        doc: &Doc,
        view: &V,
        steps: &mut Steps<L>,
    ) -> Result<Share, NoMemory>
        requires { is_mapped (expression_of query.now) ≡ true }
        ensures share { IfOk result
            (IsShare (V.docs view.now) (expression_of query.now) (fields params.now)) }
        ensures doc { IfOk result (λ s. share_doc s ≡ document_of doc.now) }
    {
        let mut looked = Record::new(alloc);
        let value = share(alloc, query, params, doc, view, &mut looked, steps)?;
        let text = write(alloc, &value)?;
        Ok(Share {
            doc: doc.copy()?,
            value,
            text,
            looked: Looked::of(looked),
        })
    }

    /// Brings the share to the dataset after the changes, whose ids have these marks: whether it
    /// was found anew, which it is where the changes touch what finding it looked up. `recoded` is
    /// set where interest in what finding it looks up now is held under other codes. `NoMemory`
    /// where the allocator has no room for it; it is as before then.
    pub fn renew<V: View<L>, L: Ledger>(
        &mut self,
        alloc: Global,
        seed: &Seed,
        query: &Query,
        params: &Fields,
        view: &V,
        id_marks: &[u64],
        changes: &[Change],
        recoded: &mut bool,
        steps: &mut Steps<L>,
    ) -> Result<bool, NoMemory>
        requires mapped { is_mapped (expression_of query.now) ≡ true }
        requires changes { are_changes (edits changes.now) ≡ true }
        requires marks { id_marks.now ≡ marks changes.now }
        requires led { LeadTo (V.docs view.now) (edits changes.now) }
        requires share { IsShare (before_changes (V.docs view.now) (edits changes.now))
            (expression_of query.now) (fields params.now) self.old }
        ensures share { OnOk result (IsShare (V.docs view.now) (expression_of query.now)
            (fields params.now) self.new) }
        ensures doc { OnOk result (share_doc self.new ≡ share_doc self.old) }
        ensures same { IfOk result (λ b. b ≡ false → self.new ≡ self.old) }
        ensures told { IfOk result (λ b. b ≡ touched self.old.looked (edits changes.now)) }
        ensures codes { OnOk result (TellsCodes seed.now self.old.looked self.new.looked
            recoded.old recoded.new) }
        ensures unchanged { OnErr result (self.new ≡ self.old) }
        ensures quiet { touched self.old.looked (edits changes.now) ≡ false
            → steps.new ≡ steps.old }
    {
        looked_settles_share();
        untouched_selects_the_same();
        changes_lead_back_and_on();
        if self.looked.is_spared(id_marks) {
            return Ok(false);
        }
        self.renew_by_keys(
            alloc, seed, query, params, view, id_marks, changes, recoded, steps,
        )
    }

    // The same, by the keys. It stands apart, so that a share that marks spare has no room made for
    // another.
    fn renew_by_keys<V: View<L>, L: Ledger>(
        &mut self,
        alloc: Global,
        seed: &Seed,
        query: &Query,
        params: &Fields,
        view: &V,
        id_marks: &[u64],
        changes: &[Change],
        recoded: &mut bool,
        steps: &mut Steps<L>,
    ) -> Result<bool, NoMemory>
        requires mapped { is_mapped (expression_of query.now) ≡ true }
        requires changes { are_changes (edits changes.now) ≡ true }
        requires marks { id_marks.now ≡ marks changes.now }
        requires led { LeadTo (V.docs view.now) (edits changes.now) }
        requires share { IsShare (before_changes (V.docs view.now) (edits changes.now))
            (expression_of query.now) (fields params.now) self.old }
        ensures share { OnOk result (IsShare (V.docs view.now) (expression_of query.now)
            (fields params.now) self.new) }
        ensures doc { OnOk result (share_doc self.new ≡ share_doc self.old) }
        ensures same { IfOk result (λ b. b ≡ false → self.new ≡ self.old) }
        ensures told { IfOk result (λ b. b ≡ touched self.old.looked (edits changes.now)) }
        ensures codes { OnOk result (TellsCodes seed.now self.old.looked self.new.looked
            recoded.old recoded.new) }
        ensures unchanged { OnErr result (self.new ≡ self.old) }
        ensures quiet { touched self.old.looked (edits changes.now) ≡ false
            → steps.new ≡ steps.old }
    {
        looked_settles_share();
        untouched_selects_the_same();
        changes_lead_back_and_on();
        if !self.looked.touched(id_marks, changes) {
            return Ok(false);
        }
        let anew = Share::find(alloc, query, params, &self.doc, view, steps)?;
        tell_codes(seed, self.looked.keys(), anew.looked.keys(), recoded);
        *self = anew;
        Ok(true)
    }
}

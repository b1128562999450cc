//! The codes of the keys of some kinds.
ghost use Rattle.std.specs.Prelude.{◌≡◌, ℕ, List, ◌++◌, ◌∷◌, [], true, OnOk, OnErr, IfOk, option_map};
ghost use Rattle.cs_value.specs.View.{tree};
ghost use Rattle.cs_value.specs.Words.{followed};
ghost use Rattle.cs_view.specs.View.{document_of};
ghost use Rattle.cs_codes.specs.Codes.{start, with_names, key_code, ref_code};
ghost use Rattle.cs_view.specs.declared.key.Key.TheVariants.{Ref};
ghost use Rattle.cs_codes.specs.Kinds.{coded, kind_codes, value_codes, element_codes, IsCoded};

use crate::code::{key_code, ref_code, start, with_element, with_names, with_value};
use crate::kind::KeyKind;
use crate::seed::Seed;
use crate::walk::{put_elements, put_refs, put_scalar};
use cs_value::{NoMemory, Txt, Val};
use cs_view::{Doc, Key, Names};
use std::alloc::Global;

/// How an index codes the keys of documents: the seed of the codes, and the kinds of keys that have
/// one.
#[derive(Drop)]
pub struct Coding {
    pub(crate) seed: Seed,
    pub(crate) kinds: Vec<KeyKind>,
}

// What following the names gives.
fn followed<'v>(names: &[Txt], val: &'v Val) -> Option<&'v Val>
    ensures { option_map (λ v. tree v.now) result ≡ followed names.now (tree val.now) }
{
    let mut here = val;
    for name in names {
        here = here.attribute(name)?;
    }
    Some(here)
}

// The code of the value at the end of the names, if it is a scalar.
fn put_value(seed: &Seed, names: &Names, doc: &Doc, out: &mut Vec<u64>) -> Result<(), NoMemory>
    ensures { OnOk result (out.new.items ≡ out.old.items ++ value_codes
        (with_names (start seed.now) names.now) (followed names.now (document_of doc.now))) }
{
    match followed(names.texts(), doc.val()) {
        Some(val) => put_scalar(with_value(with_names(start(seed), names.texts())), val, out),
        None => Ok(()),
    }
}

// The codes of the scalars in the list at the end of the names.
fn put_list(seed: &Seed, names: &Names, doc: &Doc, out: &mut Vec<u64>) -> Result<(), NoMemory>
    ensures { OnOk result (out.new.items ≡ out.old.items ++ element_codes
        (with_names (start seed.now) names.now) (followed names.now (document_of doc.now))) }
{
    match followed(names.texts(), doc.val()) {
        Some(Val::List(items)) => {
            let hash = with_names(start(seed), names.texts());
            put_elements(with_element(hash), items, out)
        }
        _ => Ok(()),
    }
}

// The codes of a document's keys of a kind.
fn put_kind(seed: &Seed, kind: &KeyKind, doc: &Doc, out: &mut Vec<u64>) -> Result<(), NoMemory>
    ensures { OnOk result (out.new.items
        ≡ out.old.items ++ kind_codes seed.now kind.now (document_of doc.now)) }
{
    match kind {
        KeyKind::Path(names) => put_value(seed, names, doc, out),
        KeyKind::Elem(names) => put_list(seed, names, doc, out),
        KeyKind::Ref => put_refs(seed, doc.val(), out),
    }
}

impl Coding {
    /// The coding of no kind. It takes no memory.
    pub fn new(alloc: Global, seed: Seed) -> Coding
        ensures seed { result.seed ≡ seed }
        ensures none { result.kinds.items ≡ [] }
    {
        Coding {
            seed,
            kinds: Vec::new(alloc),
        }
    }

    /// The coding of one kind, by the same seed. `NoMemory` where the allocator has no room for it.
    pub fn of_one(&self, alloc: Global, kind: KeyKind) -> Result<Coding, NoMemory>
        ensures seed { IfOk result (λ coding. coding.seed ≡ self.now.seed) }
        ensures kind { IfOk result (λ coding. coding.kinds.items ≡ kind ∷ []) }
    {
        let mut kinds = Vec::with_capacity(alloc, 1)?;
        kinds.push(kind)?;
        Ok(Coding {
            seed: self.seed,
            kinds,
        })
    }

    /// Codes the other's kinds too. `NoMemory` where the allocator has no room for them; nothing
    /// changes then.
    pub fn append(&mut self, other: Coding) -> Result<(), NoMemory>
        ensures seed { self.new.seed ≡ self.old.seed }
        ensures kinds { OnOk result
            (self.new.kinds.items ≡ self.old.kinds.items ++ other.kinds.items) }
        ensures kept { OnErr result (self.new.kinds.items ≡ self.old.kinds.items) }
    {
        let Coding { seed: _, kinds } = other;
        let mut more = kinds;
        match self.kinds.append(&mut more) {
            Ok(()) => Ok(()),
            Err(_) => Err(NoMemory),
        }
    }

    /// How many kinds have codes. Nothing but time hangs on it.
    pub fn len(&self) -> usize {
        self.kinds.len()
    }

    /// Whether the keys of the kind have codes. Nothing but time hangs on the answer.
    pub fn has(&self, kind: &KeyKind) -> bool {
        self.kinds.iter().any(|own| own.is(kind))
    }

    /// Whether the key is of a kind that has codes.
    pub fn codes(&self, key: &Key) -> bool
        ensures { result ≡ true → IsCoded self.now key.now }
    {
        for kind in &self.kinds {
            if kind.has(key) {
                return true;
            }
        }
        false
    }

    /// Whether references have codes.
    pub fn codes_refs(&self) -> bool
        ensures { result ≡ true → (target : List ℕ) → IsCoded self.now (Ref target) }
    {
        for kind in &self.kinds {
            if let KeyKind::Ref = kind {
                return true;
            }
        }
        false
    }

    /// The code of the key of references to the target.
    pub fn ref_code(&self, target: &Txt) -> u64
        ensures { result ≡ ref_code self.now.seed target.now }
    {
        ref_code(&self.seed, target)
    }

    /// The code of a key.
    pub fn key_code(&self, key: &Key) -> u64
        ensures { result ≡ key_code self.now.seed key.now }
    {
        key_code(&self.seed, key)
    }

    /// Adds to a list the codes of a document's keys of the kinds that have codes. `NoMemory` where
    /// the allocator has no room for them.
    pub fn put_codes(&self, doc: &Doc, out: &mut Vec<u64>) -> Result<(), NoMemory>
        ensures { OnOk result (out.new.items ≡ out.old.items
            ++ coded self.now (document_of doc.now)) }
    {
        for kind in &self.kinds {
            put_kind(&self.seed, kind, doc, out)?;
        }
        Ok(())
    }

    /// The codes of a document's keys of the kinds that have codes. `NoMemory` where the allocator
    /// has no room for them.
    pub fn codes_of(&self, alloc: Global, doc: &Doc) -> Result<Vec<u64>, NoMemory>
        ensures { IfOk result (λ cs. cs.items ≡ coded self.now (document_of doc.now)) }
    {
        let mut out = Vec::new(alloc);
        self.put_codes(doc, &mut out)?;
        Ok(out)
    }
}

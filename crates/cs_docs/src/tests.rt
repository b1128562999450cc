//! The documents of a store as a view, on three of them.
ghost use Rattle.std.specs.Prelude.{◌≡◌, ◌<◌, [], ◌∷◌, IfOk};
ghost use Rattle.cs_view.specs.View.{document_of, edits};
ghost use Rattle.cs_docs.specs.Gathered.{entering};

use super::*;
use cs_value::{Fields, NoMemory, Steps, Txt, Val};
use cs_view::{Change, Doc, Key, Names, Scalar, View};
use std::alloc::Global;
use std::marker::Brand;
use std::sync::ledger::{Blank, Ledger};
use std::test::Fail;

// A document of this id, with the word as `word`.
fn document<'x>(alloc: Global, id: &'x str, word: &'x str) -> Result<Doc, Fail> {
    let mut object = Fields::new(alloc);
    for (name, text) in [
        ("_id", id),
        ("_type", "t"),
        ("_rev", "tx-1"),
        ("_createdAt", "then"),
        ("_updatedAt", "now"),
        ("word", word),
    ] {
        let val = Val::Text(Txt::copy_of(alloc, text)?);
        drop(object.put(Txt::copy_of(alloc, name)?, val)?);
    }
    match Doc::make(alloc, Val::Obj(object)) {
        Ok(doc) => Ok(doc),
        Err(_) => Err(Fail::new("no document")),
    }
}

// The changes that put one document.
fn one_change(alloc: Global, document: Doc) -> Result<Vec<Change>, NoMemory>
    ensures { IfOk result (λ cs. edits cs.items ≡ entering (document_of document ∷ [])) }
{
    let mut changes = Vec::new(alloc);
    changes.push(Change {
        id: document.id().copy(alloc)?,
        before: None,
        after: Some(document),
    })?;
    Ok(changes)
}

fn put(alloc: Global, docs: &mut Docs, document: Doc) -> Result<(), Fail> {
    if docs.get(document.id()).is_some() {
        return Err(Fail::new("there already"));
    }
    let changes = one_change(alloc, document)?;
    match Prepared::make(alloc, docs, docs, changes) {
        Ok(prepared) => Ok(docs.install(&prepared)?),
        Err(_) => Err(Fail::new("not taken")),
    }
}

// The documents a, b and c, of which b has another word.
fn three(alloc: Global) -> Result<Docs, Fail> {
    let mut docs = Docs::new(alloc);
    put(alloc, &mut docs, document(alloc, "b", "y")?)?;
    put(alloc, &mut docs, document(alloc, "c", "x")?)?;
    put(alloc, &mut docs, document(alloc, "a", "x")?)?;
    Ok(docs)
}

// The ids of the documents of a view that have the key.
fn selected<L: Ledger, V: View<L>>(
    alloc: Global,
    view: &V,
    key: &Key,
    steps: &mut Steps<L>,
) -> Result<String, Fail> {
    let mut ids = String::new(alloc);
    let places = view.select(alloc, key)?;
    for place in &places {
        ids.push_str(view.at(*place, steps).id().as_str())?;
    }
    Ok(ids)
}

// The document of a view with the id.
fn looked_up<'v, L: Ledger, V: View<L>>(
    view: &'v V,
    id: &Txt,
    steps: &mut Steps<L>,
) -> Option<&'v Doc> {
    let place = view.by_id(id)?;
    Some(view.at(place, steps))
}

fn number<L: Ledger, V: View<L>>(view: &V) -> u32 {
    view.len()
}

// Every document, one by its id, those with a word, and those that refer to one.
fn keys(alloc: Global) -> Result<Vec<Key>, Fail> {
    let mut names = Vec::new(alloc);
    names.push(Txt::copy_of(alloc, "word")?)?;
    let word = Scalar::Text(Txt::copy_of(alloc, "x")?);
    let mut keys = Vec::new(alloc);
    keys.push(Key::All)?;
    keys.push(Key::Id(Txt::copy_of(alloc, "b")?))?;
    keys.push(Key::Path(Names::of(names), word))?;
    keys.push(Key::Ref(Txt::copy_of(alloc, "a")?))?;
    Ok(keys)
}

// What the documents give as a view: the ids at each key, and at each id whether it is there.
fn seen<L: Ledger>(blank: Blank, alloc: Global, docs: &Docs) -> Result<String, Fail>
    requires name { blank.name ≡ L.name }
    requires parts { blank.parts ≡ L.parts }
    requires some { 0 < blank.parts }
{
    let mut steps = Steps::<L>::new(blank);
    let mut words = String::new(alloc);
    for key in &keys(alloc)? {
        words.push_str(selected::<L, Docs>(alloc, docs, key, &mut steps)?.as_str())?;
        words.push('/')?;
    }
    for id in ["a", "b", "c", "", "bb", "d"] {
        match looked_up::<L, Docs>(docs, &Txt::copy_of(alloc, id)?, &mut steps) {
            Some(document) => words.push_str(document.id().as_str())?,
            None => words.push('-')?,
        }
    }
    Ok(words)
}

#[test]
fn the_documents_as_a_view(rt: HostRuntime) -> Result<(), Fail> {
    let docs = three(rt.alloc())?;
    let words = seen::<Brand>(Blank::new(1), rt.alloc(), &docs)?;
    assert_eq!(rt; words.as_str(), "abc/b/ac//abc---");
    assert_eq!(rt; number::<Brand, Docs>(&docs), 3);
    Ok(())
}

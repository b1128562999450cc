//! An index as it is built, as it follows commits and as it keeps more kinds of keys, on three
//! documents.
ghost use Rattle.std.specs.Prelude.{◌≡◌, ◌<◌, [], ◌∷◌, IfOk, OnOk};
ghost use Rattle.cs_view.specs.View.{document_of, edits};
ghost use Rattle.cs_docs.specs.Gathered.{entering};
ghost use Rattle.cs_index.specs.Index.{IsIndexOf};

use cs_codes::KeyKind;
use cs_docs::{Docs, Prepared, Referrers};
use cs_index::{Index, Indexed, install};
use cs_value::{Fields, NoMemory, Steps, Txt, Val};
use cs_view::{Change, Doc, Key, Names, Scalar, View};
use std::alloc::Global;
use std::hash::RandomState;
use std::marker::Brand;
use std::sync::ledger::{Blank, Ledger};
use std::test::Fail;

// A text of a tree.
fn text(alloc: Global, text: &str) -> Result<Val, NoMemory> {
    Ok(Val::Text(Txt::copy_of(alloc, text)?))
}

// A weak reference to the document a.
fn reference(alloc: Global) -> Result<Val, NoMemory> {
    let mut object = Fields::new(alloc);
    drop(object.put(Txt::copy_of(alloc, "_ref")?, text(alloc, "a")?)?);
    drop(object.put(Txt::copy_of(alloc, "_weak")?, Val::Bool(true))?);
    Ok(Val::Obj(object))
}

// A list of one text.
fn list(alloc: Global, word: &str) -> Result<Val, NoMemory> {
    let mut items = Vec::new(alloc);
    items.push(text(alloc, word)?)?;
    Ok(Val::List(items))
}

// A document of this id, with the word as `word` and in the list `tags`, that refers to a.
fn document<'x>(alloc: Global, id: &'x str, word: &'x str) -> Result<Doc, Fail> {
    let mut object = Fields::new(alloc);
    for (name, word) in [
        ("_id", id),
        ("_type", "t"),
        ("_rev", "tx-1"),
        ("_createdAt", "then"),
        ("_updatedAt", "now"),
        ("word", word),
    ] {
        drop(object.put(Txt::copy_of(alloc, name)?, text(alloc, word)?)?);
    }
    drop(object.put(Txt::copy_of(alloc, "tags")?, list(alloc, word)?)?);
    drop(object.put(Txt::copy_of(alloc, "up")?, reference(alloc)?)?);
    match Doc::make(alloc, Val::Obj(object)) {
        Ok(doc) => Ok(doc),
        Err(_) => Err(Fail::new("no document")),
    }
}

// The changes that put one document.
fn one_change(alloc: Global, document: Doc) -> Result<Vec<Change>, NoMemory>
    ensures { IfOk result (λ cs. edits cs.items ≡ entering (document_of document ∷ [])) }
{
    let mut changes = Vec::new(alloc);
    changes.push(Change {
        id: document.id().copy(alloc)?,
        before: None,
        after: Some(document),
    })?;
    Ok(changes)
}

// Puts a document into a store and its index.
fn put(alloc: Global, docs: &mut Docs, index: &mut Index, document: Doc) -> Result<(), Fail>
    requires { IsIndexOf index.old docs.old }
    ensures { OnOk result (IsIndexOf index.new docs.new) }
{
    if docs.get(document.id()).is_some() {
        return Err(Fail::new("there already"));
    }
    let changes = one_change(alloc, document)?;
    match Prepared::make(alloc, docs, docs, changes) {
        Ok(prepared) => match install(docs, index, &prepared) {
            Ok(()) => Ok(()),
            Err(_) => Err(Fail::new("not installed")),
        },
        Err(_) => Err(Fail::new("not taken")),
    }
}

// The ids of the documents of a view that have the key.
fn selected<L: Ledger, V: View<L>>(
    alloc: Global,
    view: &V,
    key: &Key,
    steps: &mut Steps<L>,
) -> Result<String, Fail> {
    let mut ids = String::new(alloc);
    let places = view.select(alloc, key)?;
    for place in &places {
        ids.push_str(view.at(*place, steps).id().as_str())?;
    }
    Ok(ids)
}

// The ids of those who refer to a target, the first two of them.
fn referrers<R: Referrers>(alloc: Global, view: &R, target: &Txt) -> Result<String, Fail> {
    let mut ids = String::new(alloc);
    if let Some(first) = view.next_referrer(target, None) {
        ids.push_str(first.as_str())?;
        if let Some(second) = view.next_referrer(target, Some(first)) {
            ids.push_str(second.as_str())?;
        }
    }
    Ok(ids)
}

// Every document, one by its id, those with a word, those with a word in a list, and those that
// refer to one.
fn keys(alloc: Global) -> Result<Vec<Key>, Fail> {
    let mut word = Vec::new(alloc);
    word.push(Txt::copy_of(alloc, "word")?)?;
    let mut tags = Vec::new(alloc);
    tags.push(Txt::copy_of(alloc, "tags")?)?;
    let mut keys = Vec::new(alloc);
    keys.push(Key::All)?;
    keys.push(Key::Id(Txt::copy_of(alloc, "b")?))?;
    keys.push(Key::Path(Names::of(word), Scalar::Text(Txt::copy_of(alloc, "x")?)))?;
    keys.push(Key::Elem(Names::of(tags), Scalar::Text(Txt::copy_of(alloc, "y")?)))?;
    keys.push(Key::Ref(Txt::copy_of(alloc, "a")?))?;
    Ok(keys)
}

// What an indexed store gives: the ids at each key, and who refers to a.
fn seen<L: Ledger>(blank: Blank, alloc: Global, view: &Indexed) -> Result<String, Fail>
    requires name { blank.name ≡ L.name }
    requires parts { blank.parts ≡ L.parts }
    requires some { 0 < blank.parts }
{
    let mut steps = Steps::<L>::new(blank);
    let mut words = String::new(alloc);
    for key in &keys(alloc)? {
        words.push_str(selected::<L, Indexed>(alloc, view, key, &mut steps)?.as_str())?;
        words.push('/')?;
    }
    words.push_str(referrers(alloc, view, &Txt::copy_of(alloc, "a")?)?.as_str())?;
    Ok(words)
}

// Puts the documents a, b and c, of which b has another word.
fn put_three(alloc: Global, docs: &mut Docs, index: &mut Index) -> Result<(), Fail>
    requires { IsIndexOf index.old docs.old }
    ensures { OnOk result (IsIndexOf index.new docs.new) }
{
    put(alloc, docs, index, document(alloc, "b", "y")?)?;
    put(alloc, docs, index, document(alloc, "c", "x")?)?;
    put(alloc, docs, index, document(alloc, "a", "x")?)?;
    Ok(())
}

// The kinds of the keys that name attributes or refer.
fn kinds(alloc: Global) -> Result<Vec<KeyKind>, Fail> {
    let mut word = Vec::new(alloc);
    word.push(Txt::copy_of(alloc, "word")?)?;
    let mut tags = Vec::new(alloc);
    tags.push(Txt::copy_of(alloc, "tags")?)?;
    let mut kinds = Vec::new(alloc);
    kinds.push(KeyKind::Path(Names::of(word)))?;
    kinds.push(KeyKind::Elem(Names::of(tags)))?;
    kinds.push(KeyKind::Ref)?;
    Ok(kinds)
}

// What is found, whether the index keeps the keys or not.
const FOUND: &str = "abc/b/ac/b/abc/ab";

#[test]
fn an_index_is_built_and_follows_commits(rt: HostRuntime) -> Result<(), Fail> {
    let Ok(seed) = RandomState::new(&rt) else {
        return Err(Fail::new("no random words"));
    };
    let mut docs = Docs::new(rt.alloc());
    let mut index = Index::build(rt.alloc(), seed, &docs, kinds(rt.alloc())?)?;
    put_three(rt.alloc(), &mut docs, &mut index)?;
    let followed = seen::<Brand>(Blank::new(1), rt.alloc(), &Indexed::of(&docs, &index))?;
    assert_eq!(rt; followed.as_str(), FOUND);
    let again = Index::build(rt.alloc(), seed, &docs, kinds(rt.alloc())?)?;
    let built = seen::<Brand>(Blank::new(1), rt.alloc(), &Indexed::of(&docs, &again))?;
    assert_eq!(rt; built.as_str(), FOUND);
    Ok(())
}

#[test]
fn an_index_that_keeps_nothing_finds_the_same(rt: HostRuntime) -> Result<(), Fail> {
    let Ok(seed) = RandomState::new(&rt) else {
        return Err(Fail::new("no random words"));
    };
    let mut docs = Docs::new(rt.alloc());
    let mut index = Index::new(rt.alloc(), seed);
    put_three(rt.alloc(), &mut docs, &mut index)?;
    let unkept = seen::<Brand>(Blank::new(1), rt.alloc(), &Indexed::of(&docs, &index))?;
    assert_eq!(rt; unkept.as_str(), FOUND);
    index.keep(&docs, kinds(rt.alloc())?)?;
    let kept = seen::<Brand>(Blank::new(1), rt.alloc(), &Indexed::of(&docs, &index))?;
    assert_eq!(rt; kept.as_str(), FOUND);
    Ok(())
}

//! Which keys a small document has.
use super::*;
use cs_value::{Fields, Txt, Val};
use std::alloc::Global;
use std::test::Fail;

fn text(alloc: Global, text: &str) -> Result<Val, Fail> {
    Ok(Val::Text(Txt::copy_of(alloc, text)?))
}

fn put(alloc: Global, object: &mut Fields, name: &str, val: Val) -> Result<(), Fail> {
    drop(object.put(Txt::copy_of(alloc, name)?, val)?);
    Ok(())
}

// `true`, `false`, a number, or else the text itself.
fn scalar(alloc: Global, word: &str) -> Result<Scalar, Fail> {
    Ok(match word {
        "true" => Scalar::Bool(true),
        "false" => Scalar::Bool(false),
        _ => match word.parse::<i64>() {
            Ok(number) => Scalar::Num(number),
            Err(_) => Scalar::Text(Txt::copy_of(alloc, word)?),
        },
    })
}

// Names with dots between them.
fn names(alloc: Global, dotted: &str) -> Result<Names, Fail> {
    let mut texts = Vec::new(alloc);
    for name in dotted.split('.') {
        texts.push(Txt::copy_of(alloc, name)?)?;
    }
    if texts.is_empty() || texts.len() > 4 {
        return Err(Fail::new("no names, or too many"));
    }
    Ok(Names::of(texts))
}

// A key in up to three words: its kind, what it names, and a scalar.
fn key(alloc: Global, words: &str) -> Result<Key, Fail> {
    let (kind, rest) = words.split_once(' ').unwrap_or((words, ""));
    let (named, wanted) = rest.split_once(' ').unwrap_or((rest, ""));
    Ok(match kind {
        "id" => Key::Id(Txt::copy_of(alloc, named)?),
        "path" => Key::Path(names(alloc, named)?, scalar(alloc, wanted)?),
        "elem" => Key::Elem(names(alloc, named)?, scalar(alloc, wanted)?),
        "ref" => Key::Ref(Txt::copy_of(alloc, named)?),
        _ => return Err(Fail::new("no key")),
    })
}

// A document of this id with further attributes.
fn document(alloc: Global, id: &str, attributes: Fields) -> Result<Doc, Fail> {
    let mut object = attributes;
    for (name, word) in [
        ("_id", id),
        ("_type", "t"),
        ("_rev", "tx-1"),
        ("_createdAt", "then"),
        ("_updatedAt", "now"),
    ] {
        put(alloc, &mut object, name, text(alloc, word)?)?;
    }
    match Doc::make(alloc, Val::Obj(object)) {
        Ok(doc) => Ok(doc),
        Err(_) => Err(Fail::new("no document")),
    }
}

// An object with one attribute.
fn one(alloc: Global, name: &str, val: Val) -> Result<Val, Fail> {
    let mut object = Fields::new(alloc);
    put(alloc, &mut object, name, val)?;
    Ok(Val::Obj(object))
}

// {"_ref": target, "in": {"_ref": inner}}
fn reference(alloc: Global, target: &str, inner: &str) -> Result<Val, Fail> {
    let mut object = Fields::new(alloc);
    put(alloc, &mut object, "_ref", text(alloc, target)?)?;
    put(
        alloc,
        &mut object,
        "in",
        one(alloc, "_ref", text(alloc, inner)?)?,
    )?;
    Ok(Val::Obj(object))
}

fn list(alloc: Global, val: Val) -> Result<Val, Fail> {
    let mut items = Vec::new(alloc);
    items.push(val)?;
    Ok(Val::List(items))
}

// {"b": {"c": {"d": 7, "l": [3]}}}
fn nested(alloc: Global) -> Result<Val, Fail> {
    let mut object = Fields::new(alloc);
    put(alloc, &mut object, "d", Val::Num(7))?;
    put(alloc, &mut object, "l", list(alloc, Val::Num(3))?)?;
    one(alloc, "b", one(alloc, "c", Val::Obj(object))?)
}

// ["x", 2, false, null, ["in"], {"_ref": "far", ..}]
fn tags(alloc: Global) -> Result<Val, Fail> {
    let mut items = Vec::new(alloc);
    items.push(text(alloc, "x")?)?;
    items.push(Val::Num(2))?;
    items.push(Val::Bool(false))?;
    items.push(Val::Null)?;
    items.push(list(alloc, text(alloc, "in")?)?)?;
    items.push(reference(alloc, "far", "farther")?)?;
    Ok(Val::List(items))
}

// {"a": {"b": ..}, "n": 1, "rows": [{"n": 5}], "s": "1x", "tags": ["x", ..], "_ref": "top",
//  "to": {"_ref": "near", ..}, "y": true, "z": null}
fn sample(alloc: Global) -> Result<Doc, Fail> {
    let mut object = Fields::new(alloc);
    put(alloc, &mut object, "a", nested(alloc)?)?;
    put(alloc, &mut object, "n", Val::Num(1))?;
    put(
        alloc,
        &mut object,
        "rows",
        list(alloc, one(alloc, "n", Val::Num(5))?)?,
    )?;
    put(alloc, &mut object, "s", text(alloc, "1x")?)?;
    put(alloc, &mut object, "tags", tags(alloc)?)?;
    put(alloc, &mut object, "_ref", text(alloc, "top")?)?;
    put(
        alloc,
        &mut object,
        "to",
        reference(alloc, "near", "nearer")?,
    )?;
    put(alloc, &mut object, "y", Val::Bool(true))?;
    put(alloc, &mut object, "z", Val::Null)?;
    document(alloc, "d", object)
}

#[test]
fn keys_of_a_document(rt: HostRuntime) -> Result<(), Fail> {
    let doc = sample(rt.alloc())?;
    let had = [
        "id d",
        "path s 1x",
        "path y true",
        "path a.b.c.d 7",
        "path to.in._ref nearer",
        "elem tags false",
        "elem a.b.c.l 3",
        "ref top",
        "ref nearer",
        "ref farther",
    ];
    for words in had {
        assert!(rt; has(&key(rt.alloc(), words)?, &doc), "{words}");
    }
    let lacked = [
        "path n true",
        "path z false",
        "path absent false",
        "path a.b.c 7",
        "path n.n 1",
        "path tags x",
        "path rows.n 5",
        "elem tags in",
        "elem n 1",
        "elem rows.n 5",
        "ref d",
        "ref 1x",
    ];
    for words in lacked {
        assert!(rt; !has(&key(rt.alloc(), words)?, &doc), "{words}");
    }
    Ok(())
}

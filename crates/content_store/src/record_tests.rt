//! What queries look up, where a short cut leaves something out: told by the changes that touch the
//! record of each.
ghost use Rattle.std.specs.Prelude.{◌≡◌, ◌<◌};

use cs_docs::Docs;
use cs_eval::eval;
use cs_parse::parse;
use cs_syntax::Query;
use cs_value::{Fields, NoMemory, Steps, Txt, Val};
use cs_view::{Change, Doc, Record};
use std::alloc::Global;
use std::marker::Brand;
use std::sync::ledger::{Blank, Ledger};
use std::test::Fail;

fn put(alloc: Global, object: &mut Fields, name: &str, text: &str) -> Result<(), NoMemory> {
    let name = Txt::copy_of(alloc, name)?;
    drop(object.put(name, Val::Text(Txt::copy_of(alloc, text)?))?);
    Ok(())
}

// The change that makes a document of this id and type.
fn made(alloc: Global, id: &str, kind: &str) -> Result<Change, Fail> {
    let mut object = Fields::new(alloc);
    put(alloc, &mut object, "_id", id)?;
    put(alloc, &mut object, "_type", kind)?;
    put(alloc, &mut object, "_rev", "r")?;
    put(alloc, &mut object, "_createdAt", "c")?;
    put(alloc, &mut object, "_updatedAt", "u")?;
    match Doc::make(alloc, Val::Obj(object)) {
        Ok(doc) => Ok(Change {
            id: Txt::copy_of(alloc, id)?,
            before: None,
            after: Some(doc),
        }),
        Err(_) => Err(Fail::new("no document")),
    }
}

// Whether the record of a query over no documents is touched by `x` of the type `t`, and by `y` of
// the type `u`.
fn touched<L: Ledger>(blank: Blank, alloc: Global, query: &Query) -> Result<(bool, bool), Fail>
    requires name { blank.name ≡ L.name }
    requires parts { blank.parts ≡ L.parts }
    requires some { 0 < blank.parts }
{
    let mut steps = Steps::<L>::new(blank);
    let docs = Docs::new(alloc);
    let params = Fields::new(alloc);
    let mut keys = Record::new(alloc);
    drop(eval(alloc, query, &params, &docs, &mut keys, &mut steps)?);
    let first = [made(alloc, "x", "t")?];
    let second = [made(alloc, "y", "u")?];
    Ok((keys.touched(&first), keys.touched(&second)))
}

fn found(alloc: Global, text: &str) -> Result<(bool, bool), Fail> {
    if text.len() > 1000 {
        return Err(Fail::new("a long query"));
    }
    let Ok(query) = parse(alloc, text) else {
        return Err(Fail::new("no query"));
    };
    touched::<Brand>(Blank::new(1), alloc, &query)
}

const LOOKED_UP: [(&str, (bool, bool)); 21] = [
    ("1", (false, false)),
    ("*", (true, true)),
    ("*[_type == 't']", (true, false)),
    ("*[_type == 'u' && n > 1]", (false, true)),
    ("*[_type == 't' || _type == 'u']", (true, true)),
    ("*[_id == 'y'].name", (false, true)),
    ("*[_id == 'z']", (false, false)),
    ("*[references('x')]", (false, false)),
    ("count(*[_type == 'u'])", (false, true)),
    ("false && count(*) > 0", (false, false)),
    ("true && count(*) > 0", (true, true)),
    ("true || count(*) > 0", (false, false)),
    ("false || count(*) > 0", (true, true)),
    ("coalesce(1, count(*))", (false, false)),
    ("coalesce(null, count(*))", (true, true)),
    ("select(true => 1, count(*))", (false, false)),
    ("select(false => count(*), 2)", (false, false)),
    ("select(false => 1, count(*[_type == 't']))", (true, false)),
    ("{'a': {'_ref': 'x'}}.a->name", (true, false)),
    ("[{'_ref': 'y'}][]->name", (false, true)),
    ("null->name", (false, false)),
];

#[test]
fn looks_up_what_the_value_needs(rt: HostRuntime) -> Result<(), Fail> {
    for (text, wanted) in &LOOKED_UP {
        assert_eq!(rt; found(rt.alloc(), text)?, *wanted, "of {text}");
    }
    Ok(())
}

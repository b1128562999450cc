//! Values that tell the cases of the definitions apart, as the language has them.
use super::*;
use cs_value::{Fields, Txt, Val};
use std::alloc::Global;
use std::process::Abort;
use std::test::Fail;

// The values that the words build, in order. `,` puts the value before it into the list before
// that, and `:name` puts it into the object before that, under the name.
fn values(alloc: Global, words: &str) -> Result<Vec<Val>, Fail> {
    let mut vals = Vec::new(alloc);
    for word in words.split(' ') {
        build(alloc, &mut vals, word)?;
    }
    Ok(vals)
}

fn build(alloc: Global, vals: &mut Vec<Val>, word: &str) -> Result<(), Fail> {
    if word == "," {
        return put_item(vals);
    }
    match word.strip_prefix(':') {
        Some(name) => put_member(vals, Txt::copy_of(alloc, name)?),
        None => Ok(vals.push(value(alloc, word)?)?),
    }
}

fn put_item(vals: &mut Vec<Val>) -> Result<(), Fail> {
    match (vals.pop(), vals.last_mut()) {
        (Some(item), Some(Val::List(items))) => Ok(items.push(item)?),
        _ => Err(Fail::new("no list")),
    }
}

fn put_member(vals: &mut Vec<Val>, name: Txt) -> Result<(), Fail> {
    match (vals.pop(), vals.last_mut()) {
        (Some(member), Some(Val::Obj(object))) => {
            drop(object.put(name, member)?);
            Ok(())
        }
        _ => Err(Fail::new("no object")),
    }
}

// `-`, `t` and `f` are null, true and false, and a text has `'` before it.
fn value(alloc: Global, word: &str) -> Result<Val, Fail> {
    Ok(match word {
        "-" => Val::Null,
        "t" => Val::Bool(true),
        "f" => Val::Bool(false),
        "[]" => Val::List(Vec::new(alloc)),
        "{}" => Val::Obj(Fields::new(alloc)),
        _ => match word.strip_prefix('\'') {
            Some(text) => Val::Text(Txt::copy_of(alloc, text)?),
            None => Val::Num(word.parse::<i64>()?),
        },
    })
}

// The values in front of ` => `, and the one behind it.
fn row(alloc: Global, words: &str) -> Result<(Vec<Val>, Val), Fail> {
    let Some((given, wanted)) = words.split_once(" => ") else {
        return Err(Fail::new("no row"));
    };
    match values(alloc, wanted)?.pop() {
        Some(wanted) => Ok((values(alloc, given)?, wanted)),
        None => Err(Fail::new("no value")),
    }
}

// What functions make of lists and of numbers in them.
const OF_LISTS: [(Function, &str); 20] = [
    (Function::Count, "[] - , 'a , => 2"),
    (Function::Count, "'ab => -"),
    (Function::Defined, "f => t"),
    (Function::Defined, "- => f"),
    (
        Function::Unique,
        "[] 1 , 'a , 1 , - , - , => [] 1 , 'a , - ,",
    ),
    (Function::Unique, "[] 1 , '1 , t , => [] 1 , '1 , t ,"),
    (Function::Unique, "[] [] , [] , => [] [] , [] ,"),
    (Function::Compact, "[] - , 1 , f , - , => [] 1 , f ,"),
    (Function::Compact, "{} => -"),
    (Function::Sum, "[] => 0"),
    (Function::Sum, "[] 1 , - , 2 , => 3"),
    (Function::Sum, "[] 1 , 'a , => -"),
    (
        Function::Sum,
        "[] 9223372036854775807 , 1 , -1 , => 9223372036854775807",
    ),
    (Function::Sum, "[] 9223372036854775807 , 1 , => -"),
    (Function::Sum, "1 => -"),
    (Function::Min, "[] => -"),
    (Function::Min, "[] - , => -"),
    (Function::Min, "[] 2 , - , -1 , => -1"),
    (Function::Max, "[] 2 , - , -1 , => 2"),
    (Function::Max, "[] 2 , t , => -"),
];

// What functions make of one value as a text, and how long it is.
const OF_TEXTS: [(Function, &str); 7] = [
    (Function::Length, "'héé => 3"),
    (Function::Length, "[] - , => 1"),
    (Function::Length, "{} => -"),
    (Function::Text, "t => 'true"),
    (
        Function::Text,
        "-9223372036854775808 => '-9223372036854775808",
    ),
    (Function::Text, "- => -"),
    (Function::Text, "[] => -"),
];

// Each function is written out, so that it is known to have one argument.
fn of_one(alloc: Global, function: Function, val: &Val) -> Result<Val, Fail> {
    Ok(match function {
        Function::Join | Function::Split | Function::StartsWith => Val::Null,
        Function::Count => call(alloc, Function::Count, val, None)?,
        Function::Length => call(alloc, Function::Length, val, None)?,
        Function::Defined => call(alloc, Function::Defined, val, None)?,
        Function::Text => call(alloc, Function::Text, val, None)?,
        Function::Unique => call(alloc, Function::Unique, val, None)?,
        Function::Compact => call(alloc, Function::Compact, val, None)?,
        Function::Sum => call(alloc, Function::Sum, val, None)?,
        Function::Min => call(alloc, Function::Min, val, None)?,
        Function::Max => call(alloc, Function::Max, val, None)?,
    })
}

fn works_out(rt: &impl Abort, alloc: Global, function: Function, words: &str) -> Result<(), Fail> {
    let (vals, wanted) = row(alloc, words)?;
    let [val] = vals.as_slice() else {
        return Err(Fail::new("no one value"));
    };
    let found = of_one(alloc, function, val)?;
    assert!(rt; found.same(&wanted), "{function:?} {words}");
    Ok(())
}

#[test]
fn functions_of_one_value(rt: HostRuntime) -> Result<(), Fail> {
    for (function, words) in &OF_LISTS {
        works_out(&rt, rt.alloc(), *function, words)?;
    }
    for (function, words) in &OF_TEXTS {
        works_out(&rt, rt.alloc(), *function, words)?;
    }
    Ok(())
}

const OF_TWO: [(Function, &str); 12] = [
    (Function::Join, "[] 'a , 1 , t , '- => 'a-1-true"),
    (Function::Join, "[] ', => '"),
    (Function::Join, "[] 'a , - , '- => -"),
    (Function::Join, "[] 'a , 1 => -"),
    (Function::Split, "'a,b, ', => [] 'a , 'b , ' ,"),
    (Function::Split, "'aaa 'aa => [] ' , 'a ,"),
    (Function::Split, "' '- => []"),
    (Function::Split, "'aé ' => [] 'a , 'é ,"),
    (Function::Split, "1 ', => -"),
    (Function::StartsWith, "'aab ' => t"),
    (Function::StartsWith, "'ab 'aab => f"),
    (Function::StartsWith, "[] 'a => -"),
];

// Each function is written out, so that it is known to have two arguments.
fn of_two(alloc: Global, function: Function, first: &Val, second: &Val) -> Result<Val, Fail> {
    Ok(match function {
        Function::Join => call(alloc, Function::Join, first, Some(second))?,
        Function::Split => call(alloc, Function::Split, first, Some(second))?,
        Function::StartsWith => call(alloc, Function::StartsWith, first, Some(second))?,
        _ => Val::Null,
    })
}

#[test]
fn functions_of_two_values(rt: HostRuntime) -> Result<(), Fail> {
    for (function, words) in &OF_TWO {
        let (vals, wanted) = row(rt.alloc(), words)?;
        let [first, second] = vals.as_slice() else {
            return Err(Fail::new("no two values"));
        };
        let found = of_two(rt.alloc(), *function, first, second)?;
        assert!(rt; found.same(&wanted), "{function:?} {words}");
    }
    Ok(())
}

// Whether each value refers to `a`.
const REFERRING: [&str; 8] = [
    "'a => f",
    "{} 'a :_ref => t",
    "{} 'b :_ref => f",
    "{} {} 'a :_ref :x => t",
    "[] {} [] 1 , {} 'a :_ref , :x , => t",
    "{} {} 'a :_ref :_ref => t",
    "{} 'b :_ref {} 'a :_ref :x => f",
    "{} - :_ref {} 'a :_ref :x => t",
];

#[test]
fn references(rt: HostRuntime) -> Result<(), Fail> {
    let target = Txt::copy_of(rt.alloc(), "a")?;
    for words in REFERRING {
        let (vals, wanted) = row(rt.alloc(), words)?;
        let [val] = vals.as_slice() else {
            return Err(Fail::new("no one value"));
        };
        assert!(rt; Val::Bool(refers(val, &target)).same(&wanted), "{words}");
    }
    Ok(())
}

const PATHS: [(&str, &str, bool); 12] = [
    ("a", "a.b", false),
    ("*", "", false),
    ("*", "a.b", false),
    ("**", "", true),
    ("a.*", "a.b", true),
    ("a.**", "a", false),
    ("a.**", "a.", true),
    ("a.**", "a.b.c", true),
    ("**.c", "c", false),
    ("a.**.c", "a.c", false),
    ("**.b.c.**.d", "x.b.b.c.y.d", true),
    ("a*", "ab", false),
];

#[test]
fn path_patterns(rt: HostRuntime) {
    for (pattern, text, wanted) in &PATHS {
        assert!(rt;
            path_matches(pattern, text) == *wanted,
            "{pattern} on {text}"
        );
    }
}

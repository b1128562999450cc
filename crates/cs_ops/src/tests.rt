//! Values that tell the cases of the definitions apart, as the language has them.
use super::*;
use cs_value::{Fields, Txt, Val};
use std::alloc::Global;
use std::cmp::Ordering;
use std::process::Abort;
use std::test::Fail;

// The values that the words build, in order. `,` puts the value before it into the list before
// that, and `:name` puts it into the object before that, under the name.
fn values(alloc: Global, words: &str) -> Result<Vec<Val>, Fail> {
    let mut vals = Vec::new(alloc);
    for word in words.split(' ') {
        build(alloc, &mut vals, word)?;
    }
    Ok(vals)
}

fn build(alloc: Global, vals: &mut Vec<Val>, word: &str) -> Result<(), Fail> {
    if word == "," {
        return put_item(vals);
    }
    match word.strip_prefix(':') {
        Some(name) => put_member(vals, Txt::copy_of(alloc, name)?),
        None => Ok(vals.push(value(alloc, word)?)?),
    }
}

fn put_item(vals: &mut Vec<Val>) -> Result<(), Fail> {
    match (vals.pop(), vals.last_mut()) {
        (Some(item), Some(Val::List(items))) => Ok(items.push(item)?),
        _ => Err(Fail::new("no list")),
    }
}

fn put_member(vals: &mut Vec<Val>, name: Txt) -> Result<(), Fail> {
    match (vals.pop(), vals.last_mut()) {
        (Some(member), Some(Val::Obj(object))) => {
            drop(object.put(name, member)?);
            Ok(())
        }
        _ => Err(Fail::new("no object")),
    }
}

// `-`, `t` and `f` are null, true and false, and a text has `'` before it.
fn value(alloc: Global, word: &str) -> Result<Val, Fail> {
    Ok(match word {
        "-" => Val::Null,
        "t" => Val::Bool(true),
        "f" => Val::Bool(false),
        "[]" => Val::List(Vec::new(alloc)),
        "{}" => Val::Obj(Fields::new(alloc)),
        _ => match word.strip_prefix('\'') {
            Some(text) => Val::Text(Txt::copy_of(alloc, text)?),
            None => Val::Num(word.parse::<i64>()?),
        },
    })
}

// The values in front of ` => `, and the one behind it.
fn row(alloc: Global, words: &str) -> Result<(Vec<Val>, Val), Fail> {
    let Some((given, wanted)) = words.split_once(" => ") else {
        return Err(Fail::new("no row"));
    };
    match values(alloc, wanted)?.pop() {
        Some(wanted) => Ok((values(alloc, given)?, wanted)),
        None => Err(Fail::new("no value")),
    }
}

// What conditions and comparisons make of two values.
const TESTS: [(Op, &str); 19] = [
    (Op::And, "t - => -"),
    (Op::And, "- f => f"),
    (Op::And, "f 1 => f"),
    (Op::And, "t 'a => -"),
    (Op::Or, "- t => t"),
    (Op::Or, "f 0 => -"),
    (Op::Or, "f f => f"),
    (Op::Eq, "- - => t"),
    (Op::Eq, "f - => f"),
    (Op::Eq, "1 '1 => f"),
    (Op::Eq, "[] 1 , [] 1 , => f"),
    (Op::Ne, "{} {} => t"),
    (Op::Lt, "f t => t"),
    (Op::Lt, "1 'a => -"),
    (Op::Lt, "-7 -8 => f"),
    (Op::Le, "- - => -"),
    (Op::Le, "'b 'b => t"),
    (Op::Gt, "'é 'z => t"),
    (Op::Ge, "[] [] => -"),
];

// What arithmetic and joins make of two values.
const SUMS: [(Op, &str); 12] = [
    (Op::Add, "9223372036854775807 1 => -"),
    (Op::Add, "'b 'bé => 'bbé"),
    (Op::Add, "'b 2 => -"),
    (Op::Add, "[] 2 , [] - , => [] 2 , - ,"),
    (
        Op::Add,
        "{} 2 :a 'b :b {} [] :a - :c => {} [] :a 'b :b - :c",
    ),
    (Op::Sub, "0 -9223372036854775808 => -"),
    (Op::Sub, "'b 'b => -"),
    (Op::Mul, "-7 -7 => 49"),
    (Op::Mul, "9223372036854775807 2 => -"),
    (Op::Rem, "7 0 => -"),
    (Op::Rem, "-7 2 => -1"),
    (Op::Rem, "7 -2 => 1"),
];

// Each operator from both values as they stay, and onto the first.
fn works_out(rt: &impl Abort, alloc: Global, op: Op, words: &str) -> Result<(), Fail> {
    let (vals, wanted) = row(alloc, words)?;
    let [a, b] = vals.as_slice() else {
        return Err(Fail::new("no two values"));
    };
    let found = binary(alloc, op, a, b)?;
    assert!(rt; found.same(&wanted), "{op:?} {words}");
    let grown = binary_onto(alloc, op, a.copy(alloc)?, b)?;
    assert!(rt; grown.same(&wanted), "{op:?} {words}, onto the first");
    Ok(())
}

#[test]
fn two_values(rt: HostRuntime) -> Result<(), Fail> {
    for (op, words) in &TESTS {
        works_out(&rt, rt.alloc(), *op, words)?;
    }
    for (op, words) in &SUMS {
        works_out(&rt, rt.alloc(), *op, words)?;
    }
    Ok(())
}

const PREFIXED: [(Pre, &str); 6] = [
    (Pre::Minus, "7 => -7"),
    (Pre::Minus, "-9223372036854775808 => -"),
    (Pre::Minus, "'1 => -"),
    (Pre::Plus, "t => -"),
    (Pre::Not, "f => t"),
    (Pre::Not, "0 => -"),
];

#[test]
fn one_value(rt: HostRuntime) -> Result<(), Fail> {
    for (op, words) in &PREFIXED {
        let (vals, wanted) = row(rt.alloc(), words)?;
        let [a] = vals.as_slice() else {
            return Err(Fail::new("no one value"));
        };
        assert!(rt; prefix(*op, a).same(&wanted), "{op:?} {words}");
    }
    Ok(())
}

// Values in their order, and how each stands to the next one.
const ORDERED: &str = "-9223372036854775808 -7 0 ' 'b 'bé 'c f t [] 1 , - {} []";

const MARKS: &str = "<<<<<<<<<===";

#[test]
fn values_of_all_kinds_in_order(rt: HostRuntime) -> Result<(), Fail> {
    let vals = values(rt.alloc(), ORDERED)?;
    let mut marks = String::new(rt.alloc());
    for pair in vals.windows(2) {
        if let [a, b] = pair {
            marks.push_str(match (total(a, b), total(b, a)) {
                (Ordering::Less, Ordering::Greater) => "<",
                (Ordering::Equal, Ordering::Equal) => "=",
                _ => "?",
            })?;
        }
    }
    assert_eq!(rt; marks.as_str(), MARKS);
    Ok(())
}

const WITHIN: [&str; 5] = [
    "- [] 2 , - , => t",
    "'b [] 2 , => f",
    "[] [] [] , => f",
    "'b 'b => -",
    "1 {} 1 :a => -",
];

// A value, the two ends of a range, and whether the upper one is counted in.
const BETWEEN: [&str; 7] = [
    "0 0 2 f => t",
    "2 0 2 t => t",
    "2 0 2 f => f",
    "-7 0 2 t => f",
    "1 0 'a t => -",
    "-7 0 'a t => -",
    "'b 'a 'c t => t",
];

#[test]
fn lists_and_ranges(rt: HostRuntime) -> Result<(), Fail> {
    for words in WITHIN {
        let (vals, wanted) = row(rt.alloc(), words)?;
        let [a, list] = vals.as_slice() else {
            return Err(Fail::new("no two values"));
        };
        assert!(rt; within(a, list).same(&wanted), "{words}");
    }
    for words in BETWEEN {
        let (vals, wanted) = row(rt.alloc(), words)?;
        let [a, low, high, Val::Bool(closed)] = vals.as_slice() else {
            return Err(Fail::new("no range"));
        };
        assert!(rt; between(a, low, high, *closed).same(&wanted), "{words}");
    }
    Ok(())
}

//! The functions of texts.
ghost use Rattle.std.specs.Prelude.{◌≡◌, ◌<◌, ◌^◌, ◌++◌, ℕ, List, length, nat_eq, Some, None, IfOk, MatchBool, map, encode_utf8, option_map, string_bytes};
ghost use Rattle.std.specs.List.{starts_with};
ghost use Rattle.std.specs.Str.{chars};
ghost use Rattle.cs_value.specs.Tree.{text};
ghost use Rattle.cs_value.specs.View.{tree, list_tree};
ghost use Rattle.cs_func.specs.Texts.{size, string, string_of, join, joined, split, parts, cut, begins};

use crate::lists::count;
use cs_value::{NoMemory, Txt, Val};
use std::alloc::Global;

pub(crate) fn size(x: &Val) -> Val
    ensures { tree result ≡ size (tree x.now) }
{
    match x {
        Val::Text(text) => Val::Num(characters(text.as_str()) as i64),
        Val::List(_) => count(x),
        _ => Val::Null,
    }
}

/// How many characters, code points of Unicode, a text has.
pub fn characters(text: &str) -> usize
    ensures count { result ≡ length (chars text.now) }
    ensures small { result < 2 ^ 63 }
{
    text.chars().count()
}

pub(crate) fn string(alloc: Global, x: &Val) -> Result<Val, NoMemory>
    ensures { IfOk result (λ v. tree v ≡ string (tree x.now)) }
{
    match string_of(alloc, x)? {
        Some(text) => Ok(Val::Text(Txt::from_string(text))),
        None => Ok(Val::Null),
    }
}

fn string_of(alloc: Global, x: &Val) -> Result<Option<String>, NoMemory>
    ensures { IfOk result (λ s. option_map string_bytes s ≡ string_of (tree x.now)) }
{
    match x {
        Val::Bool(true) => Ok(Some(String::from_str(alloc, "true")?)),
        Val::Bool(false) => Ok(Some(String::from_str(alloc, "false")?)),
        Val::Num(n) => Ok(Some(format!(in alloc; "{n}")?)),
        Val::Text(text) => Ok(Some(String::from_str(alloc, text.as_str())?)),
        Val::Null | Val::List(_) | Val::Obj(_) => Ok(None),
    }
}

pub(crate) fn begins(x: &Val, prefix: &Val) -> Val
    ensures { tree result ≡ begins (tree x.now) (tree prefix.now) }
{
    match (x, prefix) {
        (Val::Text(text), Val::Text(prefix)) => Val::Bool(begins_with(
            text.as_str(),
            prefix.as_str(),
        )),
        _ => Val::Null,
    }
}

/// Whether a text begins with another one.
pub fn begins_with(text: &str, prefix: &str) -> bool
    ensures { result ≡ starts_with nat_eq text.now prefix.now }
{
    text.starts_with(prefix)
}

pub(crate) fn join(alloc: Global, x: &Val, separator: &Val) -> Result<Val, NoMemory>
    ensures { IfOk result (λ v. tree v ≡ join (tree x.now) (tree separator.now)) }
{
    match (x, separator) {
        (Val::List(items), Val::Text(separator)) => joined(alloc, items, separator.as_str()),
        _ => Ok(Val::Null),
    }
}

fn joined(alloc: Global, items: &Vec<Val>, separator: &str) -> Result<Val, NoMemory>
    ensures { IfOk result (λ v. tree v ≡ joined separator.now (list_tree items.now.items)) }
{
    let mut text = String::new(alloc);
    let mut later = false;
    for item in items {
        if later {
            text.push_str(separator)?;
        }
        later = true;
        if !push_string(alloc, item, &mut text)? {
            return Ok(Val::Null);
        }
    }
    Ok(Val::Text(Txt::from_string(text)))
}

// Appends the string of a value, and says whether it has one.
fn push_string(alloc: Global, x: &Val, to: &mut String) -> Result<bool, NoMemory>
    ensures { IfOk result (λ has. MatchBool has
        ((s : List ℕ) × (string_of (tree x.now) ≡ Some s)
        × (string_bytes to.new ≡ string_bytes to.old ++ s))
        (string_of (tree x.now) ≡ None)) }
{
    match x {
        Val::Bool(true) => to.push_str("true")?,
        Val::Bool(false) => to.push_str("false")?,
        Val::Num(n) => to.push_str(format!(in alloc; "{n}")?.as_str())?,
        Val::Text(text) => to.push_str(text.as_str())?,
        Val::Null | Val::List(_) | Val::Obj(_) => return Ok(false),
    }
    Ok(true)
}

pub(crate) fn split(alloc: Global, x: &Val, separator: &Val) -> Result<Val, NoMemory>
    ensures { IfOk result (λ v. tree v ≡ split (tree x.now) (tree separator.now)) }
{
    match (x, separator) {
        (Val::Text(text), Val::Text(separator)) => {
            Ok(Val::List(parts(alloc, text.as_str(), separator.as_str())?))
        }
        _ => Ok(Val::Null),
    }
}

fn parts(alloc: Global, whole: &str, separator: &str) -> Result<Vec<Val>, NoMemory>
    ensures { IfOk result (λ v. list_tree v.items ≡ map text (parts whole.now separator.now)) }
{
    if whole.is_empty() {
        return Ok(Vec::new(alloc));
    }
    if separator.is_empty() {
        return each_character(alloc, whole);
    }
    cut(alloc, whole, separator)
}

fn each_character(alloc: Global, whole: &str) -> Result<Vec<Val>, NoMemory>
    ensures { IfOk result (λ v. list_tree v.items ≡ map text (map encode_utf8 (chars whole.now))) }
{
    let mut parts = Vec::new(alloc);
    for c in whole.chars() {
        parts.push(one_character(alloc, c)?)?;
    }
    Ok(parts)
}

fn one_character(alloc: Global, c: char) -> Result<Val, NoMemory>
    ensures { IfOk result (λ v. tree v ≡ text (encode_utf8 c)) }
{
    let mut part = String::new(alloc);
    part.push(c)?;
    Ok(Val::Text(Txt::from_string(part)))
}

fn cut(alloc: Global, whole: &str, separator: &str) -> Result<Vec<Val>, NoMemory>
    requires { 0 < length separator.now }
    ensures { IfOk result (λ v. list_tree v.items ≡ map text (cut separator.now 0 whole.now)) }
{
    let mut parts = Vec::new(alloc);
    let mut rest = whole;
    while let Some((part, more)) = rest.split_once(separator) {
        parts.push(Val::Text(Txt::copy_of(alloc, part)?))?;
        rest = more;
    }
    parts.push(Val::Text(Txt::copy_of(alloc, rest)?))?;
    Ok(parts)
}

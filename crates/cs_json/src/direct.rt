//! Values read token by token, with nothing made in between.
ghost use Rattle.std.specs.Prelude.{◌≡◌, ◌<◌, List, length, slice_index, ◌==◌, IsTrue, Some, IfSome, OnSome, IsUtf8, FitsSigned, option_and_then};
ghost use Rattle.std.specs.Int.{w64};
ghost use Rattle.json.specs.Json.{value, items, members};
ghost use Rattle.serde_json.specs.Data.{Data};
ghost use Rattle.serde_json.specs.Find.{as_i64};
ghost use Rattle.serde_json.specs.Read.{converted, number_of, read};
ghost use Rattle.cs_value.specs.Tree.{trees};
ghost use Rattle.cs_value.specs.View.{tree, fields, list_tree};
ghost use Rattle.cs_json.specs.Direct.{Named, made, made_items, named, Fits, AllFit, IsPutTogether};
ghost use Rattle.cs_json.specs.Reading.{whole};

use cs_value::{Fields, Txt, Val};
use fast_float::Numeral;
use json::{Reader, Scratch, Token};
use std::alloc::Global;

// The levels to which serde_json reads.
const MOST_LEVELS: usize = 127;

// An object and a list are gathered where there is room for so many members or items at first, so
// that the allocator gives the same memory again and again: it is less than a kilobyte, up to which
// allocators keep blocks at hand.
const ROOM: usize = 18;

/// The value that the bytes are as JSON, if its lists and objects nest at most `deepest` levels and
/// each of its numbers is whole; an object that it is has room for `room` attributes more. `None`
/// says nothing of the bytes.
pub(crate) fn read_direct(
    alloc: Global,
    scratch: &mut Scratch,
    bytes: &[u8],
    deepest: u32,
    room: usize,
) -> Option<Val>
    ensures value { IfSome result (λ v. IsUtf8 bytes.now
        × ((d : Data) × (read bytes.now ≡ Some d) × (whole d ≡ Some (tree v)))) }
    ensures fits { IfSome result (λ v. Fits deepest (tree v)) }
{
    let text = std::str::from_utf8(bytes).ok()?;
    let mut reader = Reader::new(text, scratch).ok()?;
    let val = read_value(alloc, &mut reader, MOST_LEVELS, deepest as usize, room)?;
    if reader.next().is_some() {
        return None;
    }
    Some(val)
}

fn has_minus(bytes: &[u8]) -> bool
    ensures value { result ≡ (slice_index bytes.now 0 == 45) }
    ensures len { IsTrue result → 0 < length bytes.now }
{
    !bytes.is_empty() && bytes[0] == b'-'
}

// The number of a token, where it is whole and has 64 bits.
fn whole_number(text: &str) -> Option<i64>
    ensures value { IfSome result (λ n. option_and_then as_i64 (number_of text.now) ≡ Some n) }
    ensures fits { IfSome result (FitsSigned w64) }
{
    let bytes = text.as_bytes();
    if !has_minus(bytes) {
        return Numeral::scan(bytes).to_i64(false);
    }
    let n = Numeral::scan(&bytes[1..]).to_i64(true)?;
    // serde_json takes `-0` as a float.
    if n < 0 { Some(n) } else { None }
}

// The next value, whose arrays and objects nest less than `levels` deep for serde_json, and at most
// `left` levels. An object that it is has room for `room` attributes more.
#[cycle(read)]
fn read_value(
    alloc: Global,
    reader: &mut Reader<'_>,
    levels: usize,
    left: usize,
    room: usize,
) -> Option<Val>
    ensures value { IfSome result
        (λ v. converted made (value levels reader.old) ≡ Some (tree v, reader.new)) }
    ensures shorter { OnSome result (length reader.new < length reader.old) }
    ensures fits { IfSome result (λ v. Fits left (tree v)) }
{
    let token = reader.next()?;
    match token {
        Token::Null => Some(Val::Null),
        Token::Bool(b) => Some(Val::Bool(b)),
        Token::Number(text) => Some(Val::Num(whole_number(text)?)),
        Token::String(text) => Some(Val::Text(Txt::copy_of(alloc, text).ok()?)),
        Token::BeginArray => {
            if levels == 0 || left == 0 {
                return None;
            }
            Some(Val::List(read_items(alloc, reader, levels - 1, left - 1)?))
        }
        Token::BeginObject => {
            if levels == 0 || left == 0 {
                return None;
            }
            let object = read_members(alloc, reader, levels - 1, left - 1)?;
            Some(Val::Obj(object.fitted(room).ok()?))
        }
        Token::EndObject | Token::EndArray | Token::Key(_) | Token::Bad => None,
    }
}

#[cycle(read)]
fn read_items(
    alloc: Global,
    reader: &mut Reader<'_>,
    levels: usize,
    left: usize,
) -> Option<Vec<Val>>
    ensures items { IfSome result
        (λ v. converted made_items (items (value levels) (length reader.old) reader.old)
        ≡ Some (trees (list_tree v.items), reader.new)) }
    ensures shorter { OnSome result (length reader.new < length reader.old) }
    ensures fit { IfSome result (λ v. AllFit left (list_tree v.items)) }
{
    let mut found = Vec::with_capacity(alloc, ROOM).ok()?;
    'items: while !reader.take_end_array() {
        let item = read_value(alloc, reader, levels, left, 0)?;
        found.push(item).ok()?;
    }
    just_its_size(alloc, found)
}

// The same items in a vector of just their size.
fn just_its_size(alloc: Global, mut found: Vec<Val>) -> Option<Vec<Val>>
    ensures { IfSome result (λ v. v.items ≡ found.items) }
{
    let mut items = Vec::with_capacity(alloc, found.len()).ok()?;
    items.append(&mut found).ok()?;
    Some(items)
}

// The object of the members, where the last one of a name stays.
#[cycle(read)]
fn read_members(
    alloc: Global,
    reader: &mut Reader<'_>,
    levels: usize,
    left: usize,
) -> Option<Fields>
    ensures members { IfSome result (λ f. (es : List Named)
        × (converted named (members (value levels) (length reader.old) reader.old)
        ≡ Some (es, reader.new)) × IsPutTogether left es (fields f)) }
    ensures shorter { OnSome result (length reader.new < length reader.old) }
{
    let mut object = Fields::with_capacity(alloc, ROOM).ok()?;
    'members: while let Some(name) = reader.next_key().ok()? {
        let name = Txt::copy_of(alloc, name).ok()?;
        let member = read_value(alloc, reader, levels, left, 0)?;
        object.set(name, member).ok()?;
    }
    Some(object)
}

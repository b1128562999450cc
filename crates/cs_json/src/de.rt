//! Values read from JSON.
ghost use Rattle.std.specs.Prelude.{◌≡◌, ◌≤◌, length, MatchResult, IfOk};
ghost use Rattle.cs_value.specs.Tree.{widest, depth as nesting};
ghost use Rattle.cs_value.specs.Value.{IsValue};
ghost use Rattle.cs_value.specs.View.{tree};
ghost use Rattle.cs_json.specs.Reading.{outcome, value, IsCause};

use crate::JsonFault;
use crate::convert::convert;
use crate::depth::depth;
use crate::direct::read_direct;
use cs_value::Val;
use json::Scratch;
use serde_json::Value;
use std::alloc::Global;

/// Reads values one after another, each as [`read`] does. The memory that reading itself needs is
/// kept from one to the next.
#[derive(Drop)]
pub struct ValueReader {
    alloc: Global,
    scratch: Scratch,
    room: usize,
}

impl ValueReader {
    /// A reader whose values are allocated by `alloc`.
    pub fn new(alloc: Global) -> ValueReader {
        ValueReader::with_room(alloc, 0)
    }

    /// A reader that leaves room for so many attributes more in each object that it reads, but not
    /// in the parts of one: for a caller who adds them.
    pub fn with_room(alloc: Global, attributes: u8) -> ValueReader {
        ValueReader {
            alloc,
            scratch: Scratch::new(alloc),
            room: usize::from(attributes),
        }
    }

    /// The value that the bytes are as JSON, by serde_json's reading: where an object repeats a
    /// name, the last value stands. Each fault comes exactly where [`JsonFault`] says, with lists
    /// and objects nesting at most `deepest` levels. No text or name of the value has more bytes
    /// than `bytes` has, and no list has more members.
    pub fn read(&mut self, bytes: &[u8], deepest: u32) -> Result<Val, JsonFault>
        requires { deepest ≤ 64 }
        ensures outcome { MatchResult result
            (λ v. outcome deepest bytes.now ≡ value (tree v))
            (λ e. IsCause e (outcome deepest bytes.now)) }
        ensures shallow { IfOk result (λ v. nesting (tree v) ≤ deepest) }
        ensures value { IfOk result (λ v. IsValue (tree v)) }
        ensures within { IfOk result (λ v. widest (tree v) ≤ length bytes.now) }
    {
        let read = read_direct(self.alloc, &mut self.scratch, bytes, deepest, self.room);
        if let Some(val) = read {
            return Ok(val);
        }
        read_or_tell(self.alloc, bytes, deepest)
    }
}

/// The value that the bytes are as JSON, by serde_json's reading: where an object repeats a name,
/// the last value stands. Each fault comes exactly where [`JsonFault`] says, with lists and objects
/// nesting at most `deepest` levels. None of its texts and names has more bytes than `bytes` has,
/// and no list has more members. For many values, [`ValueReader`] takes less time.
pub fn read(alloc: Global, bytes: &[u8], deepest: u32) -> Result<Val, JsonFault>
    requires { deepest ≤ 64 }
    ensures outcome { MatchResult result
        (λ v. outcome deepest bytes.now ≡ value (tree v))
        (λ e. IsCause e (outcome deepest bytes.now)) }
    ensures shallow { IfOk result (λ v. nesting (tree v) ≤ deepest) }
    ensures value { IfOk result (λ v. IsValue (tree v)) }
    ensures within { IfOk result (λ v. widest (tree v) ≤ length bytes.now) }
{
    ValueReader::new(alloc).read(bytes, deepest)
}

// The same by way of serde_json's value, which tells what is wrong with bytes that are none.
fn read_or_tell(alloc: Global, bytes: &[u8], deepest: u32) -> Result<Val, JsonFault>
    requires { deepest ≤ 64 }
    ensures outcome { MatchResult result
        (λ v. outcome deepest bytes.now ≡ value (tree v))
        (λ e. IsCause e (outcome deepest bytes.now)) }
    ensures shallow { IfOk result (λ v. nesting (tree v) ≤ deepest) }
    ensures value { IfOk result (λ v. IsValue (tree v)) }
    ensures within { IfOk result (λ v. widest (tree v) ≤ length bytes.now) }
{
    let value = match Value::from_slice(alloc, bytes) {
        Ok(value) => value,
        Err(e) => {
            if e.is_memory() {
                return Err(JsonFault::NoMemory);
            }
            return Err(JsonFault::NotJson);
        }
    };
    if depth(&value) > deepest {
        return Err(JsonFault::TooDeep);
    }
    convert(alloc, value)
}

//! A text read as a path.
ghost use Rattle.std.specs.Prelude.{◌≡◌, ◌<◌, ◌^◌, length, IfSome};
ghost use Rattle.cs_jsonmatch.specs.Verdict.{path_verdict, reading};

use crate::cursor::{Cursor, Stop};
use crate::path::JsonPath;
use std::alloc::Global;

/// Why a text was not read as a path.
#[derive(Clone, Copy, Debug, Drop, PartialEq, Eq)]
pub enum PathFault {
    /// The text spells no path. `at` is the length in bytes of the longest prefix of the text that
    /// some path begins with too: the length of the text, where the text itself does.
    BadPath { at: u32 },
    /// The allocator has no room for the path.
    NoMemory,
}

impl JsonPath {
    /// The path that the text spells, and `BadPath` exactly where it spells none: the answer is
    /// the text's one reading, `path_verdict`. `NoMemory` comes where the allocator has no room.
    /// The text has fewer than 2^32 bytes. Paths are written as in Sanity's JSONMatch, in the
    /// profile of `docs/PATCHES.md`.
    pub fn read(alloc: Global, text: &str) -> Result<JsonPath, PathFault>
        requires { length text.now < 2 ^ 32 }
        ensures { IfSome (reading result) (λ r. path_verdict text.now ≡ r) }
    {
        let mut cursor = Cursor { rest: text };
        match cursor.steps(alloc) {
            Ok(steps) => Ok(JsonPath { steps }),
            Err(Stop::Here) => {
                let at = text.len() - cursor.rest.len();
                Err(PathFault::BadPath { at: at as u32 })
            }
            Err(Stop::NoMemory) => Err(PathFault::NoMemory),
        }
    }
}

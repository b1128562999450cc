//! The queries that were read last, by their texts.
ghost use Rattle.std.specs.Prelude.{◌≡◌, IfOk, IfSome, string_bytes};
ghost use Rattle.cs_syntax.specs.Queries.{expression_of};
ghost use Rattle.cs_parse.specs.Verdict.{query, verdict};

use crate::marks::Marks;
use cs_syntax::Query;
use cs_value::NoMemory;
use lru::LruCache;
use std::alloc::Global;
use std::marker::Model;
use std::num::NonZeroUsize;

// How many queries are kept at most.
const MOST_KEPT: usize = 64;

// How many bytes the text of a query that is kept has at most, so that what is kept stays small.
const LONGEST_KEPT: usize = 1_024;

/// The queries of texts that were read twice, at most 64 of them: those that were asked for last. A
/// text that comes once is not kept, since most of those never come again: of such a text a mark is
/// noted, by which it is known when it comes next. A text of more than 1,024 bytes is not kept.
/// Whoever chooses texts that meet in memory makes a look at one a look at 64 at most, so they are
/// spread by a hash without a seed. Contracts see how many they are, and that each is what its text
/// is read as.
#[derive(Drop)]
pub struct Recent {
    alloc: Global,
    queries: LruCache<String, Query>,
    marks: Marks,
}

impl Model for Recent {
    ghost use Rattle.std.specs.Prelude.{ℕ, length};
    ghost use Rattle.cs_recent.specs.Recent.{AreRead};

    ghost Value = { ℕ };

    ghost view = { λ r. length r.queries.entries };

    ghost invariant = { λ r. AreRead r.queries.entries };
}

impl Recent {
    /// None yet. `NoMemory` where the allocator has no room.
    pub fn new(alloc: Global) -> Result<Recent, NoMemory>
        ensures { IfOk result (λ recent. recent ≡ 0) }
    {
        let Some(most) = NonZeroUsize::new(MOST_KEPT) else {
            unreachable!();
        };
        let queries = LruCache::new(alloc, most)?;
        let marks = Marks::new(alloc)?;
        Ok(Recent {
            alloc,
            queries,
            marks,
        })
    }

    /// The query that is kept of the text, if one is: what the text is read as.
    pub fn recall(&mut self, text: &str) -> Option<&Query>
        ensures { IfSome result (λ found. verdict text.now ≡ query (expression_of found.now)) }
    {
        if !self.queries.promote(text) {
            return None;
        }
        self.queries.peek(text)
    }

    /// Keeps the query, which is what the text is read as, where the text came before. Where there
    /// is no memory for it, or the text is long, it is not kept.
    pub fn keep(&mut self, text: &str, read: Query)
        requires { verdict text.now ≡ query (expression_of read) }
    {
        if !self.marks.note(text) {
            drop(read);
            return;
        }
        match short_copy(self.alloc, text) {
            Some(copy) => drop(self.queries.put(copy, read)),
            None => drop(read),
        }
    }
}

// A copy of a text that is short enough to be kept, where there is memory for it.
fn short_copy(alloc: Global, text: &str) -> Option<String>
    ensures { IfSome result (λ copy. string_bytes copy ≡ text.now) }
{
    if text.len() > LONGEST_KEPT {
        return None;
    }
    String::from_str(alloc, text).ok()
}

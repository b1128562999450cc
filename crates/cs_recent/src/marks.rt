//! Marks of texts that came before.
use cs_value::NoMemory;
use std::alloc::Global;
use std::hash::{FoldHasher, Hash, Hasher};
use std::mem;

// How many marks are noted: more than queries are kept, so that texts which come in turn are known.
const MANY: usize = 256;

/// Marks of the texts that came last: one for all texts that are noted at one place, so a later
/// text may take the place of an earlier one, and seldom one text is taken for another. No clause
/// speaks of them, since time alone hangs on what they say.
#[derive(Drop)]
pub(crate) struct Marks {
    noted: Vec<u64>,
}

impl Marks {
    /// No marks yet. `NoMemory` where the allocator has no room.
    pub(crate) fn new(alloc: Global) -> Result<Marks, NoMemory> {
        let mut noted = Vec::new(alloc);
        noted.resize(MANY, 0)?;
        Ok(Marks { noted })
    }

    /// Notes the text, and says whether its mark stood there already.
    pub(crate) fn note(&mut self, text: &str) -> bool {
        let mark = mark_of(text);
        match self.noted.get_mut(mark as usize % MANY) {
            Some(noted) => mem::replace(noted, mark) == mark,
            None => false,
        }
    }
}

fn mark_of(text: &str) -> u64 {
    let mut hash = FoldHasher::default();
    text.hash(&mut hash);
    hash.finish()
}

//! What finding a share looked up, so kept that most changes are soon told not to touch it.
ghost use Rattle.std.specs.Prelude.{◌≡◌, ◌%◌, ◌^◌, true, IfOk};
ghost use Rattle.cs_view.specs.Changes.{are_changes};
ghost use Rattle.cs_view.specs.Touched.{touched};
ghost use Rattle.cs_view.specs.View.{edits};
ghost use Rattle.cs_codes.specs.Codes.{is_among};
ghost use Rattle.cs_hits.specs.Looked.{PassBy, mark as id_mark, marks, number, sole_mark};

use cs_value::{NoMemory, Txt};
use cs_view::{Change, Key, Record, some_touched};
use std::alloc::Global;
use std::marker::Model;

/// The keys that finding a share looked up, in their order. Contracts see it as their list. Mostly
/// it is one id: then its mark is kept beside the record, and changes of ids with other marks are
/// told without a look into the record.
#[derive(Drop)]
pub struct Looked {
    keys: Record,
    mark: Option<u64>,
}

impl Model for Looked {
    ghost use Rattle.std.specs.Prelude.{◌≡◌, List};
    ghost use Rattle.cs_view.specs.declared.key.Key.{Key};
    ghost use Rattle.cs_hits.specs.Looked.{sole_mark};

    ghost Value = { List Key };

    ghost view = { λ l. l.keys };

    ghost invariant = { λ l. l.mark ≡ sole_mark l.keys };
}

// The number of which the bytes are the digits, to 64 bits.
fn number(bytes: &[u8]) -> u64
    ensures { result ≡ number bytes.now % 2 ^ 64 }
{
    let mut low = 0u64;
    for byte in bytes {
        low = low.wrapping_mul(31).wrapping_add(u64::from(*byte));
    }
    low
}

#[tactic(auto, unfolding(crate::specs::Looked::mark))]
fn mark_of(id: &Txt) -> u64
    ensures { result ≡ id_mark id.now }
{
    number(id.as_str().as_bytes())
}

/// The marks of the changes' ids, in their order. `NoMemory` where the allocator has no room for
/// them.
pub fn marks_of(alloc: Global, changes: &[Change]) -> Result<Vec<u64>, NoMemory>
    ensures { IfOk result (λ ms. ms.items ≡ marks changes.now) }
{
    let mut found = Vec::with_capacity(alloc, changes.len())?;
    for change in changes {
        found.push(mark_of(&change.id))?;
    }
    Ok(found)
}

// The mark of the id that is the only key.
fn sole_mark(keys: &[Key]) -> Option<u64>
    ensures { result ≡ sole_mark keys.now }
{
    match keys {
        [Key::Id(id)] => Some(mark_of(id)),
        _ => None,
    }
}

#[inline]
fn has_mark(marks: &[u64], mark: u64) -> bool
    ensures { result ≡ is_among mark marks.now }
{
    for other in marks {
        if mark == *other {
            return true;
        }
    }
    false
}

impl Looked {
    /// The keys of a record.
    pub fn of(keys: Record) -> Looked
        ensures { result ≡ keys }
    {
        let mark = sole_mark(keys.keys());
        Looked { keys, mark }
    }

    /// The keys, in the order in which they were looked up.
    pub fn keys(&self) -> &[Key]
        ensures { result.now ≡ self.now }
    {
        self.keys.keys()
    }

    /// Whether marks alone tell that no changes whose ids have these marks touch one of the keys.
    /// It looks at no key.
    #[inline]
    pub fn is_spared(&self, id_marks: &[u64]) -> bool
        ensures { result ≡ true → PassBy id_marks.now self.now }
    {
        if let Some(mark) = self.mark {
            if !has_mark(id_marks, mark) {
                return true;
            }
        }
        false
    }

    /// Whether the changes, whose ids have these marks, touch one of the keys. It takes no memory.
    pub fn touched(&self, id_marks: &[u64], changes: &[Change]) -> bool
        requires changes { are_changes (edits changes.now) ≡ true }
        requires marks { id_marks.now ≡ marks changes.now }
        ensures { result ≡ touched self.now (edits changes.now) }
    {
        if self.is_spared(id_marks) {
            return false;
        }
        some_touched(self.keys.keys(), changes)
    }
}

//! What an evaluation looked up.
ghost use Rattle.std.specs.Prelude.{◌≡◌, ◌++◌, ◌∷◌, [], OnOk, OnErr};
ghost use Rattle.cs_view.specs.Touched.{touched, is_touched, touches};
ghost use Rattle.cs_view.specs.View.{edit, edits};

use crate::change::Change;
use crate::key::Key;
use crate::lookup::has;
use cs_value::NoMemory;
use std::alloc::Global;
use std::marker::Model;

/// The keys that an evaluation looked up, in the order in which they were added. Contracts see it
/// as the list of its keys.
#[derive(Drop)]
pub struct Record {
    keys: Vec<Key>,
}

impl Model for Record {
    ghost use Rattle.std.specs.Prelude.{List};
    ghost use Rattle.cs_view.specs.declared.key.Key.{Key};

    ghost Value = { List Key };

    ghost view = { λ r. r.keys.items };
}

impl Record {
    /// A record without keys. It takes no memory.
    pub fn new(alloc: Global) -> Record
        ensures { result ≡ [] }
    {
        Record {
            keys: Vec::new(alloc),
        }
    }

    /// Adds the key last. `NoMemory` where the record cannot grow; it is unchanged then.
    pub fn add(&mut self, key: Key) -> Result<(), NoMemory>
        ensures added { OnOk result (self.new ≡ self.old ++ key ∷ []) }
        ensures kept { OnErr result (self.new ≡ self.old) }
    {
        match self.keys.push(key) {
            Ok(()) => Ok(()),
            Err(_) => Err(NoMemory),
        }
    }

    /// The keys, in the order in which they were added.
    pub fn keys(&self) -> &[Key]
        ensures { result.now ≡ self.now }
    {
        &self.keys
    }

    /// The keys by value, in the order in which they were added.
    pub fn into_keys(self) -> Vec<Key>
        ensures { result.items ≡ self }
    {
        self.keys
    }

    /// Whether some key of the record is had by the document before or after some change. It takes
    /// no memory.
    pub fn touched(&self, changes: &[Change]) -> bool
        ensures { result ≡ touched self.now (edits changes.now) }
    {
        for key in &self.keys {
            if is_touched(key, changes) {
                return true;
            }
        }
        false
    }
}

/// Whether the key is had by the document before or after some change. It takes no memory.
pub fn is_touched(key: &Key, changes: &[Change]) -> bool
    ensures { result ≡ is_touched (edits changes.now) key.now }
{
    for change in changes {
        if touches(key, change) {
            return true;
        }
    }
    false
}

fn touches(key: &Key, change: &Change) -> bool
    ensures { result ≡ touches key.now (edit change.now) }
{
    if let Some(doc) = &change.before {
        if has(key, doc) {
            return true;
        }
    }
    if let Some(doc) = &change.after {
        has(key, doc)
    } else {
        false
    }
}

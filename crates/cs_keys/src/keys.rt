//! The keys that finding an answer looked up, kept so that a change finds its id among them.
ghost use Rattle.std.specs.Prelude.{◌≡◌, ◌++◌, ◌∷◌, [], true, IfOk, OnOk, map};
ghost use Rattle.std.specs.List.{list_any};
ghost use Rattle.cs_view.specs.Changes.{are_changes, is_of_id};
ghost use Rattle.cs_view.specs.Touched.{touched, touches};
ghost use Rattle.cs_view.specs.View.{edit, edits};
ghost use Rattle.cs_interest.specs.Interest.{interest_code};
ghost use Rattle.cs_keys.specs.Keys.{SameKeys, all_keys, ids_of, own_of, rest_of};

use cs_codes::Seed;
use cs_interest::interest_code;
use cs_value::{NoMemory, OrderedMap};
use cs_view::{Change, Key, Record};
use std::alloc::Global;

/// The keys that finding an answer looked up: ids, each once, apart from the others, so that a
/// change finds its id among them; and the own key of a windowed query, apart from those that the
/// steps behind its filter looked up. With the codes under which interest in them is held.
#[derive(Drop)]
pub struct Keys {
    ids: OrderedMap<()>,
    others: Record,
    own: Record,
    /// The code of each key, by which interest in it is held; a code may stand more than once.
    pub codes: Vec<u64>,
}

impl Keys {
    /// The keys of the record, none of them the own key of a windowed query. It fails where memory
    /// is refused.
    pub fn of(alloc: Global, seed: &Seed, looked: Record) -> Result<Keys, NoMemory>
        ensures keys { IfOk result (λ keys. SameKeys (all_keys keys) looked) }
        ensures own { IfOk result (λ keys. own_of keys ≡ []) }
        ensures codes { IfOk result
            (λ keys. keys.codes.items ≡ map (interest_code seed.now) looked) }
    {
        let mut keys = Keys {
            ids: OrderedMap::new(alloc),
            others: Record::new(alloc),
            own: Record::new(alloc),
            codes: Vec::new(alloc),
        };
        for key in looked.into_keys() {
            keys.add(seed, key)?;
        }
        Ok(keys)
    }

    /// The own key of a windowed query, and the keys of the record. It fails where memory is
    /// refused.
    pub fn with(alloc: Global, seed: &Seed, own: Key, looked: Record) -> Result<Keys, NoMemory>
        ensures rest { IfOk result (λ keys. SameKeys (rest_of keys) looked) }
        ensures own { IfOk result (λ keys. own_of keys ≡ own ∷ []) }
        ensures codes { IfOk result
            (λ keys. keys.codes.items ≡ map (interest_code seed.now) (looked ++ own ∷ [])) }
    {
        let mut keys = Keys::of(alloc, seed, looked)?;
        keys.codes.push(interest_code(seed, &own))?;
        keys.own.add(own)?;
        Ok(keys)
    }

    // Adds the key and its code; an id that is there stays as it is.
    fn add(&mut self, seed: &Seed, key: Key) -> Result<(), NoMemory>
        ensures keys { OnOk result (SameKeys (rest_of self.new) (rest_of self.old ++ key ∷ [])) }
        ensures own { own_of self.new ≡ own_of self.old }
        ensures codes { OnOk result
            (self.new.codes.items ≡ self.old.codes.items ++ interest_code seed.now key ∷ []) }
    {
        self.codes.push(interest_code(seed, &key))?;
        self.put_key(key)?;
        Ok(())
    }

    // Puts the key beside the others.
    fn put_key(&mut self, key: Key) -> Result<(), NoMemory>
        ensures keys { OnOk result (SameKeys (rest_of self.new) (rest_of self.old ++ key ∷ [])) }
        ensures own { own_of self.new ≡ own_of self.old }
        ensures codes { self.new.codes ≡ self.old.codes }
    {
        match key {
            Key::Id(id) => {
                self.ids.insert(id, ())?;
                Ok(())
            }
            other => self.others.add(other),
        }
    }

    /// Whether some key is had by the document before or after some change. It takes no memory.
    pub fn touched(&self, changes: &[Change]) -> bool
        requires { are_changes (edits changes.now) ≡ true }
        ensures { result ≡ touched (all_keys self.now) (edits changes.now) }
    {
        self.rest_touched(changes) || self.own.touched(changes)
    }

    /// The same of the keys without the own key of a windowed query.
    pub fn rest_touched(&self, changes: &[Change]) -> bool
        requires { are_changes (edits changes.now) ≡ true }
        ensures { result ≡ touched (rest_of self.now) (edits changes.now) }
    {
        self.has_some_id(changes) || self.others.touched(changes)
    }

    // Whether some id is had by the document before or after some change.
    fn has_some_id(&self, changes: &[Change]) -> bool
        requires { are_changes (edits changes.now) ≡ true }
        ensures { result ≡ touched (ids_of self.now) (edits changes.now) }
    {
        for change in changes {
            if self.holds_id(change) {
                return true;
            }
        }
        false
    }

    // Whether some id is had by the document before or after the change: these have its id, and so
    // one of them has to stand, and its id to be there.
    fn holds_id(&self, change: &Change) -> bool
        requires before { is_of_id (edit change.now).0 (edit change.now).1.0 ≡ true }
        requires after { is_of_id (edit change.now).0 (edit change.now).1.1 ≡ true }
        ensures { result ≡ list_any (λ key. touches key (edit change.now)) (ids_of self.now) }
    {
        change.stands() && self.ids.get(change.id.as_str()).is_some()
    }
}

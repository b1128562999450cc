//! Values and the attributes of objects.
ghost use Rattle.std.specs.Prelude.{◌≡◌, option_map, IfOk, OnOk, OnErr, ◌<◌, ◌^◌, ◌↔◌, IsTrue, nat_le};
ghost use Rattle.cs_value.specs.Tree.{no_pairs, depth as tree_depth};
ghost use Rattle.cs_value.specs.Pairs.{find, put, without, attribute};
ghost use Rattle.cs_value.specs.Value.{IsValue};
ghost use Rattle.cs_value.specs.View.{tree, fields};
ghost use Rattle.cs_value.specs.Words.{ref_of};

use crate::map::OrderedMap;
use crate::memory::NoMemory;
use crate::txt::Txt;
use crate::{copy, depth, same, within};
use std::alloc::Global;

/// A value of JSON (RFC 8259, section 3) whose numbers are whole and have 64 bits. Contracts speak
/// of it by its tree.
#[cycle(value)]
#[derive(Drop)]
pub enum Val {
    /// `null`.
    Null,
    /// `true` or `false`.
    Bool(bool),
    /// A whole number from -2^63 to 2^63-1.
    Num(i64),
    /// A text.
    Text(Txt),
    /// A list of values, in order.
    List(Vec<Val>),
    /// An object.
    Obj(Fields),
}

/// The attributes of an object: distinct names, each with its value, in ascending order of the
/// names' bytes.
#[cycle(value)]
#[derive(Drop)]
pub struct Fields {
    /// The attributes, in the order of their names.
    pub pairs: OrderedMap<Val>,
}

impl Val {
    /// The attribute of the name. `None` exactly where the value is no object or lacks the name.
    pub fn field(&self, name: &str) -> Option<&Val>
        ensures { option_map (λ v. tree v.now) result ≡ attribute name.now (tree self.now) }
    {
        if let Val::Obj(object) = self {
            object.get(name)
        } else {
            None
        }
    }

    /// The same as [`field`](Val::field), with a look at the place first at which the name was
    /// found last.
    pub fn attribute(&self, name: &Txt) -> Option<&Val>
        ensures { option_map (λ v. tree v.now) result ≡ attribute name.now (tree self.now) }
    {
        if let Val::Obj(object) = self {
            object.attribute(name)
        } else {
            None
        }
    }
}

impl Val {
    /// How deep lists and objects nest: 0 for a value that is neither, and 1 for an empty one.
    pub fn depth(&self) -> u32
        requires { tree_depth (tree self.now) < 2 ^ 32 }
        ensures depth { result ≡ tree_depth (tree self.now) }
        ensures value { IsValue (tree self.now) }
    {
        depth::depth(self)
    }

    /// Whether lists and objects nest at most `deepest` levels. It looks no deeper than that.
    pub fn within(&self, deepest: u32) -> bool
        ensures { result ≡ nat_le (tree_depth (tree self.now)) deepest }
    {
        within::within(self, deepest)
    }

    /// Whether the two are the same tree.
    pub fn same(&self, other: &Val) -> bool
        ensures { IsTrue result ↔ (tree self.now ≡ tree other.now) }
    {
        same::same(self, other)
    }

    /// A copy of the whole value. `NoMemory` where the allocator has no room for it.
    pub fn copy(&self, alloc: Global) -> Result<Val, NoMemory>
        ensures { IfOk result (λ v. tree v ≡ tree self.now) }
    {
        copy::copy(alloc, self)
    }
}

impl Fields {
    /// An object without attributes. It takes no memory.
    pub fn new(alloc: Global) -> Fields
        ensures { fields result ≡ no_pairs }
    {
        Fields {
            pairs: OrderedMap::new(alloc),
        }
    }

    /// An object without attributes that has room for so many. `NoMemory` where the allocator has
    /// no room for them.
    pub fn with_capacity(alloc: Global, attributes: usize) -> Result<Fields, NoMemory>
        ensures { IfOk result (λ f. fields f ≡ no_pairs) }
    {
        Ok(Fields {
            pairs: OrderedMap::with_capacity(alloc, attributes)?,
        })
    }

    /// The same object with room for so many attributes more, and for no others while they are few.
    /// `NoMemory` where the allocator has no room for them.
    pub fn fitted(self, more: usize) -> Result<Fields, NoMemory>
        ensures { IfOk result (λ f. fields f ≡ fields self) }
    {
        Ok(Fields {
            pairs: self.pairs.fitted(more)?,
        })
    }

    /// The value of the name. `None` exactly where the object lacks the name.
    pub fn get(&self, name: &str) -> Option<&Val>
        ensures { option_map (λ v. tree v.now) result ≡ find name.now (fields self.now) }
    {
        self.pairs.get(name)
    }

    /// The same as [`get`](Fields::get), with a look at the place first at which the name was found
    /// last.
    pub fn attribute(&self, name: &Txt) -> Option<&Val>
        ensures { option_map (λ v. tree v.now) result ≡ find name.now (fields self.now) }
    {
        self.pairs.find(name)
    }

    /// The text under `_ref`, by which an object refers to a document. `None` exactly where no text
    /// stands there.
    pub fn reference(&self) -> Option<&Txt>
        ensures { option_map (λ t. t.now) result ≡ ref_of (fields self.now) }
    {
        match self.get("_ref") {
            Some(Val::Text(target)) => Some(target),
            _ => None,
        }
    }

    /// Puts the value at the name, and gives back the value that it replaces: `Ok(None)` exactly
    /// where the name was not there. A name above all others goes last without a search where the
    /// object has at most 32 names. `NoMemory` where it cannot grow; it is unchanged then.
    pub fn put(&mut self, name: Txt, val: Val) -> Result<Option<Val>, NoMemory>
        ensures replaced { IfOk result (λ old. option_map tree old ≡ find name (fields self.old)) }
        ensures put { IfOk result (λ _. fields self.new ≡ put name (tree val) (fields self.old)) }
        ensures kept { OnErr result (fields self.new ≡ fields self.old) }
    {
        self.pairs.insert(name, val)
    }

    /// Puts the value at the name, in the place of one that stood there, without giving that back.
    /// Otherwise as [`put`](Fields::put).
    pub fn set(&mut self, name: Txt, val: Val) -> Result<(), NoMemory>
        ensures put { OnOk result (fields self.new ≡ put name (tree val) (fields self.old)) }
        ensures kept { OnErr result (fields self.new ≡ fields self.old) }
    {
        self.pairs.set(name, val)
    }

    /// Takes the name out, and gives its value. `None` exactly where the object lacks the name.
    pub fn take(&mut self, name: &str) -> Option<Val>
        ensures taken { option_map tree result ≡ find name.now (fields self.old) }
        ensures left { fields self.new ≡ without name.now (fields self.old) }
    {
        self.pairs.remove(name)
    }
}

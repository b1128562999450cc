//! Places in a value.
ghost use Rattle.std.specs.Prelude.{◌≡◌, IfOk};

use cs_value::{NoMemory, Txt};
use std::alloc::Global;

/// A part of a place: one step into a value. In the order of parts, names come before positions.
#[derive(Drop, PartialEq, Eq, PartialOrd, Ord)]
pub enum Part {
    /// The attribute of the name, of an object.
    Name(Txt),
    /// The element at the position, of a list; the first is at 0.
    Pos(usize),
}

impl Part {
    /// A copy of the part. `NoMemory` where the allocator has no room for its name.
    pub fn copy(&self, alloc: Global) -> Result<Part, NoMemory>
        ensures { IfOk result (λ copy. copy ≡ self.now) }
    {
        match self {
            Part::Name(name) => Ok(Part::Name(name.copy(alloc)?)),
            Part::Pos(index) => Ok(Part::Pos(*index)),
        }
    }
}

/// A copy of the parts. `NoMemory` where the allocator has no room for them.
pub fn copy_parts(alloc: Global, parts: &[Part]) -> Result<Vec<Part>, NoMemory>
    ensures { IfOk result (λ copies. copies.items ≡ parts.now) }
{
    let mut copies = Vec::with_capacity(alloc, parts.len())?;
    for part in parts {
        copies.push(part.copy(alloc)?)?;
    }
    Ok(copies)
}

/// A place in a value: the parts that lead to it, from the outermost. The value itself has none.
#[derive(Drop)]
pub struct Place {
    /// The parts, from the outermost.
    pub parts: Vec<Part>,
}

// A part whose name is borrowed.
#[derive(Clone, Copy, Drop)]
pub(crate) enum Key<'k> {
    Name(&'k str),
    Pos(usize),
}

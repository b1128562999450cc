//! Texts.
ghost use Rattle.std.proofs.Common.{rules};
ghost use Rattle.std.specs.Prelude.{◌≡◌, ◌==◌, ◌≤◌, length, IfOk, IfSome, string_bytes};
ghost use Rattle.std.specs.Ordering.{nat_cmp, as_partial_cmp};
ghost use Rattle.std.specs.Cmp.{partial_order_from_own_ties};
ghost use Rattle.std.specs.Cmp.Lexicographic.{slice_cmp, pointwise};
ghost use Rattle.std.specs.Cmp.Rules.{comparing};

pub(crate) mod inside;
pub(crate) mod order;

use crate::memory::NoMemory;
use inside::Short;
use std::alloc::Global;
use std::cell::Cell;
use std::cmp::Ordering;
use std::convert::AsStr;
use std::marker::Model;

/// The most bytes of a text that lies in its value and takes no memory of its own.
pub const MOST_INSIDE: usize = 29;

/// UTF-8 text. One of at most 29 bytes lies in the value itself and takes no memory of its own.
/// Contracts see it as the list of its bytes.
///
/// A text that lies in its value has a byte for the place in an object at which it was found last
/// as the name of an attribute: [`Fields::attribute`](crate::Fields::attribute) looks there first.
/// No answer depends on that byte.
#[derive(Drop)]
pub struct Txt {
    held: Held,
}

#[derive(Drop)]
enum Held {
    Inside(Short<MOST_INSIDE>, Cell<u8>),
    Outside(String),
}

impl Model for Txt {
    ghost use Rattle.std.specs.Prelude.{List, ℕ};
    ghost use Rattle.cs_value.specs.Text.{text_bytes};

    ghost Value = { List ℕ };

    ghost view = { λ t. text_bytes t.held };
}

impl Txt {
    /// A copy of the text, which takes no memory if it is of at most 29 bytes. `NoMemory` where the
    /// allocator has no room for a longer one.
    pub fn copy_of(alloc: Global, text: &str) -> Result<Txt, NoMemory>
        ensures { IfOk result (λ t. t ≡ text.now) }
    {
        if text.len() <= MOST_INSIDE {
            return Ok(Txt::short(text));
        }
        match String::from_str(alloc, text) {
            Ok(text) => Ok(Txt {
                held: Held::Outside(text),
            }),
            Err(_) => Err(NoMemory),
        }
    }

    // The place in an object at which the name was found last, and the first one where that is not
    // known.
    pub(crate) fn place(&self) -> usize {
        match &self.held {
            Held::Inside(_, place) => place.get() as usize,
            Held::Outside(_) => 0,
        }
    }

    // From now on the name is looked for at this place first, where it keeps one.
    pub(crate) fn note(&self, place: usize) {
        if let Held::Inside(_, noted) = &self.held {
            if place < 256 {
                noted.set(place as u8);
            }
        }
    }

    /// The text itself, moved and not copied if it is of more than 29 bytes.
    pub fn from_string(text: String) -> Txt
        ensures { result ≡ string_bytes text }
    {
        if text.len() <= MOST_INSIDE {
            return Txt::short(text.as_str());
        }
        Txt {
            held: Held::Outside(text),
        }
    }

    fn short(text: &str) -> Txt
        requires { length text.now ≤ 29 }
        ensures { result ≡ text.now }
    {
        Txt {
            held: Held::Inside(Short::of(text), Cell::new(0)),
        }
    }

    /// The same text again, which takes no memory if it is of at most 29 bytes. `NoMemory` where
    /// the allocator has no room for a longer one.
    pub fn copy(&self, alloc: Global) -> Result<Txt, NoMemory>
        ensures { IfOk result (λ t. t ≡ self.now) }
    {
        let held = match &self.held {
            Held::Inside(text, _) => Held::Inside(text.copy(), Cell::new(0)),
            Held::Outside(text) => Held::Outside(String::from_str(alloc, text.as_str())?),
        };
        Ok(Txt { held })
    }

    /// The text again, held in `N` places, where it lies in its value and is short enough.
    pub(crate) fn narrowed<const N: usize>(&self) -> Option<Short<N>>
        requires { N ≤ 29 }
        ensures { IfSome result (λ short. short ≡ self.now) }
    {
        match &self.held {
            Held::Inside(text, _) => text.narrowed(),
            Held::Outside(_) => None,
        }
    }

    /// The text again that is held in `N` places. It takes no memory.
    pub(crate) fn widened<const N: usize>(text: &Short<N>) -> Txt
        requires { N ≤ 29 }
        ensures { result ≡ text.now }
    {
        Txt {
            held: Held::Inside(text.widened(), Cell::new(0)),
        }
    }

    /// The text, borrowed.
    pub fn as_str(&self) -> &str
        ensures { result.now ≡ self.now }
    {
        match &self.held {
            Held::Inside(text, _) => text.as_str(),
            Held::Outside(text) => text.as_str(),
        }
    }

    /// The text as a `String`. It is moved if it is of more than 29 bytes. `NoMemory` where the
    /// allocator has no room for a shorter one.
    pub fn into_string(self, alloc: Global) -> Result<String, NoMemory>
        ensures { IfOk result (λ s. string_bytes s ≡ self) }
    {
        let Txt { held } = self;
        match held {
            Held::Inside(text, _) => Ok(String::from_str(alloc, text.as_str())?),
            Held::Outside(text) => Ok(text),
        }
    }
}

/// Texts are equal where their bytes are.
impl PartialEq for Txt {
    ghost eq = { pointwise ◌==◌ };

    ghost laws = { Prim.search (comparing, rules) };

    fn eq(&self, other: &Txt) -> bool {
        self.as_str() == other.as_str()
    }
}

impl Eq for Txt {
    ghost laws = { Prim.search (comparing, rules) };
}

/// Texts are ordered by their bytes.
impl Ord for Txt {
    ghost cmp = { slice_cmp nat_cmp };

    ghost total = { Prim.search (comparing, rules) };

    ghost matches_partial_cmp = { Prim.search (comparing, rules) };

    ghost matches_eq = { Prim.search (comparing, rules) };

    fn cmp(&self, other: &Txt) -> Ordering {
        self.as_str().cmp(other.as_str())
    }
}

impl PartialOrd for Txt {
    ghost partial_cmp = { as_partial_cmp (slice_cmp nat_cmp) };

    ghost laws = { partial_order_from_own_ties (Prim.search (comparing, rules))
        (Prim.search (comparing, rules)) };

    fn partial_cmp(&self, other: &Txt) -> Option<Ordering> {
        Some(self.cmp(other))
    }
}

impl AsStr for Txt {
    ghost text = { λ t. t };

    fn as_str(&self) -> &str {
        self.as_str()
    }
}

//! The name of a pair in a vector.
ghost use Rattle.std.specs.Prelude.{◌≡◌, IfOk, IsTrue};
ghost use Rattle.std.specs.BTreeMap.{is_at};
ghost use Rattle.cs_value.specs.Entries.{compares};

use crate::memory::NoMemory;
use crate::txt::Txt;
use crate::txt::inside::Short;
use std::alloc::Global;
use std::boxed::Box;
use std::marker::Model;

/// The most bytes of a name that lies in its pair and takes no memory of its own.
const MOST_BESIDE: usize = 14;

/// A name. It takes 16 bytes where a text takes 32, so that a search among names reads less memory,
/// and none of its own if it has at most 14 bytes, as most names have. Contracts see it as the list
/// of its bytes.
#[derive(Drop)]
pub(crate) struct Name {
    held: Spelled,
}

#[derive(Drop)]
pub(crate) enum Spelled {
    Beside(Short<MOST_BESIDE>),
    Apart(Box<String>),
}

impl Model for Name {
    ghost use Rattle.std.specs.Prelude.{List, ℕ};
    ghost use Rattle.cs_value.specs.Text.{name_bytes};

    ghost Value = { List ℕ };

    ghost view = { λ n. name_bytes n.held };
}

// Whether the two have one length and one last byte, as equal texts have. It takes no call, and few
// names of an object agree in both.
fn is_alike(one: &str, other: &str) -> bool
    ensures { one.now ≡ other.now → IsTrue result }
{
    one.len() == other.len() && one.as_bytes().last() == other.as_bytes().last()
}

impl Name {
    /// The name that the text is. `NoMemory` where the allocator has no room for a longer one.
    pub(super) fn of(alloc: Global, text: Txt) -> Result<Name, NoMemory>
        ensures { IfOk result (λ name. name ≡ text) }
    {
        if let Some(short) = text.narrowed() {
            return Ok(Name {
                held: Spelled::Beside(short),
            });
        }
        let long = Box::new(alloc, text.into_string(alloc)?)?;
        Ok(Name {
            held: Spelled::Apart(long),
        })
    }

    /// The name, borrowed.
    pub(super) fn as_str(&self) -> &str
        ensures { result.now ≡ self.now }
    {
        match &self.held {
            Spelled::Beside(short) => short.as_str(),
            Spelled::Apart(long) => long.as_str(),
        }
    }

    /// Whether the name is the text.
    pub(super) fn is(&self, text: &str) -> bool
        ensures { result ≡ is_at (compares text.now) self.now }
    {
        let own = self.as_str();
        is_alike(text, own) && text == own
    }

    /// The same name again. `NoMemory` where the allocator has no room for a longer one.
    pub(super) fn copy(&self, alloc: Global) -> Result<Name, NoMemory>
        ensures { IfOk result (λ name. name ≡ self.now) }
    {
        let held = match &self.held {
            Spelled::Beside(short) => Spelled::Beside(short.copy()),
            Spelled::Apart(long) => {
                Spelled::Apart(Box::new(alloc, String::from_str(alloc, long.as_str())?)?)
            }
        };
        Ok(Name { held })
    }

    /// The name as a text. It is moved, and takes no memory.
    pub(super) fn into_txt(self) -> Txt
        ensures { result ≡ self }
    {
        let Name { held } = self;
        match held {
            Spelled::Beside(short) => Txt::widened(&short),
            Spelled::Apart(long) => Txt::from_string(Box::into_inner(long)),
        }
    }
}

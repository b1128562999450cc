//! Keys, by which documents are looked up.
ghost use Rattle.std.specs.Prelude.{◌≡◌, ◌<◌, ◌≤◌, length};
ghost use Rattle.cs_view.specs.Limits.{most_names};

use cs_value::Txt;
use std::marker::Model;

/// A boolean, a number or a text.
#[derive(Drop)]
pub enum Scalar {
    Bool(bool),
    Num(i64),
    Text(Txt),
}

/// One to four names of attributes, the outermost first. Contracts see them as a list.
#[derive(Drop)]
pub struct Names {
    texts: Vec<Txt>,
}

impl Model for Names {
    ghost use Rattle.std.specs.Prelude.{ℕ, List, length, ◌<◌, ◌≤◌};
    ghost use Rattle.cs_view.specs.Limits.{most_names};

    ghost Value = { List (List ℕ) };

    ghost view = { λ n. n.texts.items };

    ghost invariant = { λ n. (0 < length n.texts.items) × (length n.texts.items ≤ most_names) };
}

impl Names {
    /// The names, of which there are at least one and at most four.
    pub fn of(texts: Vec<Txt>) -> Names
        requires some { 0 < length texts.items }
        requires few { length texts.items ≤ most_names }
        ensures { result ≡ texts.items }
    {
        Names { texts }
    }

    /// How many names there are.
    pub fn len(&self) -> usize
        ensures count { result ≡ length self.now }
        ensures some { 0 < length self.now }
        ensures few { length self.now ≤ most_names }
    {
        self.texts.len()
    }

    /// The names as a slice.
    pub fn texts(&self) -> &[Txt]
        ensures names { result.now ≡ self.now }
        ensures some { 0 < length self.now }
        ensures few { length self.now ≤ most_names }
    {
        self.texts.as_slice()
    }
}

/// What a look-up asks for. Which documents have a key, [`crate::has`] tells.
#[derive(Drop)]
pub enum Key {
    /// Every document.
    All,
    /// The document with this `_id`.
    Id(Txt),
    /// Documents in which following the names gives a value equal to the scalar.
    Path(Names, Scalar),
    /// Documents in which following the names gives a list with an element equal to the scalar.
    Elem(Names, Scalar),
    /// Documents in which an object at any depth has this text as `_ref`.
    Ref(Txt),
}

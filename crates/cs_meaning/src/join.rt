//! What a step and a rest of a chain take and give.
/// Whether a step or a rest takes, or gives, one value or an array.
#[derive(Clone, Copy, Debug, Drop, PartialEq, Eq)]
pub enum Shape {
    One,
    Array,
}

/// What a step does, as far as it matters to how steps are joined.
#[derive(Clone, Copy, Debug, Drop, PartialEq, Eq)]
pub enum Form {
    /// It takes one value and gives one: `.w`, `["w"]`, `->`.
    Single,
    /// A projection.
    Projection,
    /// It takes an array and gives one: a filter, a slice, `[]`.
    Listing,
    /// It takes an array and gives one value: an element.
    Element,
    /// A piped call: a rest ends before it.
    Pipe,
}

/// What a rest of a chain takes and gives.
#[derive(Clone, Copy, Debug, Default, Drop, PartialEq, Eq)]
pub enum Kind {
    /// No step is left before the end, or before a piped call.
    #[default]
    Empty,
    /// What the rest takes, and what it gives.
    Taking(Shape, Shape),
}

/// How a step leads on to the rest behind it.
#[derive(Clone, Copy, Debug, Drop, PartialEq, Eq)]
pub enum Way {
    /// The step's one value goes through the rest.
    Through,
    /// The step is mapped over an array, and this array goes through the rest.
    Over,
    /// The step's array enters the rest.
    After,
    /// The rest ends here.
    Ends,
}

/// How an array enters a rest.
#[derive(Clone, Copy, Debug, Drop, PartialEq, Eq)]
pub enum Entrance {
    /// As it is: the rest takes an array.
    Whole,
    /// Element by element.
    Mapped,
    /// Element by element, and the arrays that come of it are joined into one.
    Flat,
}

//! What can be done at a location of a value.
use cs_jsonmatch::{JsonPath, Part};
use cs_value::{Txt, Val};

/// What is done at a location. Contracts speak of it by `altered`, what it makes of the value
/// there.
#[derive(Drop)]
pub enum Alteration {
    /// A value is put where names lead from the location.
    Give(Gift),
    /// The member that the part means is taken out of the value at the location. Nothing happens
    /// where there is none.
    Remove(Part),
    /// The number at the location is changed. Anything else stays as it is.
    Count(Change),
    /// Items are put into the list at the location. Anything else stays as it is.
    Insert(Insertion),
}

/// A value, and where it is put: where the names lead, from the outermost. Objects are made on the
/// way where there are none.
#[derive(Drop)]
pub struct Gift {
    /// The names. Without one the value stands at the location itself. Giving takes a call of a
    /// function for each name, so the caller keeps them few: it asks first how deep a value may be.
    pub names: Vec<Txt>,
    /// The value that is put there.
    pub new: Val,
}

/// How a number changes. It becomes null where the outcome is no whole number of 64 bits, so the
/// caller asks for that first.
#[derive(Clone, Copy, Drop)]
pub enum Change {
    /// This is added to it.
    Add(i64),
    /// This is taken from it.
    Subtract(i64),
}

/// Items, and where they are put into a list.
#[derive(Drop)]
pub struct Insertion {
    /// On which side of the elements that the path selects.
    pub side: Side,
    /// The last step of a path to elements of lists, as a path of its own. With another number of
    /// steps nothing is put in.
    pub last: JsonPath,
    /// What is put in.
    pub items: Vec<Val>,
}

/// Where items go: before or after elements of a list, or in their stead.
#[derive(Clone, Copy, Drop)]
pub enum Side {
    /// Before the first of the elements.
    Before,
    /// After the last of them.
    After,
    /// In their stead, where the first of them was.
    Replace,
}

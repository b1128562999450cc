//! Patches of documents, as they stand in a command.
use cs_alter::Side;
use cs_value::{Fields, Txt, Val};

/// A patch: what a document is to become, by the paths at which it changes. A path stands as it is
/// written, and may be a text that is no path. The operations go in the order of the fields here.
/// Contracts see a patch as plain data; `inc` and `dec` then have whole numbers alone.
#[derive(Drop)]
pub struct Patch {
    /// The revision that a document must have, where one is asked for.
    pub if_revision: Option<Txt>,
    /// Values, by the paths where each is set if nothing is there.
    pub set_if_missing: Fields,
    /// Values, by the paths where each is set.
    pub set: Fields,
    /// The paths of what is taken away.
    pub unset: Vec<Txt>,
    /// Numbers, by the paths of the numbers that each is added to.
    pub inc: Fields,
    /// Numbers, by the paths of the numbers that each is taken from.
    pub dec: Fields,
    /// What is put into lists, if anything.
    pub insert: Option<Insert>,
}

/// Items, and where they are put into lists.
#[derive(Drop)]
pub struct Insert {
    /// On which side of the elements at the path.
    pub side: Side,
    /// The path of the elements.
    pub path: Txt,
    /// What is put there.
    pub items: Vec<Val>,
}

//! The paths of JSONMatch.
use cs_value::{Txt, Val};

/// A path into a value, after Sanity's JSONMatch: steps, each of which selects parts of the values
/// that the steps before it came to. A path without steps leads to the value itself.
#[derive(Drop)]
pub struct JsonPath {
    /// The steps, from the first.
    pub steps: Vec<Step>,
}

/// A step of a path: a name, or what stands between brackets.
#[derive(Drop)]
pub struct Step {
    /// Whether `..` stands before the step, so that it selects at any depth.
    pub deep: bool,
    /// What it selects: all that one of the items does. A name by itself is one item.
    pub items: Items,
}

/// The items of a step, in the order of the text. A path may have millions of steps, nearly all of
/// one item, so that stands in its step.
#[derive(Drop)]
pub enum Items {
    /// One item.
    One(Item),
    /// Several items, with commas between them in the text. A bracket has at least one.
    Many(Vec<Item>),
}

/// An item of a step: which attributes of an object, or elements of a list, it selects.
#[derive(Drop)]
pub enum Item {
    /// The element at a position of a list; a negative one counts from the end, where -1 is the
    /// last.
    Position(i64),
    /// The elements from the position of the first end up to but without that of the second. An
    /// absent first end is the list's first position, an absent second end its length.
    Range(Option<i64>, Option<i64>),
    /// `*`: all elements of a list, and all attributes of an object.
    Every,
    /// The attribute of a name, of an object.
    Named(Txt),
    /// The elements of a list that meet a test. Boxed, since it is by far the largest.
    Meets(Box<Test>),
}

/// A comparison of what stands under the names, one in the other, with a constant. Without names it
/// is the element itself, `@`. An element where nothing stands under the names meets no test.
#[derive(Drop)]
pub struct Test {
    /// The names that lead from the element to what is compared, from the outermost.
    pub names: Vec<Txt>,
    /// How it is compared.
    pub comparison: Comparison,
    /// What it is compared with.
    pub constant: Val,
}

/// The operators of tests. The last four hold of values alone that have an order: of two numbers,
/// two texts or two booleans.
#[derive(Clone, Copy, Drop)]
pub enum Comparison {
    /// `==`
    Equal,
    /// `!=`
    NotEqual,
    /// `<`
    Less,
    /// `<=`
    AtMost,
    /// `>`
    Greater,
    /// `>=`
    AtLeast,
}

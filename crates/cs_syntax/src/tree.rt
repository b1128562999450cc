//! The syntax tree of a query.

use cs_value::Txt;

/// A binary operator as it is written.
#[derive(Clone, Copy, Debug, Drop, PartialEq, Eq)]
pub enum BinSign {
    /// `||`
    Or,
    /// `&&`
    And,
    /// `==`
    Eq,
    /// `!=`
    Ne,
    /// `<`
    Lt,
    /// `<=`
    Le,
    /// `>`
    Gt,
    /// `>=`
    Ge,
    /// `match`
    Match,
    /// `+`
    Add,
    /// `-`
    Sub,
    /// `*`
    Mul,
    /// `/`
    Div,
    /// `%`
    Rem,
    /// `**`
    Pow,
}

/// A prefix operator as it is written.
#[derive(Clone, Copy, Debug, Drop, PartialEq, Eq)]
pub enum PreSign {
    /// `-`
    Minus,
    /// `+`
    Plus,
    /// `!`
    Not,
}

/// An expression of a query (GROQ-1.revision1 "Expressions", as this project's profile has it). The
/// forms that the profile refuses, as `/`, are among these: they are faults of an expression.
#[derive(Drop)]
#[cycle(expr)]
pub enum Expr {
    /// `null`
    Null,
    /// `true` and `false`
    Bool(bool),
    /// A number as it is written.
    Number(Txt),
    /// A text without its quotes, its escapes read.
    Text(Txt),
    /// The name of a parameter, without `$`.
    Param(Txt),
    /// A bare word: an attribute of `@`.
    Word(Txt),
    /// `@`
    This,
    /// `*`
    All,
    /// `^` so many times, with dots between.
    Up(u32),
    /// What stands in a pair of round brackets.
    Round(Box<Expr>),
    /// A call of a function. The name is its words joined by `::`.
    Call {
        name: Txt,
        args: Vec<Arg>,
    },
    /// `[ .. ]` as a list.
    Array(Vec<Elem>),
    /// `{ .. }` as an object.
    Object(Vec<Entry>),
    /// A base and at least one step.
    Chain {
        base: Box<Expr>,
        steps: Vec<Step>,
    },
    /// At least one prefix operator: a run of `-`, or a run of `+` and `!`.
    Prefix {
        signs: Vec<PreSign>,
        operand: Box<Expr>,
    },
    /// At least one operator, all of one level: those of `**` group from the right, all others from
    /// the left. A comparison or `match` is alone.
    Run {
        first: Box<Expr>,
        rest: Vec<(BinSign, Expr)>,
    },
    /// `left in right`
    Within {
        left: Box<Expr>,
        right: Box<Expr>,
    },
    /// `left in from..to` where `closed`, else `left in from...to`.
    Between {
        left: Box<Expr>,
        from: Box<Expr>,
        to: Box<Expr>,
        closed: bool,
    },
}

/// A step of a chain (GROQ-1.revision1 "Compound expressions").
#[derive(Drop)]
#[cycle(expr)]
pub enum Step {
    /// `.name`
    Attr(Txt),
    /// `->`
    Deref,
    /// `[]`
    Each,
    /// `[from..to]` where `closed`, else `[from...to]`.
    Slice { from: Expr, to: Expr, closed: bool },
    /// `[ .. ]`: a filter, an element or an attribute.
    Bracket(Expr),
    /// `{ .. }` or `| { .. }`: a projection.
    Project(Vec<Entry>),
    /// `| name( .. )`: a piped call. The name is its words joined by `::`.
    Pipe { name: Txt, keys: Vec<OrderKey> },
}

/// An entry of an object (GROQ-1.revision1 "Object").
#[derive(Drop)]
#[cycle(expr)]
pub enum Entry {
    /// `"key": value`
    Keyed(Txt, Expr),
    /// A value whose key is read from its own form.
    Bare(Expr),
    /// `condition => value`
    When(Expr, Expr),
    /// `...value`; `...` alone is `...@`.
    Spread(Expr),
}

/// An element of an array (GROQ-1.revision1 "Array").
#[derive(Drop)]
#[cycle(expr)]
pub enum Elem {
    /// A value.
    One(Expr),
    /// `...value`
    Spread(Expr),
}

/// An argument of a call (GROQ-1.revision1 "Function call").
#[derive(Drop)]
#[cycle(expr)]
pub enum Arg {
    /// A value.
    One(Expr),
    /// `condition => value`
    When(Expr, Expr),
}

/// A key of `order`.
#[derive(Drop)]
#[cycle(expr)]
pub struct OrderKey {
    /// What is compared.
    pub key: Expr,
    /// Whether `desc` stands behind it.
    pub desc: bool,
}

//! Operands, and the values that they are made of.
ghost use Rattle.std.specs.Prelude.{◌≡◌};
ghost use Rattle.cs_value.specs.View.{tree};
ghost use Rattle.cs_value.specs.Words.{field};
ghost use Rattle.cs_ops.specs.Truth.{said};
ghost use Rattle.cs_plan.specs.Parts.{value_or_null};
ghost use Rattle.cs_operand.specs.Operands.{operand};

use cs_value::{Fields, Txt, Val};

/// The value of an operand. It takes no memory. Contracts speak of it by the value.
#[derive(Clone, Copy, Drop)]
pub enum Operand<'v> {
    /// Null.
    Null,
    /// A boolean.
    Bool(bool),
    /// A number.
    Number(i64),
    /// A text, lent.
    Text(&'v Txt),
    /// The elements of a list, lent.
    List(&'v Vec<Val>),
    /// The attributes of an object, lent.
    Object(&'v Fields),
}

impl<'v> Operand<'v> {
    /// The value itself.
    pub fn of(val: &'v Val) -> Operand<'v>
        ensures { operand result ≡ tree val.now }
    {
        match val {
            Val::Null => Operand::Null,
            Val::Bool(b) => Operand::Bool(*b),
            Val::Num(n) => Operand::Number(*n),
            Val::Text(text) => Operand::Text(text),
            Val::List(items) => Operand::List(items),
            Val::Obj(object) => Operand::Object(object),
        }
    }

    /// The value where there is one, else null.
    pub fn or_null(val: Option<&'v Val>) -> Operand<'v>
        ensures { operand result ≡ value_or_null val.entry }
    {
        match val {
            Some(val) => Operand::of(val),
            None => Operand::Null,
        }
    }

    /// What a truth says as a value: null where it says nothing.
    pub fn said(truth: Option<bool>) -> Operand<'v>
        ensures { operand result ≡ said truth }
    {
        match truth {
            Some(b) => Operand::Bool(b),
            None => Operand::Null,
        }
    }

    /// The attribute of the name, null where there is none.
    pub fn field(self, name: &str) -> Operand<'v>
        ensures { operand result ≡ field name.now (operand self.entry) }
    {
        match self {
            Operand::Object(object) => Operand::or_null(object.get(name)),
            _ => Operand::Null,
        }
    }

    /// The same as [`field`](Operand::field), with a look at the place first at which the name was
    /// found last.
    pub fn attribute(self, name: &Txt) -> Operand<'v>
        ensures { operand result ≡ field name.now (operand self.entry) }
    {
        match self {
            Operand::Object(object) => Operand::or_null(object.attribute(name)),
            _ => Operand::Null,
        }
    }
}

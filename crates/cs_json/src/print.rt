//! Values, and those that are lent, written token by token.
ghost use Rattle.std.specs.Prelude.{◌≡◌, ◌++◌, ◌∷◌, [], OnOk, map};
ghost use Rattle.json.specs.Token.{number as number_token};
ghost use Rattle.serde_json.specs.Find.{of_integer};
ghost use Rattle.serde_json.specs.Written.{number_text};
ghost use Rattle.cs_value.specs.Tree.{list, object as object_tree, trees};
ghost use Rattle.cs_value.specs.View.{tree, fields, list_tree};
ghost use Rattle.cs_json.specs.Nodes.{node_tree};
ghost use Rattle.cs_json.specs.Tokens.{tokens_of};

use crate::node::Node;
use cs_value::{Fields, Val};
use json::Writer;
use std::alloc::AllocError;

#[cycle(print)]
fn print(val: &Val, out: &mut Writer) -> Result<(), AllocError>
    ensures tokens { OnOk result (out.new.tokens ≡ out.old.tokens ++ tokens_of (tree val.now)) }
    ensures before { out.new.before ≡ out.old.before }
{
    match val {
        Val::Null => out.null(),
        Val::Bool(b) => out.boolean(*b),
        Val::Num(n) => print_number(*n, out),
        Val::Text(text) => out.string(text.as_str()),
        Val::List(items) => print_items(items, out),
        Val::Obj(object) => print_fields(object, out),
    }
}

fn print_number(n: i64, out: &mut Writer) -> Result<(), AllocError>
    ensures tokens { OnOk result (out.new.tokens
        ≡ out.old.tokens ++ number_token (number_text (of_integer n)) ∷ []) }
    ensures before { out.new.before ≡ out.old.before }
{
    if n < 0 { out.i64(n) } else { out.u64(n as u64) }
}

#[cycle(print)]
fn print_items(items: &Vec<Val>, out: &mut Writer) -> Result<(), AllocError>
    ensures tokens { OnOk result (out.new.tokens
        ≡ out.old.tokens ++ tokens_of (list (trees (list_tree items.now.items)))) }
    ensures before { out.new.before ≡ out.old.before }
{
    out.begin_array()?;
    for item in items {
        print(item, out)?;
    }
    out.end_array()
}

#[cycle(print)]
fn print_fields(object: &Fields, out: &mut Writer) -> Result<(), AllocError>
    ensures tokens { OnOk result (out.new.tokens
        ≡ out.old.tokens ++ tokens_of (object_tree (fields object.now))) }
    ensures before { out.new.before ≡ out.old.before }
{
    out.begin_object()?;
    for (key, member) in object.pairs.iter() {
        out.key(key)?;
        print(member, out)?;
    }
    out.end_object()
}

pub(crate) fn print_node(node: &Node<'_>, out: &mut Writer) -> Result<(), AllocError>
    ensures tokens { OnOk result
        (out.new.tokens ≡ out.old.tokens ++ tokens_of (node_tree node.now)) }
    ensures before { out.new.before ≡ out.old.before }
{
    match node {
        Node::Value(val) => print(val, out),
        Node::Values(vals) => print_values(vals, out),
        Node::Text(text) => out.string(text),
        Node::Number(n) => print_number(*n, out),
    }
}

fn print_values(vals: &Vec<&Val>, out: &mut Writer) -> Result<(), AllocError>
    ensures tokens { OnOk result (out.new.tokens
        ≡ out.old.tokens ++ tokens_of (list (trees (map (λ v. tree v.now) vals.now.items)))) }
    ensures before { out.new.before ≡ out.old.before }
{
    out.begin_array()?;
    for val in vals {
        print(val, out)?;
    }
    out.end_array()
}

//! What a listener hears of a change.
ghost use Rattle.std.specs.Prelude.{◌≡◌, ◌++◌, OnOk, IfOk, ◌∷◌, [], map, option_map};
ghost use Rattle.cs_value.specs.Tree.{text};
ghost use Rattle.cs_value.specs.View.{tree};
ghost use Rattle.cs_json.specs.Nodes.{node_tree, member_pair};
ghost use Rattle.cs_reply.specs.Reply.{transition_word, where_there, reply_tree, event as an_event};
ghost use Rattle.cs_reply.specs.Sorted.{sides, in_order};
ghost use Rattle.cs_reply.specs.View.{transition, event, Appended};

use crate::line::{member, number, text, write_line};
use cs_json::{Member, Node};
use cs_value::{NoMemory, Val};
use std::alloc::Global;

/// How a change looks to a listener.
#[derive(Clone, Copy, Debug, PartialEq, Eq)]
pub enum Transition {
    /// The document was not seen before, and is now.
    Appear,
    /// It was seen before, and is now.
    Update,
    /// It was seen before, and is no more.
    Disappear,
}

impl Transition {
    fn word(self) -> &'static str
        ensures { result.now ≡ transition_word (transition self) }
    {
        match self {
            Transition::Appear => "appear",
            Transition::Update => "update",
            Transition::Disappear => "disappear",
        }
    }
}

/// What a listener hears of one changed document: the revisions and, where it asks for them, the
/// documents of the sides on which the document stands.
#[derive(Clone, Copy)]
pub struct Event<'a> {
    /// The name of the listener.
    pub listener: &'a str,
    /// The id of the document.
    pub id: &'a str,
    /// How the change looks to the listener.
    pub transition: Transition,
    /// The revision before, where the document stood.
    pub previous_rev: Option<&'a str>,
    /// The revision after, where it stands.
    pub result_rev: Option<&'a str>,
    /// The document before, where it is asked for.
    pub previous: Option<&'a Val>,
    /// The document after, where it is asked for.
    pub result: Option<&'a Val>,
    /// The id of the transaction.
    pub tx: &'a str,
    /// The moment of the transaction.
    pub moment: &'a str,
}

// A text that may be absent.
fn text_node<'a>(s: Option<&'a str>) -> Option<Node<'a>>
    ensures { option_map node_tree result ≡ option_map (λ t. text t.now) s.entry }
{
    match s {
        Some(s) => Some(text(s)),
        None => None,
    }
}

// A value that may be absent.
fn value_node<'a>(val: Option<&'a Val>) -> Option<Node<'a>>
    ensures { option_map node_tree result ≡ option_map (λ v. tree v.now) val.entry }
{
    match val {
        Some(val) => Some(Node::Value(val)),
        None => None,
    }
}

// Another attribute.
fn add<'a>(members: &mut Vec<Member<'a>>, name: &'a str, node: Node<'a>) -> Result<(), NoMemory>
    ensures { OnOk result (map member_pair members.new.items ≡ map member_pair members.old.items
        ++ (name.entry.now, node_tree node.entry) ∷ []) }
{
    members.push(member(name, node))?;
    Ok(())
}

// Another attribute, where there is one.
fn add_some<'a>(
    members: &mut Vec<Member<'a>>,
    name: &'a str,
    node: Option<Node<'a>>,
) -> Result<(), NoMemory>
    ensures { OnOk result (map member_pair members.new.items ≡ map member_pair members.old.items
        ++ where_there name.entry.now (option_map node_tree node.entry)) }
{
    match node {
        Some(node) => add(members, name, node),
        None => Ok(()),
    }
}

// The revisions, and the documents that are asked for.
fn add_sides<'a>(members: &mut Vec<Member<'a>>, heard: Event<'a>) -> Result<(), NoMemory>
    ensures { OnOk result (map member_pair members.new.items ≡ map member_pair members.old.items
        ++ sides (event heard.entry)) }
{
    add_some(members, "previous", value_node(heard.previous))?;
    add_some(members, "previousRev", text_node(heard.previous_rev))?;
    add_some(members, "result", value_node(heard.result))?;
    add_some(members, "resultRev", text_node(heard.result_rev))
}

// The attributes of an event in the line of the number.
fn members_of<'a>(alloc: Global, heard: Event<'a>, line: u32) -> Result<Vec<Member<'a>>, NoMemory>
    ensures { IfOk result (λ ms. map member_pair ms.items
        ≡ in_order line (event heard.entry)) }
{
    let transition = heard.transition.word();
    let mut members = Vec::with_capacity(alloc, 11)?;
    add(&mut members, "documentId", text(heard.id))?;
    add(&mut members, "line", number(line))?;
    add(&mut members, "listener", text(heard.listener))?;
    add_sides(&mut members, heard)?;
    add(&mut members, "timestamp", text(heard.moment))?;
    add(&mut members, "transactionId", text(heard.tx))?;
    add(&mut members, "transition", Node::Text(transition))?;
    add(&mut members, "type", Node::Text("mutation"))?;
    Ok(members)
}

/// Appends the event to the line of the number. After `NoMemory` a part of it may have been
/// appended.
pub(crate) fn write_event(
    alloc: Global,
    heard: Event<'_>,
    line: u32,
    out: &mut Vec<u8>,
) -> Result<(), NoMemory>
    ensures { OnOk result (Appended out.old.items out.new.items
        (reply_tree line (an_event (event heard.entry)))) }
{
    let members = members_of(alloc, heard, line)?;
    write_line(alloc, members, out)
}

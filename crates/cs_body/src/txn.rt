//! Transactions as they are read.
ghost use Rattle.std.specs.Prelude.{◌≡◌, map, Some, MatchResult, IfOk};
ghost use Rattle.cs_value.specs.View.{tree, fields};
ghost use Rattle.cs_body.specs.Body.{transaction, body_of, of_pairs, by_id};
ghost use Rattle.cs_body.specs.View.{action, txn, IsTxnFault, AllAddNumbers};

use crate::ids::{is_tx_id, tx_of_line};
use crate::mutation::mutations;
use crate::parts::{take_list, take_text_or_none};
use cs_patch::Patch;
use cs_value::{Fields, Txt, Val};
use cs_wire::has_keys;
use std::alloc::Global;

/// Which documents a mutation is meant for.
#[derive(Drop)]
pub enum Target {
    /// The document of an id, which may be any text.
    Id(Txt),
    /// The documents that a query finds. Its text may be no query.
    Query {
        /// The query.
        text: Txt,
        /// Its parameters, without attributes where none were given.
        params: Fields,
    },
}

/// A change of documents that a transaction asks for.
#[derive(Drop)]
pub enum Mutation {
    /// `create`: the value is to be a new document.
    Create(Val),
    /// `createOrReplace`: it is to stand in the stead of the document with its id, if there is one.
    Replace(Val),
    /// `createIfNotExists`: it is to be a new document, unless there is one with its id.
    IfNone(Val),
    /// `delete`: the documents are to go.
    Delete(Target),
    /// `patch`: the documents are to be changed.
    Change {
        /// Which documents.
        target: Target,
        /// How they are changed.
        patch: Patch,
        /// Whether `diffMatchPatch` is there, whose value is not kept.
        diff: bool,
    },
}

/// A transaction: mutations that all take effect, or none of them.
#[derive(Drop)]
pub struct Txn {
    /// The id of the transaction.
    pub id: Txt,
    /// What it asks for, in order.
    pub mutations: Vec<Mutation>,
}

/// Why a value is no transaction.
#[derive(Clone, Copy, Debug, Drop, PartialEq, Eq)]
pub enum TxnFault {
    /// It has not the form of one.
    BadCommand,
    /// It has, but the id that it gives has not the form of one that a client may give.
    BadTx,
    /// The allocator had no room.
    NoMemory,
}

fn by_id(
    alloc: Global,
    given: Option<Txt>,
    mutations: Vec<Mutation>,
    line: u32,
) -> Result<Txn, TxnFault>
    ensures read { MatchResult result
        (λ t. by_id line (map action mutations.items) (Some given) ≡ transaction (txn t))
        (λ e. IsTxnFault e (by_id line (map action mutations.items) (Some given))) }
    ensures kept { IfOk result (λ t. t.mutations.items ≡ mutations.items) }
{
    let Some(id) = given else {
        return match tx_of_line(alloc, line) {
            Ok(id) => Ok(Txn { id, mutations }),
            Err(_) => Err(TxnFault::NoMemory),
        };
    };
    if is_tx_id(id.as_str()) {
        Ok(Txn { id, mutations })
    } else {
        Err(TxnFault::BadTx)
    }
}

fn read_object(alloc: Global, mut object: Fields, line: u32) -> Result<Txn, TxnFault>
    ensures read { MatchResult result (λ t. of_pairs line (fields object) ≡ transaction (txn t))
        (λ e. IsTxnFault e (of_pairs line (fields object))) }
    ensures numbers { IfOk result (λ t. AllAddNumbers t.mutations.items) }
{
    if !has_keys(&object, &["mutations"], &["transactionId"]) {
        return Err(TxnFault::BadCommand);
    }
    let Some(members) = take_list(&mut object, "mutations") else {
        return Err(TxnFault::BadCommand);
    };
    let mutations = mutations(alloc, members)?;
    let given = take_text_or_none(&mut object, "transactionId")?;
    by_id(alloc, given, mutations, line)
}

impl Txn {
    /// The transaction that stands under `mutate` in the line of the number. It has the id that the
    /// client gives, or else `tx-` and the number. What the value holds is moved, and not copied.
    ///
    /// `BadCommand` exactly where the value is no object with the list `mutations`, and perhaps the
    /// text `transactionId`, and no other key, or where a member of the list is none of these
    /// objects of one key; a key with `?` may be absent:
    ///
    /// - `create`, `createOrReplace` or `createIfNotExists`: any value
    /// - `delete`: an object that has `id`, a text, or else `query`, a text, and `params`?, an
    ///   object
    /// - `patch`: an object that has the keys of one for `delete` and `ifRevisionID`?, a text;
    ///   `setIfMissing`? and `set`?, objects; `unset`?, a list of texts; `inc`? and `dec`?, objects
    ///   whose values are whole numbers; `insert`?, an object of the list `items` and the text
    ///   `before`, `after` or `replace`; `diffMatchPatch`?, any value
    ///
    /// Else `BadTx` exactly where the given id is not one that a client may give: 1 to 64 ASCII
    /// letters, digits, `_` and `-`, the first of them no `-`, and not beginning with `tx-`.
    /// `NoMemory` at any point where the allocator has no room.
    pub fn read(alloc: Global, body: Val, line: u32) -> Result<Txn, TxnFault>
        ensures read { MatchResult result
            (λ t. body_of (tree body) line ≡ transaction (txn t))
            (λ e. IsTxnFault e (body_of (tree body) line)) }
        ensures numbers { IfOk result (λ t. AllAddNumbers t.mutations.items) }
    {
        match body {
            Val::Obj(object) => read_object(alloc, object, line),
            _ => Err(TxnFault::BadCommand),
        }
    }
}

//! Transactions, from a few bodies each.
use cs_body::{Mutation, Target, Txn, TxnFault};
use cs_value::{Fields, Txt, Val};
use std::alloc::Global;
use std::test::Fail;

fn text(alloc: Global, word: &str) -> Result<Val, Fail> {
    Ok(Val::Text(Txt::copy_of(alloc, word)?))
}

fn object(alloc: Global, key: &str, val: Val) -> Result<Fields, Fail> {
    let mut made = Fields::new(alloc);
    drop(made.put(Txt::copy_of(alloc, key)?, val)?);
    Ok(made)
}

// A body whose one mutation has the value under the key.
fn body(alloc: Global, key: &str, val: Val) -> Result<Fields, Fail> {
    let mut members = Vec::new(alloc);
    members.push(Val::Obj(object(alloc, key, val)?))?;
    object(alloc, "mutations", Val::List(members))
}

fn kind(mutation: &Mutation) -> &'static str {
    match mutation {
        Mutation::Create(_) => "create",
        Mutation::Replace(_) => "replace",
        Mutation::IfNone(_) => "if-none",
        Mutation::Delete(Target::Id(_)) => "delete-one",
        Mutation::Delete(Target::Query { .. }) => "delete-all",
        Mutation::Change { diff: true, .. } => "diff",
        Mutation::Change { diff: false, .. } => "change",
    }
}

// The id and the mutations in words, or the fault.
fn words_of(alloc: Global, read: &Result<Txn, TxnFault>) -> Result<String, Fail> {
    match read {
        Ok(txn) => {
            let mut words = format!(in alloc; "{}", txn.id.as_str())?;
            for mutation in &txn.mutations {
                words.push(' ')?;
                words.push_str(kind(mutation))?;
            }
            Ok(words)
        }
        Err(TxnFault::BadCommand) => Ok(String::from_str(alloc, "bad-command")?),
        Err(TxnFault::BadTx) => Ok(String::from_str(alloc, "bad-tx")?),
        Err(TxnFault::NoMemory) => Ok(String::from_str(alloc, "no-memory")?),
    }
}

#[test]
fn reads_mutations(rt: HostRuntime) -> Result<(), Fail> {
    let cases = [
        ("create", "id", "tx-7 create"),
        ("createOrReplace", "", "tx-7 replace"),
        ("createIfNotExists", "_id", "tx-7 if-none"),
        ("delete", "id", "tx-7 delete-one"),
        ("delete", "query", "tx-7 delete-all"),
        ("delete", "params", "bad-command"),
        ("patch", "id", "tx-7 change"),
        ("patch", "query", "tx-7 change"),
        ("patch", "set", "bad-command"),
        ("update", "id", "bad-command"),
    ];
    for (key, inner, wanted) in cases {
        let val = Val::Obj(object(rt.alloc(), inner, text(rt.alloc(), "a")?)?);
        let given = body(rt.alloc(), key, val)?;
        let read = Txn::read(rt.alloc(), Val::Obj(given), 7);
        let found = words_of(rt.alloc(), &read)?;
        assert_eq!(rt; found.as_str(), wanted, "of {key} with {inner}");
    }
    Ok(())
}

#[test]
fn takes_ids_of_clients_and_no_others(rt: HostRuntime) -> Result<(), Fail> {
    let cases = [
        ("a", "a create"),
        ("_", "_ create"),
        ("tx", "tx create"),
        ("tx_1", "tx_1 create"),
        ("a-b", "a-b create"),
        (
            "0123456789abcdef0123456789ABCDEF0123456789abcdef0123456789ABC-_Z",
            "0123456789abcdef0123456789ABCDEF0123456789abcdef0123456789ABC-_Z create",
        ),
        ("", "bad-tx"),
        ("-a", "bad-tx"),
        ("tx-", "bad-tx"),
        ("tx-9", "bad-tx"),
        ("a.b", "bad-tx"),
        ("a b", "bad-tx"),
        (
            "0123456789abcdef0123456789abcdef0123456789abcdef0123456789abcdefg",
            "bad-tx",
        ),
    ];
    for (id, wanted) in cases {
        let mut given = body(rt.alloc(), "create", Val::Null)?;
        drop(given.put(
            Txt::copy_of(rt.alloc(), "transactionId")?,
            text(rt.alloc(), id)?,
        )?);
        let read = Txn::read(rt.alloc(), Val::Obj(given), 7);
        let found = words_of(rt.alloc(), &read)?;
        assert_eq!(rt; found.as_str(), wanted, "of {id}");
    }
    Ok(())
}

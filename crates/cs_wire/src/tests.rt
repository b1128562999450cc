//! Commands, from one line each.
use super::*;
use cs_value::{Fields, Txt, Val};
use std::alloc::Global;
use std::test::Fail;

// A value by its JSON, or a text where that is none of these.
fn value(alloc: Global, word: &str) -> Result<Val, Fail> {
    match word {
        "null" => Ok(Val::Null),
        "true" => Ok(Val::Bool(true)),
        "false" => Ok(Val::Bool(false)),
        "1" => Ok(Val::Num(1)),
        "[]" => Ok(Val::List(Vec::new(alloc))),
        "{}" => Ok(Val::Obj(Fields::new(alloc))),
        "{p}" => {
            let mut one = Fields::new(alloc);
            drop(one.put(Txt::copy_of(alloc, "p")?, Val::Null)?);
            Ok(Val::Obj(one))
        }
        _ => Ok(Val::Text(Txt::copy_of(alloc, word)?)),
    }
}

// An object of `key=value` words.
fn object(alloc: Global, words: &str) -> Result<Fields, Fail> {
    let mut made = Fields::new(alloc);
    for word in words.split(' ') {
        if let Some((key, part)) = word.split_once('=') {
            let name = Txt::copy_of(alloc, key)?;
            drop(made.put(name, value(alloc, part)?)?);
        }
    }
    Ok(made)
}

// The command in words, parameters by their number.
fn words_of(alloc: Global, command: &Command) -> Result<String, Fail> {
    match command {
        Command::Mutate { body } => {
            let kind = if matches!(body, Val::Null) {
                "null"
            } else {
                "other"
            };
            Ok(format!(in alloc; "mutate {kind}")?)
        }
        Command::Query { text, params } => {
            Ok(format!(in alloc; "query {} {}", text.as_str(), params.pairs.len())?)
        }
        Command::Live { name, text, params } => {
            Ok(format!(in alloc;
                "live {} {} {}",
                name.as_str(),
                text.as_str(),
                params.pairs.len()
            )?)
        }
        Command::Listen {
            name,
            text,
            params,
            include_result,
            include_previous,
        } => {
            let size = params.pairs.len();
            let asked = format!(in alloc; "{} {} {size}", name.as_str(), text.as_str())?;
            Ok(format!(in alloc; "listen {asked} {include_result} {include_previous}")?)
        }
        Command::Stop { name } => Ok(format!(in alloc; "stop {}", name.as_str())?),
        Command::At { moment } => Ok(format!(in alloc; "at {}", moment.as_str())?),
    }
}

fn read_words(alloc: Global, val: Val) -> Result<String, Fail> {
    match Command::read(alloc, val) {
        Ok(command) => words_of(alloc, &command),
        Err(BadCommand) => Ok(String::from_str(alloc, "bad-command")?),
    }
}

#[test]
fn reads_commands(rt: HostRuntime) -> Result<(), Fail> {
    let cases = [
        ("mutate=null", "mutate null"),
        ("mutate={} params={}", "bad-command"),
        ("query= params={p}", "query  1"),
        ("query=* params=null", "bad-command"),
        ("live=v query=*", "live v * 0"),
        ("live=-v query=*", "bad-command"),
        ("live=v listen=l query=*", "bad-command"),
        (
            "listen=l query=* params={p} includeResult=true includePrevious=false",
            "listen l * 1 true false",
        ),
        (
            "listen=l query=* includePrevious=true",
            "listen l * 0 false true",
        ),
        ("listen=l query=* includeResult=null", "bad-command"),
        ("stop=v", "stop v"),
        ("at=2024-02-30T00:00:00Z", "at 2024-02-30T00:00:00Z"),
    ];
    for (given, wanted) in cases {
        let found = read_words(rt.alloc(), Val::Obj(object(rt.alloc(), given)?))?;
        assert_eq!(rt; found.as_str(), wanted, "of {given}");
    }
    Ok(())
}

#[test]
fn knows_moments(rt: HostRuntime) -> Result<(), Fail> {
    let cases = [
        ("9999-12-31T23:59:59Z", true),
        ("0000-02-29T00:00:00Z", true),
        ("2024-02-29T12:00:00Z", true),
        ("2023-02-29T12:00:00Z", false),
        ("1900-02-29T12:00:00Z", false),
        ("2024-04-31T00:00:00Z", false),
        ("2024-00-10T00:00:00Z", false),
        ("2024-04-01T24:00:00Z", false),
        ("2016-12-31T23:59:60Z", false),
        ("2024-04-01T00:00:00.5Z", false),
        ("2024-04-01 00:00:00Z", false),
        ("2024-04-01T00:00:0aZ", false),
    ];
    for (given, wanted) in cases {
        assert_eq!(rt; is_moment(given), wanted, "of {given}");
    }
    Ok(())
}

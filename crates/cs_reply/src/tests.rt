//! The text of each reply and refusal.
use super::*;
use cs_json::Node;
use cs_value::Val;
use std::alloc::Global;
use std::test::Fail;

fn written(alloc: Global, reply: Reply<'_>) -> Result<String, Fail> {
    let mut out = Vec::new(alloc);
    reply.write(alloc, 7, &mut out)?;
    Ok(String::from_utf8(out)?)
}

fn accepted(alloc: Global) -> Result<String, Fail> {
    let outcomes = [
        Outcome {
            id: "a",
            operation: Operation::Create,
        },
        Outcome {
            id: "b",
            operation: Operation::Update,
        },
        Outcome {
            id: "c",
            operation: Operation::Delete,
        },
    ];
    written(
        alloc,
        Reply::Committed {
            tx: "T",
            outcomes: &outcomes,
        },
    )
}

#[test]
fn writes_replies(rt: HostRuntime) -> Result<(), Fail> {
    let alloc = rt.alloc();
    assert_eq!(rt;
        accepted(alloc)?.as_str(),
        "{\"line\":7,\"results\":[{\"id\":\"a\",\"operation\":\"create\"},{\"id\":\"b\",\"operation\":\"update\"},{\"id\":\"c\",\"operation\":\"delete\"}],\"transactionId\":\"T\"}\n"
    );
    assert_eq!(rt;
        written(alloc, Reply::Found(Node::Value(&Val::Bool(true))))?.as_str(),
        "{\"line\":7,\"result\":true}\n"
    );
    let mut live = Vec::new(alloc);
    write_live(alloc, "a", b"false", 7, &mut live)?;
    assert_eq!(rt;
        String::from_utf8(live)?.as_str(),
        "{\"line\":7,\"live\":\"a\",\"result\":false}\n"
    );
    assert_eq!(rt;
        written(alloc, Reply::Set("2024-03-01T00:00:00Z"))?.as_str(),
        "{\"at\":\"2024-03-01T00:00:00Z\",\"line\":7}\n"
    );
    let refusals = [
        (
            Refusal::BadToken { at: 2 },
            "{\"at\":2,\"error\":\"bad-token\",\"line\":7}\n",
        ),
        (
            Refusal::NotListenable,
            "{\"error\":\"not-listenable\",\"line\":7}\n",
        ),
        (
            Refusal::NameUsed { name: "a" },
            "{\"error\":\"name-used\",\"line\":7,\"name\":\"a\"}\n",
        ),
        (
            Refusal::FullSubscriptions { limit: 1024 },
            "{\"error\":\"full-subscriptions\",\"limit\":1024,\"line\":7}\n",
        ),
        (
            Refusal::BadMoment,
            "{\"error\":\"bad-moment\",\"line\":7}\n",
        ),
        (
            Refusal::Arity { name: "count" },
            "{\"error\":\"arity\",\"line\":7,\"name\":\"count\"}\n",
        ),
        (
            Refusal::TxUsed { id: "T" },
            "{\"error\":\"tx-used\",\"id\":\"T\",\"line\":7}\n",
        ),
    ];
    for (refusal, wanted) in refusals {
        assert_eq!(rt; written(alloc, Reply::Refused(refusal))?.as_str(), wanted);
    }
    Ok(())
}

#[test]
fn states_what_stops_a_run(rt: HostRuntime) -> Result<(), Fail> {
    let stops = [
        (
            Stop::TooLong {
                source: Source::Data,
                line: 3,
            },
            "{\"error\":\"too-long\",\"line\":3,\"source\":\"data\"}\n",
        ),
        (
            Stop::TooMuch {
                source: Source::Script,
                line: 4,
            },
            "{\"error\":\"too-much\",\"line\":4,\"source\":\"script\"}\n",
        ),
        (
            Stop::Bad {
                line: 2,
                cause: Cause::Repeated { id: "a" },
            },
            "{\"cause\":\"repeated\",\"error\":\"data\",\"id\":\"a\",\"line\":2}\n",
        ),
        (
            Stop::Dangling { from: "a", to: "b" },
            "{\"cause\":\"dangling\",\"error\":\"data\",\"from\":\"a\",\"to\":\"b\"}\n",
        ),
    ];
    for (stop, wanted) in stops {
        let line = stop.line(rt.alloc())?;
        assert_eq!(rt; line.as_slice(), wanted.as_bytes());
    }
    Ok(())
}

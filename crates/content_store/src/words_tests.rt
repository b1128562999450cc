//! Command lines, and what each asks for.
use crate::tests::{Outside, PLAIN, ends, played};
use cs_run::Status;
use std::alloc::Global;
use std::random::RandomSource;
use std::test::Fail;

// Lines that ask for the files that there are, or for none.
const RUN: [&str; 9] = [
    "content_store",
    "content_store --script=-",
    "content_store --script -",
    "content_store --",
    "content_store --data data",
    "content_store --data=data --",
    "content_store --data=data --script=-",
    "content_store --script data",
    "content_store --data -",
];

// Lines that ask for a file that there is not.
const ASK_FOR_MORE: [&str; 14] = [
    "content_store --data x",
    "content_store --data=x",
    "content_store --script s",
    "content_store --data x --script y",
    "content_store --script y --data=x",
    "content_store --data=a=b",
    "content_store --data=--script",
    "content_store --data=-x",
    "content_store --data=",
    "content_store --data ",
    "content_store --script=",
    "content_store --script  --data x",
    "content_store --data x --",
    "content_store --data help",
];

const REFUSED: [&str; 42] = [
    "content_store --data= ",
    "content_store --data x --data y",
    "content_store --data=x --data=x",
    "content_store --script a --script=b",
    "content_store --script - --script -",
    "content_store --data",
    "content_store --data x --script",
    "content_store --data --script",
    "content_store --data --script x",
    "content_store --data -x",
    "content_store --data -- x",
    "content_store --gen",
    "content_store --gen=",
    "content_store --gen x",
    "content_store --gen 1.0",
    "content_store --gen=-1",
    "content_store --gen -0",
    "content_store --gen 100001",
    "content_store --gen 18446744073709551616",
    "content_store --gen 1 --gen 1",
    "content_store --Gen 1",
    "content_store --other",
    "content_store --other=x",
    "content_store x",
    "content_store -",
    "content_store ",
    "content_store --data x y",
    "content_store -- x",
    "content_store -- --data x",
    "content_store -d",
    "content_store -d x",
    "content_store -dx",
    "content_store --dat x",
    "content_store --dat=x",
    "content_store --Data x",
    "content_store ---data x",
    "content_store --=x",
    "content_store --help",
    "content_store -h",
    "content_store --version",
    "content_store -V",
    "content_store help",
];

// Lines that ask for a generated script, and the summary that is written.
const SUMMED_UP: [(&str, &str); 6] = [
    (
        "content_store --gen 20",
        "{\"documents\":20,\"events\":2,\"lines\":25,\"live\":2,\"refused\":2,\"replies\":28}\n",
    ),
    (
        "content_store --gen 0",
        "{\"documents\":0,\"events\":0,\"lines\":3,\"live\":1,\"refused\":0,\"replies\":3}\n",
    ),
    (
        "content_store --gen=-0",
        "{\"documents\":0,\"events\":0,\"lines\":3,\"live\":1,\"refused\":0,\"replies\":3}\n",
    ),
    (
        "content_store --gen=+3",
        "{\"documents\":3,\"events\":1,\"lines\":7,\"live\":2,\"refused\":1,\"replies\":9}\n",
    ),
    (
        "content_store --gen 3 --data x --script y",
        "{\"documents\":3,\"events\":1,\"lines\":7,\"live\":2,\"refused\":1,\"replies\":9}\n",
    ),
    (
        "content_store --gen 007",
        "{\"documents\":7,\"events\":1,\"lines\":11,\"live\":2,\"refused\":1,\"replies\":13}\n",
    ),
];

// How the run of a line ends, where there are a data file `data` and a script `-`.
fn ended(rt: &impl RandomSource, alloc: Global, line: &str) -> Result<Status, Fail> {
    let outside = Outside {
        words: line,
        ..PLAIN
    };
    let (status, _) = played(rt, alloc, outside)?;
    Ok(status)
}

#[test]
fn runs_what_there_is(rt: HostRuntime) -> Result<(), Fail> {
    for line in &RUN {
        assert_eq!(rt; ended(&rt, rt.alloc(), line)?, Status::Done, "of {line}");
    }
    Ok(())
}

#[test]
fn asks_for_what_is_not_there(rt: HostRuntime) -> Result<(), Fail> {
    for line in &ASK_FOR_MORE {
        assert_eq!(rt;
            ended(&rt, rt.alloc(), line)?,
            Status::OpenFault,
            "of {line}"
        );
    }
    Ok(())
}

#[test]
fn refuses_other_words(rt: HostRuntime) -> Result<(), Fail> {
    for line in &REFUSED {
        assert_eq!(rt; ended(&rt, rt.alloc(), line)?, Status::Usage, "of {line}");
    }
    Ok(())
}

#[test]
fn sums_up_generated_scripts(rt: HostRuntime) -> Result<(), Fail> {
    for (line, wanted) in &SUMMED_UP {
        let outside = Outside {
            words: line,
            ..PLAIN
        };
        ends(&rt, rt.alloc(), outside, Status::Done, wanted, line)?;
    }
    Ok(())
}

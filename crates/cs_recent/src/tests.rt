//! Which queries are kept: that costs time alone, so no clause says it.
use super::*;
use cs_parse::parse;
use std::alloc::Global;
use std::test::Fail;

// The query that the text is comes once, where it is one.
fn come(alloc: Global, recent: &mut Recent, text: &str) {
    if text.len() > 4_096 {
        return;
    }
    if let Ok(query) = parse(alloc, text) {
        recent.keep(text, query);
    }
}

// It comes twice, and so is kept.
fn keep(alloc: Global, recent: &mut Recent, text: &str) {
    come(alloc, recent, text);
    come(alloc, recent, text);
}

fn is_kept(recent: &mut Recent, text: &str) -> bool {
    recent.recall(text).is_some()
}

#[test]
fn the_queries_that_were_asked_last_are_kept(rt: HostRuntime) -> Result<(), Fail> {
    let mut recent = Recent::new(rt.alloc())?;
    keep(rt.alloc(), &mut recent, "first");
    for number in 0..63u32 {
        let text = format!(in rt.alloc(); "{number}")?;
        keep(rt.alloc(), &mut recent, text.as_str());
    }
    assert!(rt; is_kept(&mut recent, "first"));
    keep(rt.alloc(), &mut recent, "another");
    assert!(rt; is_kept(&mut recent, "first"));
    assert!(rt; is_kept(&mut recent, "another"));
    assert!(rt; is_kept(&mut recent, "62"));
    assert!(rt; !is_kept(&mut recent, "0"));
    assert!(rt; !is_kept(&mut recent, "63"));
    Ok(())
}

#[test]
fn a_text_is_kept_when_it_comes_again(rt: HostRuntime) -> Result<(), Fail> {
    let mut recent = Recent::new(rt.alloc())?;
    come(rt.alloc(), &mut recent, "first");
    assert!(rt; !is_kept(&mut recent, "first"));
    come(rt.alloc(), &mut recent, "another");
    assert!(rt; !is_kept(&mut recent, "another"));
    come(rt.alloc(), &mut recent, "first");
    assert!(rt; is_kept(&mut recent, "first"));
    assert!(rt; !is_kept(&mut recent, "another"));
    Ok(())
}

#[test]
fn a_long_text_is_not_kept(rt: HostRuntime) -> Result<(), Fail> {
    let mut recent = Recent::new(rt.alloc())?;
    let mut text = String::from_str(rt.alloc(), "1")?;
    for _ in 1..1_024u32 {
        text.push_str(" ")?;
    }
    keep(rt.alloc(), &mut recent, text.as_str());
    assert!(rt; is_kept(&mut recent, text.as_str()));
    text.push_str(" ")?;
    keep(rt.alloc(), &mut recent, text.as_str());
    assert!(rt; !is_kept(&mut recent, text.as_str()));
    Ok(())
}

//! The entries of an object or a projection.
ghost use Rattle.std.specs.Prelude.{◌<◌, ◌≤◌, length, IfOk};
ghost use Rattle.cs_grammar.specs.Answers.{AnswersEntries, AnswersEntry, AnswersSpread};

use crate::fault::GrammarFault;
use crate::look::Tokens;
use crate::make;
use crate::operators::expression;
use cs_syntax::{Entry, Sign, unescape};
use std::alloc::Global;

// The entries, up to and with the brace that closes.
#[cycle(descent)]
pub fn entries(
    alloc: Global,
    ts: &Tokens<'_>,
    at: usize,
) -> Result<(Vec<Entry>, usize), GrammarFault>
    ensures read { AnswersEntries ts.now at result }
    ensures shorter { IfOk result (λ x. (at < x.1) × (x.1 ≤ length ts.now)) }
{
    let mut left = at;
    let mut all = Vec::new(alloc);
    loop {
        if let Some(rest) = ts.behind(left, Sign::CloseBrace) {
            return Ok((all, rest));
        }
        let (next, after_next) = entry(alloc, ts, left)?;
        all.push(next)?;
        if let Some(after_comma) = ts.behind(after_next, Sign::Comma) {
            left = after_comma;
        } else if let Some(after_bracket) = ts.behind(after_next, Sign::CloseBrace) {
            return Ok((all, after_bracket));
        } else {
            return Err(GrammarFault::Syntax);
        }
    }
}

#[cycle(descent)]
fn entry(alloc: Global, ts: &Tokens<'_>, at: usize) -> Result<(Entry, usize), GrammarFault>
    ensures read { AnswersEntry ts.now at result }
    ensures shorter { IfOk result (λ x. (at < x.1) × (x.1 ≤ length ts.now)) }
{
    if let Some(after_dots) = ts.behind(at, Sign::DotDotDot) {
        return spread(alloc, ts, after_dots);
    }
    if let Some((source, after_colon)) = ts.key(at) {
        let key = unescape(alloc, source)?;
        let (value, rest) = expression(alloc, ts, after_colon)?;
        return Ok((make::keyed(key, value), rest));
    }
    let (first, after_first) = expression(alloc, ts, at)?;
    let Some(after_arrow) = ts.behind(after_first, Sign::FatArrow) else {
        return Ok((make::bare(first), after_first));
    };
    let (then, rest) = expression(alloc, ts, after_arrow)?;
    Ok((make::when(first, then), rest))
}

// Behind `...`.
#[cycle(descent)]
fn spread(alloc: Global, ts: &Tokens<'_>, at: usize) -> Result<(Entry, usize), GrammarFault>
    requires { at ≤ length ts.now }
    ensures read { AnswersSpread ts.now at result }
    ensures shorter { IfOk result (λ x. (at ≤ x.1) × (x.1 ≤ length ts.now)) }
{
    if ts.stands(at, Sign::Comma) || ts.stands(at, Sign::CloseBrace) {
        return Ok((make::spread_this(), at));
    }
    let (inner, rest) = expression(alloc, ts, at)?;
    Ok((make::spread(inner), rest))
}

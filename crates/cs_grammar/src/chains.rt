//! Chains: a base and its steps.
ghost use Rattle.std.specs.Prelude.{◌<◌, ◌≤◌, length, IfOk, IfSome};
ghost use Rattle.cs_syntax.specs.View.{steps};
ghost use Rattle.cs_grammar.specs.Reading.{link};
ghost use Rattle.cs_grammar.specs.Answers.{Answers, AnswersArrow, AnswersStep, AnswersBracket, AnswersPipe, AnswersName, AnswersKeys, AnswersKey};

use crate::bases::base;
use crate::fault::GrammarFault;
use crate::look::Tokens;
use crate::make;
use crate::objects::entries;
use crate::operators::{expression, expression_from, sum};
use cs_syntax::{Expr, OrderKey, Sign, Step};
use cs_value::{NoMemory, Txt};
use std::alloc::Global;

#[cycle(descent)]
pub fn chain(alloc: Global, ts: &Tokens<'_>, at: usize) -> Result<(Box<Expr>, usize), GrammarFault>
    ensures read { Answers link ts.now at result }
    ensures shorter { IfOk result (λ x. (at < x.1) × (x.1 ≤ length ts.now)) }
{
    let (first, after_first) = base(alloc, ts, at)?;
    let mut left = after_first;
    let mut steps = Vec::new(alloc);
    loop {
        if let Some(after_arrow) = ts.behind(left, Sign::Arrow) {
            let (more, rest) = behind_arrow(alloc, steps, ts, after_arrow)?;
            steps = more;
            left = rest;
        } else if let Some((next, rest)) = step(alloc, ts, left)? {
            steps.push(next)?;
            left = rest;
        } else {
            return Ok((make::chain(alloc, first, steps)?, left));
        }
    }
}

// The step `->`, and an attribute where one stands behind it.
fn behind_arrow(
    alloc: Global,
    before: Vec<Step>,
    ts: &Tokens<'_>,
    at: usize,
) -> Result<(Vec<Step>, usize), NoMemory>
    requires { at ≤ length ts.now }
    ensures read { IfOk result (λ x. AnswersArrow (steps before.items) ts.now at (steps x.0.items)
        x.1) }
    ensures shorter { IfOk result (λ x. (at ≤ x.1) × (x.1 ≤ length ts.now)) }
{
    let mut steps = before;
    steps.push(make::deref())?;
    let Some((name, rest)) = ts.attribute(at) else {
        return Ok((steps, at));
    };
    steps.push(make::attr(alloc, name)?)?;
    Ok((steps, rest))
}

// A step that does not begin with `->`, where one stands.
#[cycle(descent)]
fn step(alloc: Global, ts: &Tokens<'_>, at: usize) -> Result<Option<(Step, usize)>, GrammarFault>
    ensures read { AnswersStep ts.now at result }
    ensures shorter { IfOk result (λ o. IfSome o (λ x. (at < x.1) × (x.1 ≤ length ts.now))) }
{
    if let Some(after_dot) = ts.behind(at, Sign::Dot) {
        let Some((name, rest)) = ts.word(after_dot) else {
            return Err(GrammarFault::Syntax);
        };
        return Ok(Some((make::attr(alloc, name)?, rest)));
    }
    if let Some(inside) = ts.behind(at, Sign::OpenBracket) {
        let (found, rest) = bracket_step(alloc, ts, inside)?;
        return Ok(Some((found, rest)));
    }
    if let Some(inside) = ts.behind(at, Sign::OpenBrace) {
        let (all, rest) = entries(alloc, ts, inside)?;
        return Ok(Some((make::project(all), rest)));
    }
    let Some(after_pipe) = ts.behind(at, Sign::Pipe) else {
        return Ok(None);
    };
    let (piped, rest) = pipe_step(alloc, ts, after_pipe)?;
    Ok(Some((piped, rest)))
}

// A step in square brackets, behind the bracket that opens.
#[cycle(descent)]
fn bracket_step(alloc: Global, ts: &Tokens<'_>, at: usize) -> Result<(Step, usize), GrammarFault>
    ensures read { AnswersBracket ts.now at result }
    ensures shorter { IfOk result (λ x. (at < x.1) × (x.1 ≤ length ts.now)) }
{
    if let Some(rest) = ts.behind(at, Sign::CloseBracket) {
        return Ok((make::each(), rest));
    }
    let (first, after_first) = sum(alloc, ts, at)?;
    if let Some((closed, after_dots)) = ts.dots(after_first) {
        let (to, after_to) = sum(alloc, ts, after_dots)?;
        let Some(rest) = ts.behind(after_to, Sign::CloseBracket) else {
            return Err(GrammarFault::Syntax);
        };
        return Ok((make::slice(first, to, closed), rest));
    }
    let (inner, after_inner) = expression_from(alloc, first, ts, after_first)?;
    let Some(rest) = ts.behind(after_inner, Sign::CloseBracket) else {
        return Err(GrammarFault::Syntax);
    };
    Ok((make::bracket(inner), rest))
}

// A projection or a call, behind `|`.
#[cycle(descent)]
fn pipe_step(alloc: Global, ts: &Tokens<'_>, at: usize) -> Result<(Step, usize), GrammarFault>
    ensures read { AnswersPipe ts.now at result }
    ensures shorter { IfOk result (λ x. (at < x.1) × (x.1 ≤ length ts.now)) }
{
    if let Some(inside) = ts.behind(at, Sign::OpenBrace) {
        let (all, rest) = entries(alloc, ts, inside)?;
        return Ok((make::project(all), rest));
    }
    let (called, after_name) = name(alloc, ts, at)?;
    let Some(inside) = ts.behind(after_name, Sign::OpenParen) else {
        return Err(GrammarFault::Syntax);
    };
    if let Some(rest) = ts.behind(inside, Sign::CloseParen) {
        return Ok((make::pipe(called, Vec::new(alloc)), rest));
    }
    let (all, rest) = keys(alloc, ts, inside)?;
    Ok((make::pipe(called, all), rest))
}

// A word, or two joined by `::`.
fn name(alloc: Global, ts: &Tokens<'_>, at: usize) -> Result<(Txt, usize), GrammarFault>
    ensures read { AnswersName ts.now at result }
    ensures shorter { IfOk result (λ x. (at < x.1) × (x.1 ≤ length ts.now)) }
{
    let Some((first, after_first)) = ts.word(at) else {
        return Err(GrammarFault::Syntax);
    };
    let Some(after_colons) = ts.behind(after_first, Sign::ColonColon) else {
        return Ok((Txt::copy_of(alloc, first)?, after_first));
    };
    let Some((second, rest)) = ts.word(after_colons) else {
        return Err(GrammarFault::Syntax);
    };
    Ok((make::name_of_words(alloc, first, second)?, rest))
}

// One or more keys, up to and with the bracket that closes.
#[cycle(descent)]
fn keys(alloc: Global, ts: &Tokens<'_>, at: usize) -> Result<(Vec<OrderKey>, usize), GrammarFault>
    ensures read { AnswersKeys ts.now at result }
    ensures shorter { IfOk result (λ x. (at < x.1) × (x.1 ≤ length ts.now)) }
{
    let mut left = at;
    let mut all = Vec::new(alloc);
    loop {
        let (next, after_next) = order_key(alloc, ts, left)?;
        all.push(next)?;
        if let Some(after_comma) = ts.behind(after_next, Sign::Comma) {
            left = after_comma;
        } else if let Some(after_bracket) = ts.behind(after_next, Sign::CloseParen) {
            return Ok((all, after_bracket));
        } else {
            return Err(GrammarFault::Syntax);
        }
    }
}

#[cycle(descent)]
fn order_key(alloc: Global, ts: &Tokens<'_>, at: usize) -> Result<(OrderKey, usize), GrammarFault>
    ensures read { AnswersKey ts.now at result }
    ensures shorter { IfOk result (λ x. (at < x.1) × (x.1 ≤ length ts.now)) }
{
    let (inner, after_inner) = expression(alloc, ts, at)?;
    if let Some(rest) = ts.behind_keyword(after_inner, "asc") {
        return Ok((make::key(inner, false), rest));
    }
    if let Some(rest) = ts.behind_keyword(after_inner, "desc") {
        return Ok((make::key(inner, true), rest));
    }
    Ok((make::key(inner, false), after_inner))
}

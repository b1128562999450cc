//! Operators, the loosest first. The operators of one level are a loop, so that the calls nest as
//! deep as the brackets do.
ghost use Rattle.std.specs.Prelude.{◌<◌, ◌≤◌, length, IfOk, []};
ghost use Rattle.cs_syntax.specs.View.{expression};
ghost use Rattle.cs_grammar.specs.Reading.{expr, expr_from, conjunction, cmp, cmp_from, sum, product, run_from, neg_from, pow, pre_from, operand_of};
ghost use Rattle.cs_grammar.specs.Answers.{Answers};

use crate::chains::chain;
use crate::fault::GrammarFault;
use crate::level::Level;
use crate::look::Tokens;
use crate::make;
use cs_syntax::{BinSign, Expr, PreSign, Sign};
use std::alloc::Global;

#[cycle(descent)]
pub fn expression(
    alloc: Global,
    ts: &Tokens<'_>,
    at: usize,
) -> Result<(Box<Expr>, usize), GrammarFault>
    ensures read { Answers expr ts.now at result }
    ensures shorter { IfOk result (λ x. (at < x.1) × (x.1 ≤ length ts.now)) }
{
    let (first, rest) = sum(alloc, ts, at)?;
    expression_from(alloc, first, ts, rest)
}

// Behind a sum.
#[cycle(descent)]
pub fn expression_from(
    alloc: Global,
    first: Box<Expr>,
    ts: &Tokens<'_>,
    at: usize,
) -> Result<(Box<Expr>, usize), GrammarFault>
    requires { at ≤ length ts.now }
    ensures read { Answers (expr_from (expression first.value)) ts.now at result }
    ensures shorter { IfOk result (λ x. (at ≤ x.1) × (x.1 ≤ length ts.now)) }
{
    let (compared, rest) = comparison_from(alloc, first, ts, at)?;
    let (conjoined, rest) = left_run(alloc, Level::And, compared, ts, rest)?;
    left_run(alloc, Level::Or, conjoined, ts, rest)
}

// The operators of a level that groups from the left, behind the first operand. Most often there
// are none, and then nothing is made ready for them.
#[cycle(descent)]
fn left_run(
    alloc: Global,
    level: Level,
    first: Box<Expr>,
    ts: &Tokens<'_>,
    at: usize,
) -> Result<(Box<Expr>, usize), GrammarFault>
    requires { at ≤ length ts.now }
    ensures read { Answers (run_from level (expression first.value) []) ts.now at result }
    ensures shorter { IfOk result (λ x. (at ≤ x.1) × (x.1 ≤ length ts.now)) }
{
    match ts.operator(at, level) {
        Some(_) => run(alloc, level, first, ts, at),
        None => Ok((first, at)),
    }
}

// The operators one after the other.
#[cycle(descent)]
fn run(
    alloc: Global,
    level: Level,
    first: Box<Expr>,
    ts: &Tokens<'_>,
    at: usize,
) -> Result<(Box<Expr>, usize), GrammarFault>
    requires { at ≤ length ts.now }
    ensures read { Answers (run_from level (expression first.value) []) ts.now at result }
    ensures shorter { IfOk result (λ x. (at ≤ x.1) × (x.1 ≤ length ts.now)) }
{
    let mut left = at;
    let mut operands = Vec::new(alloc);
    while let Some((sign, after_sign)) = ts.operator(left, level) {
        let (next, rest) = operand(alloc, level, ts, after_sign)?;
        operands.push((sign, Box::into_inner(next)))?;
        left = rest;
    }
    Ok((make::run(alloc, first, operands)?, left))
}

#[cycle(descent)]
fn operand(
    alloc: Global,
    level: Level,
    ts: &Tokens<'_>,
    at: usize,
) -> Result<(Box<Expr>, usize), GrammarFault>
    ensures read { Answers (operand_of level) ts.now at result }
    ensures shorter { IfOk result (λ x. (at < x.1) × (x.1 ≤ length ts.now)) }
{
    match level {
        Level::Or => conjunction(alloc, ts, at),
        Level::And => comparison(alloc, ts, at),
        Level::Sum => product(alloc, ts, at),
        Level::Product => negation(alloc, ts, at),
    }
}

#[cycle(descent)]
fn conjunction(
    alloc: Global,
    ts: &Tokens<'_>,
    at: usize,
) -> Result<(Box<Expr>, usize), GrammarFault>
    ensures read { Answers conjunction ts.now at result }
    ensures shorter { IfOk result (λ x. (at < x.1) × (x.1 ≤ length ts.now)) }
{
    let (first, rest) = comparison(alloc, ts, at)?;
    left_run(alloc, Level::And, first, ts, rest)
}

#[cycle(descent)]
fn comparison(alloc: Global, ts: &Tokens<'_>, at: usize) -> Result<(Box<Expr>, usize), GrammarFault>
    ensures read { Answers cmp ts.now at result }
    ensures shorter { IfOk result (λ x. (at < x.1) × (x.1 ≤ length ts.now)) }
{
    let (first, rest) = sum(alloc, ts, at)?;
    comparison_from(alloc, first, ts, rest)
}

// Behind a sum: one comparison, `match` or `in`, or nothing.
#[cycle(descent)]
fn comparison_from(
    alloc: Global,
    first: Box<Expr>,
    ts: &Tokens<'_>,
    at: usize,
) -> Result<(Box<Expr>, usize), GrammarFault>
    requires { at ≤ length ts.now }
    ensures read { Answers (cmp_from (expression first.value)) ts.now at result }
    ensures shorter { IfOk result (λ x. (at ≤ x.1) × (x.1 ≤ length ts.now)) }
{
    if let Some((sign, after_sign)) = ts.comparison_sign(at) {
        let (second, rest) = sum(alloc, ts, after_sign)?;
        return Ok((make::pair(alloc, first, sign, second)?, rest));
    }
    if let Some(after_match) = ts.behind_keyword(at, "match") {
        let (pattern, rest) = sum(alloc, ts, after_match)?;
        return Ok((make::pair(alloc, first, BinSign::Match, pattern)?, rest));
    }
    let Some(after_in) = ts.behind_keyword(at, "in") else {
        return Ok((first, at));
    };
    let (from, rest) = sum(alloc, ts, after_in)?;
    let Some((closed, after_dots)) = ts.dots(rest) else {
        return Ok((make::within(alloc, first, from)?, rest));
    };
    let (to, rest) = sum(alloc, ts, after_dots)?;
    Ok((make::between(alloc, first, from, to, closed)?, rest))
}

#[cycle(descent)]
pub fn sum(alloc: Global, ts: &Tokens<'_>, at: usize) -> Result<(Box<Expr>, usize), GrammarFault>
    ensures read { Answers sum ts.now at result }
    ensures shorter { IfOk result (λ x. (at < x.1) × (x.1 ≤ length ts.now)) }
{
    let (first, rest) = product(alloc, ts, at)?;
    left_run(alloc, Level::Sum, first, ts, rest)
}

#[cycle(descent)]
fn product(alloc: Global, ts: &Tokens<'_>, at: usize) -> Result<(Box<Expr>, usize), GrammarFault>
    ensures read { Answers product ts.now at result }
    ensures shorter { IfOk result (λ x. (at < x.1) × (x.1 ≤ length ts.now)) }
{
    let (first, rest) = negation(alloc, ts, at)?;
    left_run(alloc, Level::Product, first, ts, rest)
}

// Any number of `-` and a power.
#[cycle(descent)]
fn negation(alloc: Global, ts: &Tokens<'_>, at: usize) -> Result<(Box<Expr>, usize), GrammarFault>
    ensures read { Answers (neg_from []) ts.now at result }
    ensures shorter { IfOk result (λ x. (at < x.1) × (x.1 ≤ length ts.now)) }
{
    let mut left = at;
    let mut signs = Vec::new(alloc);
    while let Some(rest) = ts.behind(left, Sign::Minus) {
        signs.push(PreSign::Minus)?;
        left = rest;
    }
    let (operand, rest) = power(alloc, ts, left)?;
    Ok((make::prefix(alloc, signs, operand)?, rest))
}

#[cycle(descent)]
fn power(alloc: Global, ts: &Tokens<'_>, at: usize) -> Result<(Box<Expr>, usize), GrammarFault>
    ensures read { Answers pow ts.now at result }
    ensures shorter { IfOk result (λ x. (at < x.1) × (x.1 ≤ length ts.now)) }
{
    let (first, after_first) = prefixed(alloc, ts, at)?;
    let mut left = after_first;
    let mut operands = Vec::new(alloc);
    while let Some(after_sign) = ts.behind(left, Sign::StarStar) {
        let (next, rest) = prefixed(alloc, ts, after_sign)?;
        operands.push((BinSign::Pow, Box::into_inner(next)))?;
        left = rest;
    }
    Ok((make::run(alloc, first, operands)?, left))
}

// Any number of `+` and `!`, and a chain.
#[cycle(descent)]
fn prefixed(alloc: Global, ts: &Tokens<'_>, at: usize) -> Result<(Box<Expr>, usize), GrammarFault>
    ensures read { Answers (pre_from []) ts.now at result }
    ensures shorter { IfOk result (λ x. (at < x.1) × (x.1 ≤ length ts.now)) }
{
    let mut left = at;
    let mut signs = Vec::new(alloc);
    while let Some((sign, rest)) = ts.prefix_sign(left) {
        signs.push(sign)?;
        left = rest;
    }
    let (operand, rest) = chain(alloc, ts, left)?;
    Ok((make::prefix(alloc, signs, operand)?, rest))
}

//! What a chain begins with.
ghost use Rattle.std.specs.Prelude.{◌<◌, ◌≤◌, length, IfOk};
ghost use Rattle.cs_syntax.specs.Expression.{parent};
ghost use Rattle.cs_grammar.specs.View.{left};
ghost use Rattle.cs_grammar.specs.Reading.{base, carets_from, Reads, got};
ghost use Rattle.cs_grammar.specs.Answers.{Answers, AnswersWord, AnswersCall, AnswersSign, AnswersArgs, AnswersArg, AnswersElements, AnswersElement};

use crate::fault::GrammarFault;
use crate::look::{Seen, Tokens};
use crate::make;
use crate::objects::entries;
use crate::operators::expression;
use cs_syntax::{Arg, Elem, Expr, Sign};
use cs_value::Txt;
use std::alloc::Global;

#[cycle(descent)]
pub fn base(alloc: Global, ts: &Tokens<'_>, at: usize) -> Result<(Box<Expr>, usize), GrammarFault>
    ensures read { Answers base ts.now at result }
    ensures shorter { IfOk result (λ x. (at < x.1) × (x.1 ≤ length ts.now)) }
{
    let Some((first, rest)) = ts.token(at) else {
        return Err(GrammarFault::Syntax);
    };
    match first {
        Seen::Number(digits) => Ok((make::number(alloc, digits)?, rest)),
        Seen::Text(source) => Ok((make::text(alloc, source)?, rest)),
        Seen::Param(name) => Ok((make::param(alloc, name)?, rest)),
        Seen::Word(word) => word_base(alloc, word, ts, rest),
        Seen::Sign(sign) => sign_base(alloc, sign, ts, rest),
    }
}

// Behind a word: a call, or the word alone.
#[cycle(descent)]
fn word_base(
    alloc: Global,
    word: &str,
    ts: &Tokens<'_>,
    at: usize,
) -> Result<(Box<Expr>, usize), GrammarFault>
    requires { at ≤ length ts.now }
    ensures read { AnswersWord word.now ts.now at result }
    ensures shorter { IfOk result (λ x. (at ≤ x.1) × (x.1 ≤ length ts.now)) }
{
    if let Some(inside) = ts.behind(at, Sign::OpenParen) {
        return call(alloc, Txt::copy_of(alloc, word)?, ts, inside);
    }
    let Some(after_colons) = ts.behind(at, Sign::ColonColon) else {
        return Ok((make::plain_word(alloc, word)?, at));
    };
    let Some((second, after_name)) = ts.word(after_colons) else {
        return Err(GrammarFault::Syntax);
    };
    let Some(inside) = ts.behind(after_name, Sign::OpenParen) else {
        return Err(GrammarFault::Syntax);
    };
    call(alloc, make::name_of_words(alloc, word, second)?, ts, inside)
}

// Behind the bracket that opens a call.
#[cycle(descent)]
fn call(
    alloc: Global,
    name: Txt,
    ts: &Tokens<'_>,
    at: usize,
) -> Result<(Box<Expr>, usize), GrammarFault>
    ensures read { AnswersCall name ts.now at result }
    ensures shorter { IfOk result (λ x. (at < x.1) × (x.1 ≤ length ts.now)) }
{
    if let Some(rest) = ts.behind(at, Sign::CloseParen) {
        return Ok((make::call(alloc, name, Vec::new(alloc))?, rest));
    }
    let (all, rest) = arguments(alloc, ts, at)?;
    Ok((make::call(alloc, name, all)?, rest))
}

// One or more arguments, up to and with the bracket that closes.
#[cycle(descent)]
fn arguments(alloc: Global, ts: &Tokens<'_>, at: usize) -> Result<(Vec<Arg>, usize), GrammarFault>
    ensures read { AnswersArgs ts.now at result }
    ensures shorter { IfOk result (λ x. (at < x.1) × (x.1 ≤ length ts.now)) }
{
    let mut left = at;
    let mut all = Vec::new(alloc);
    loop {
        let (next, after_next) = argument(alloc, ts, left)?;
        all.push(next)?;
        if let Some(after_comma) = ts.behind(after_next, Sign::Comma) {
            left = after_comma;
        } else if let Some(after_bracket) = ts.behind(after_next, Sign::CloseParen) {
            return Ok((all, after_bracket));
        } else {
            return Err(GrammarFault::Syntax);
        }
    }
}

#[cycle(descent)]
fn argument(alloc: Global, ts: &Tokens<'_>, at: usize) -> Result<(Arg, usize), GrammarFault>
    ensures read { AnswersArg ts.now at result }
    ensures shorter { IfOk result (λ x. (at < x.1) × (x.1 ≤ length ts.now)) }
{
    let (first, after_first) = expression(alloc, ts, at)?;
    let Some(after_arrow) = ts.behind(after_first, Sign::FatArrow) else {
        return Ok((make::argument(first), after_first));
    };
    let (value, rest) = expression(alloc, ts, after_arrow)?;
    Ok((make::when_argument(first, value), rest))
}

// Behind a sign with which a base may begin.
#[cycle(descent)]
fn sign_base(
    alloc: Global,
    sign: Sign,
    ts: &Tokens<'_>,
    at: usize,
) -> Result<(Box<Expr>, usize), GrammarFault>
    requires { at ≤ length ts.now }
    ensures read { AnswersSign sign ts.now at result }
    ensures shorter { IfOk result (λ x. (at ≤ x.1) × (x.1 ≤ length ts.now)) }
{
    match sign {
        Sign::At => Ok((make::this(alloc)?, at)),
        Sign::Star => Ok((make::everything(alloc)?, at)),
        Sign::Caret => {
            let (levels, rest) = carets(ts, at);
            Ok((make::parent(alloc, levels)?, rest))
        }
        Sign::OpenParen => {
            let (inner, after_inner) = expression(alloc, ts, at)?;
            let Some(rest) = ts.behind(after_inner, Sign::CloseParen) else {
                return Err(GrammarFault::Syntax);
            };
            Ok((make::round(alloc, inner)?, rest))
        }
        Sign::OpenBracket => {
            let (list, rest) = elements(alloc, ts, at)?;
            Ok((make::array(alloc, list)?, rest))
        }
        Sign::OpenBrace => {
            let (members, rest) = entries(alloc, ts, at)?;
            Ok((make::object(alloc, members)?, rest))
        }
        _ => Err(GrammarFault::Syntax),
    }
}

// How many `^` there are, dots between them, behind the first.
fn carets(ts: &Tokens<'_>, at: usize) -> (u32, usize)
    requires { at ≤ length ts.now }
    ensures read { Reads (carets_from 1) (left ts.now at)
        (got (parent result.0) (left ts.now result.1)) }
    ensures shorter { (at ≤ result.1) × (result.1 ≤ length ts.now) }
{
    let mut left = at;
    let mut levels = 1;
    while let Some(rest) = ts.behind_caret(left) {
        levels += 1;
        left = rest;
    }
    (levels, left)
}

// The elements of an array, up to and with the bracket that closes.
#[cycle(descent)]
fn elements(alloc: Global, ts: &Tokens<'_>, at: usize) -> Result<(Vec<Elem>, usize), GrammarFault>
    ensures read { AnswersElements ts.now at result }
    ensures shorter { IfOk result (λ x. (at < x.1) × (x.1 ≤ length ts.now)) }
{
    let mut left = at;
    let mut all = Vec::new(alloc);
    loop {
        if let Some(rest) = ts.behind(left, Sign::CloseBracket) {
            return Ok((all, rest));
        }
        let (next, after_next) = element(alloc, ts, left)?;
        all.push(next)?;
        if let Some(after_comma) = ts.behind(after_next, Sign::Comma) {
            left = after_comma;
        } else if let Some(after_bracket) = ts.behind(after_next, Sign::CloseBracket) {
            return Ok((all, after_bracket));
        } else {
            return Err(GrammarFault::Syntax);
        }
    }
}

#[cycle(descent)]
fn element(alloc: Global, ts: &Tokens<'_>, at: usize) -> Result<(Elem, usize), GrammarFault>
    ensures read { AnswersElement ts.now at result }
    ensures shorter { IfOk result (λ x. (at < x.1) × (x.1 ≤ length ts.now)) }
{
    if let Some(after_dots) = ts.behind(at, Sign::DotDotDot) {
        let (inner, rest) = expression(alloc, ts, after_dots)?;
        return Ok((make::spread_element(inner), rest));
    }
    let (one, rest) = expression(alloc, ts, at)?;
    Ok((make::element(one), rest))
}

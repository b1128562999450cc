//! The tokens of a query, and what stands at an index among them. Each look answers the index
//! behind what it found.
ghost use Rattle.std.specs.Prelude.{◌≡◌, ◌+◌, ◌≤◌, ◌<◌, All, ◌^◌, length, map, IfSome, [], ◌∷◌, MatchOption, Some, IsTrue, IsSome, ◌↔◌};
ghost use Rattle.std.specs.Option.{option_map};
ghost use Rattle.cs_syntax.specs.Expression.{sign_tok};
ghost use Rattle.cs_syntax.specs.Escapes.{decoded};
ghost use Rattle.cs_syntax.specs.Lex.{param_name};
ghost use Rattle.cs_grammar.specs.Answers.{after_key};
ghost use Rattle.cs_grammar.specs.View.{IsNoSign, left, seen as seen_as, sign_in, source, text_of, tok};
ghost use Rattle.cs_grammar.specs.Parsing.{IsLexemeOf, IsReadable};
ghost use Rattle.cs_grammar.specs.Reading.{same_sign, after, after_sign, after_word, after_keyword, after_attribute, after_caret, op_of};
ghost use Rattle.cs_grammar.specs.Spells.{is_keyword, comparison_op, prefix_op, range_of};

use crate::level::Level;
use crate::lexeme::{Form, Lexeme};
use cs_syntax::{BinSign, PreSign, Sign};
use std::marker::Model;

// A token with its source.
#[derive(Clone, Copy, Drop)]
pub enum Seen<'t> {
    Number(&'t str),
    // With its quotes, its escapes not yet read.
    Text(&'t str),
    // Without `$`.
    Param(&'t str),
    Word(&'t str),
    Sign(Sign),
}

// The tokens of a text, fewer than a `u32` counts. Contracts see what they mean.
#[derive(Drop)]
pub struct Tokens<'t> {
    text: &'t str,
    lexemes: &'t [Lexeme],
}

impl<'t> Model for Tokens<'t> {
    ghost use Rattle.std.specs.Prelude.{◌<◌, ◌^◌, All, length, List, map};
    ghost use Rattle.cs_syntax.specs.Expression.{Tok};
    ghost use Rattle.cs_grammar.specs.Parsing.{IsLexemeOf};
    ghost use Rattle.cs_grammar.specs.View.{tok};

    ghost Value = { List Tok };

    ghost view = { λ t. map (tok t.text.now) t.lexemes.now };

    ghost invariant = { λ t.
        (length t.lexemes.now < 2 ^ 32) × All (IsLexemeOf t.text.now) t.lexemes.now };
}

// The token of the text, with its source.
fn source<'t>(text: &'t str, lexeme: &Lexeme) -> &'t str
    requires { IsLexemeOf text.now lexeme.now }
    ensures { result.now ≡ source text.now lexeme.now }
{
    &text[lexeme.from as usize..lexeme.to as usize]
}

// The name of the parameter.
fn name(source: &str) -> &str
    requires { IsSome (param_name source.now) }
    ensures { param_name source.now ≡ Some result.now }
{
    &source[1..]
}

// The token of the text, with its source.
fn look_at<'t>(text: &'t str, lexeme: &Lexeme) -> Seen<'t>
    requires { IsLexemeOf text.now lexeme.now }
    ensures same { seen_as result ≡ tok text.now lexeme.now }
    ensures readable { IsReadable result }
{
    match lexeme.form {
        Form::Number => Seen::Number(source(text, lexeme)),
        Form::Text => Seen::Text(source(text, lexeme)),
        Form::Param => Seen::Param(name(source(text, lexeme))),
        Form::Word => Seen::Word(source(text, lexeme)),
        Form::Sign(sign) => Seen::Sign(sign),
    }
}

fn sign_of(form: Form) -> Option<Sign>
    ensures { result ≡ sign_in form }
{
    match form {
        Form::Sign(sign) => Some(sign),
        _ => None,
    }
}

fn is_same(sign: Sign, other: Sign) -> bool
    ensures { result ≡ same_sign sign other }
{
    sign == other
}

// The operator of the level that the sign is.
fn operator_of(level: Level, sign: Sign) -> Option<BinSign>
    ensures { result ≡ op_of level sign }
{
    match (level, sign) {
        (Level::Or, Sign::OrOr) => Some(BinSign::Or),
        (Level::And, Sign::AndAnd) => Some(BinSign::And),
        (Level::Sum, Sign::Plus) => Some(BinSign::Add),
        (Level::Sum, Sign::Minus) => Some(BinSign::Sub),
        (Level::Product, Sign::Star) => Some(BinSign::Mul),
        (Level::Product, Sign::Slash) => Some(BinSign::Div),
        (Level::Product, Sign::Percent) => Some(BinSign::Rem),
        _ => None,
    }
}

fn comparison_of(sign: Sign) -> Option<BinSign>
    ensures { result ≡ comparison_op sign }
{
    match sign {
        Sign::EqEq => Some(BinSign::Eq),
        Sign::Ne => Some(BinSign::Ne),
        Sign::Lt => Some(BinSign::Lt),
        Sign::Le => Some(BinSign::Le),
        Sign::Gt => Some(BinSign::Gt),
        Sign::Ge => Some(BinSign::Ge),
        _ => None,
    }
}

fn prefix_of(sign: Sign) -> Option<PreSign>
    ensures { result ≡ prefix_op sign }
{
    match sign {
        Sign::Plus => Some(PreSign::Plus),
        Sign::Not => Some(PreSign::Not),
        _ => None,
    }
}

// Whether the range that the sign makes includes its end.
fn range_of(sign: Sign) -> Option<bool>
    ensures { result ≡ range_of sign }
{
    match sign {
        Sign::DotDot => Some(true),
        Sign::DotDotDot => Some(false),
        _ => None,
    }
}

fn is_operator_word(word: &str) -> bool
    ensures { result ≡ is_keyword word.now }
{
    word == "in" || word == "match" || word == "asc" || word == "desc"
}

impl<'t> Tokens<'t> {
    pub fn of(text: &'t str, lexemes: &'t [Lexeme]) -> Tokens<'t>
        requires count { length lexemes.now < 2 ^ 32 }
        requires of_text { All (IsLexemeOf text.now) lexemes.now }
        ensures { result ≡ map (tok text.now) lexemes.now }
    {
        Tokens { text, lexemes }
    }

    // How many tokens there are.
    pub fn len(&self) -> usize
        ensures { result ≡ length self.now }
    {
        self.lexemes.len()
    }

    #[tactic(auto, using(crate::proofs::Looks::left_at), unfolding(crate::specs::View::left))]
    pub fn token(&self, at: usize) -> Option<(Seen<'t>, usize)>
        ensures first { MatchOption result (left self.now at ≡ [])
            (λ x. left self.now at ≡ seen_as x.0 ∷ left self.now x.1) }
        ensures next { IfSome result (λ x. (x.1 ≡ at + 1) × (x.1 ≤ length self.now)
            × (x.1 < 2 ^ 32)) }
        ensures readable { IfSome result (λ x. IsReadable x.0) }
    {
        let lexeme = self.lexemes.get(at)?;
        Some((look_at(self.text, lexeme), at + 1))
    }

    // The sign that stands there: its source is not looked at.
    #[tactic(auto, using(crate::proofs::Sets::sign), unfolding(crate::specs::View::left))]
    fn sign(&self, at: usize) -> Option<(Sign, usize)>
        ensures first { MatchOption result (IsNoSign (left self.now at))
            (λ x. left self.now at ≡ sign_tok x.0 ∷ left self.now x.1) }
        ensures next { IfSome result (λ x. (x.1 ≡ at + 1) × (x.1 ≤ length self.now)
            × (x.1 < 2 ^ 32)) }
    {
        let lexeme = self.lexemes.get(at)?;
        let sign = sign_of(lexeme.form)?;
        Some((sign, at + 1))
    }

    #[tactic(auto, using(crate::proofs::Looks::no_sign_after))]
    pub fn behind(&self, at: usize, sign: Sign) -> Option<usize>
        ensures same { option_map (λ i. left self.now i) result ≡ after sign (left self.now at) }
        ensures next { IfSome result (λ i. (i ≡ at + 1) × (i ≤ length self.now) × (i < 2 ^ 32)) }
    {
        let (other, rest) = self.sign(at)?;
        if is_same(sign, other) {
            Some(rest)
        } else {
            None
        }
    }

    pub fn stands(&self, at: usize, sign: Sign) -> bool
        ensures { IsTrue result ↔ IsSome (after sign (left self.now at)) }
    {
        self.behind(at, sign).is_some()
    }

    pub fn behind_keyword(&self, at: usize, keyword: &str) -> Option<usize>
        ensures same { option_map (λ i. left self.now i) result
            ≡ after_keyword keyword.now (left self.now at) }
        ensures next { IfSome result (λ i. (i ≡ at + 1) × (i ≤ length self.now)) }
    {
        match self.token(at)? {
            (Seen::Word(word), rest) => { if word == keyword { Some(rest) } else { None } }
            _ => None,
        }
    }

    // Behind `.` and `^`.
    pub fn behind_caret(&self, at: usize) -> Option<usize>
        ensures same { option_map (λ i. left self.now i) result ≡ after_caret (left self.now at) }
        ensures next { IfSome result (λ i. (i ≡ at + 2) × (i ≤ length self.now) × (i < 2 ^ 32)) }
    {
        self.behind(self.behind(at, Sign::Dot)?, Sign::Caret)
    }

    pub fn word(&self, at: usize) -> Option<(&'t str, usize)>
        ensures same { option_map (λ x. (x.0.now, left self.now x.1)) result
            ≡ after_word (left self.now at) }
        ensures next { IfSome result (λ x. (x.1 ≡ at + 1) × (x.1 ≤ length self.now)) }
    {
        match self.token(at)? {
            (Seen::Word(word), rest) => Some((word, rest)),
            _ => None,
        }
    }

    // The source of the text that is a key, since a colon stands behind it.
    #[tactic(auto, using(crate::proofs::Sets::key), unfolding(crate::specs::View::left))]
    pub fn key(&self, at: usize) -> Option<(&'t str, usize)>
        ensures same { option_map (λ x. (text_of x.0.now, left self.now x.1)) result
            ≡ after_key (left self.now at) }
        ensures next { IfSome result (λ x. (x.1 ≡ at + 2) × (x.1 ≤ length self.now)) }
        ensures readable { IfSome result (λ x. IsSome (decoded x.0.now)) }
    {
        let lexeme = self.lexemes.get(at)?;
        let after_colon = self.behind(at + 1, Sign::Colon)?;
        match look_at(self.text, lexeme) {
            Seen::Text(source) => Some((source, after_colon)),
            _ => None,
        }
    }

    // The word that is an attribute behind `->`.
    pub fn attribute(&self, at: usize) -> Option<(&'t str, usize)>
        ensures same { option_map (λ x. (x.0.now, left self.now x.1)) result
            ≡ after_attribute (left self.now at) }
        ensures next { IfSome result (λ x. (x.1 ≡ at + 1) × (x.1 ≤ length self.now)) }
    {
        match self.token(at)? {
            (Seen::Word(word), rest) => {
                if is_operator_word(word) {
                    None
                } else {
                    Some((word, rest))
                }
            }
            _ => None,
        }
    }

    // The operator of the level.
    #[tactic(auto, using(crate::proofs::Looks::no_sign_after_sign))]
    pub fn operator(&self, at: usize, level: Level) -> Option<(BinSign, usize)>
        ensures same { option_map (λ x. (x.0, left self.now x.1)) result
            ≡ after_sign (op_of level) (left self.now at) }
        ensures next { IfSome result (λ x. (x.1 ≡ at + 1) × (x.1 ≤ length self.now)) }
    {
        let (sign, rest) = self.sign(at)?;
        Some((operator_of(level, sign)?, rest))
    }

    #[tactic(auto, using(crate::proofs::Looks::no_sign_after_sign))]
    pub fn comparison_sign(&self, at: usize) -> Option<(BinSign, usize)>
        ensures same { option_map (λ x. (x.0, left self.now x.1)) result
            ≡ after_sign comparison_op (left self.now at) }
        ensures next { IfSome result (λ x. (x.1 ≡ at + 1) × (x.1 ≤ length self.now)) }
    {
        let (sign, rest) = self.sign(at)?;
        Some((comparison_of(sign)?, rest))
    }

    #[tactic(auto, using(crate::proofs::Looks::no_sign_after_sign))]
    pub fn prefix_sign(&self, at: usize) -> Option<(PreSign, usize)>
        ensures same { option_map (λ x. (x.0, left self.now x.1)) result
            ≡ after_sign prefix_op (left self.now at) }
        ensures next { IfSome result (λ x. (x.1 ≡ at + 1) × (x.1 ≤ length self.now)) }
    {
        let (sign, rest) = self.sign(at)?;
        Some((prefix_of(sign)?, rest))
    }

    // The dots of a range: whether it includes its end.
    #[tactic(auto, using(crate::proofs::Looks::no_sign_after_sign))]
    pub fn dots(&self, at: usize) -> Option<(bool, usize)>
        ensures same { option_map (λ x. (x.0, left self.now x.1)) result
            ≡ after_sign range_of (left self.now at) }
        ensures next { IfSome result (λ x. (x.1 ≡ at + 1) × (x.1 ≤ length self.now)) }
    {
        let (sign, rest) = self.sign(at)?;
        Some((range_of(sign)?, rest))
    }
}

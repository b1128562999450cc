//! The tokens of a text as the grammar reads them.
ghost use Rattle.std.specs.Prelude.{◌≡◌, ◌<◌, ◌^◌, All, IfErr, IfOk, IfSome, Some, length, vec_len};
ghost use Rattle.cs_grammar.specs.Parsing.{IsLexemeOf, IsSource};
ghost use Rattle.cs_grammar.specs.View.{formed, tok};
ghost use Rattle.cs_syntax.specs.Lex.{IsTokenOf, meaning, source};
ghost use Rattle.cs_parse.specs.Counted.{AreLexemesOf};
ghost use Rattle.cs_parse.specs.Verdict.{IsRead, reading_of};

use crate::depth::Depth;
use crate::fault::ParseFault;
use cs_grammar::{Form, Lexeme};
use cs_syntax::{Kind, Sign, Token, next_token};
use std::alloc::Global;

// The tokens are gathered where there is room for so many at first, unless the text has fewer
// bytes: most queries have no more, and then they are not moved.
const ROOM: usize = 64;

// What the token is, its sign read.
fn form(text: &str, token: &Token) -> Form
    requires { IsTokenOf text.now token.now }
    ensures meaning { meaning token.now.kind (source text.now token.now)
        ≡ Some (formed result (source text.now token.now)) }
    ensures is_source { IsSource result (source text.now token.now) }
{
    match token.kind {
        Kind::Word => Form::Word,
        Kind::Number => Form::Number,
        Kind::Text => Form::Text,
        Kind::Param => Form::Param,
        Kind::Sign => {
            let Some(sign) = Sign::of(token.source(text)) else {
                unreachable!()
            };
            Form::Sign(sign)
        }
    }
}

fn lexeme(text: &str, token: &Token) -> Lexeme
    requires { IsTokenOf text.now token.now }
    ensures meaning { meaning token.now.kind (source text.now token.now)
        ≡ Some (tok text.now result) }
    ensures of_text { IsLexemeOf text.now result }
{
    Lexeme {
        form: form(text, token),
        from: token.from,
        to: token.to,
    }
}

/// The tokens of the text as the grammar reads them, with their brackets counted as they are found.
/// `BadToken` where a place begins no token, and `TooDeep` where more than 48 brackets are open at
/// once.
pub fn lexemes(alloc: Global, text: &str) -> Result<Vec<Lexeme>, ParseFault>
    requires { length text.now < 2 ^ 32 }
    ensures lexemes { IfOk result (λ ls. AreLexemesOf text.now ls.items) }
    ensures fault { IfErr result (λ f. IfSome (reading_of f) (IsRead text.now)) }
    ensures of_text { IfOk result (λ ls. All (IsLexemeOf text.now) ls.items) }
    ensures count { IfOk result (λ ls. vec_len ls < 2 ^ 32) }
{
    let mut lexemes = Vec::with_capacity(alloc, text.len().min(ROOM))?;
    let mut depth = Depth::new();
    let mut end = 0;
    while let Some(token) = next_token(text, end)? {
        let lexeme = lexeme(text, &token);
        depth.count(&lexeme);
        lexemes.push(lexeme)?;
        end = token.to as usize;
    }
    if depth.is_exceeded() {
        return Err(ParseFault::TooDeep);
    }
    Ok(lexemes)
}

//! The tokens of a text.
ghost use Rattle.std.specs.Prelude.{◌≡◌, ◌^◌, ◌<◌, ◌≤◌, All, IfErr, IfOk, IfSome, Some, length, option_and_then, vec_len};
ghost use Rattle.cs_syntax.specs.declared.token.Kind.TheVariants as kind;
ghost use Rattle.cs_syntax.specs.Expression.{param_tok};
ghost use Rattle.cs_syntax.specs.Lex.{Ascend, IsFaultOf, IsNext, IsTokenOf, IsTokens, meaning, sign_in, source};

use crate::blank::past_blank;
use crate::longest::{kind_of, token_end};
use crate::sign::Sign;
use std::alloc::{AllocFailed, Global};

/// The kinds of tokens.
#[derive(Clone, Copy, Debug, Drop, PartialEq, Eq)]
pub enum Kind {
    /// A letter or `_`, then letters, digits and `_`.
    Word,
    /// A number as it is written.
    Number,
    /// A text between two `"` or two `'`.
    Text,
    /// `$` and a word.
    Param,
    /// A sign.
    Sign,
}

/// A token of a text: its bytes are those from `from` up to but without `to`.
#[derive(Clone, Copy, Debug, Drop, PartialEq, Eq)]
pub struct Token {
    /// What it is.
    pub kind: Kind,
    /// The place of its first byte.
    pub from: u32,
    /// The place behind its last byte.
    pub to: u32,
}

/// Why a text has no tokens.
#[derive(Clone, Copy, Debug, Drop, PartialEq, Eq)]
pub enum TokenFault {
    /// No token begins at this place, and the text has not ended.
    BadToken {
        /// The place, in bytes.
        at: u32,
    },
    /// The allocator had no memory to give.
    NoMemory,
}

impl<T: Drop> From<AllocFailed<T>> for TokenFault {
    ghost use Rattle.std.specs.Prelude.{◌≡◌};
    ghost use Rattle.cs_syntax.specs.declared.token.TokenFault.TheVariants.{NoMemory};

    ghost from_gives = { λ _ e. e ≡ NoMemory };

    fn from(_refused: AllocFailed<T>) -> TokenFault {
        TokenFault::NoMemory
    }
}

impl Token {
    /// The token's slice of its text.
    pub fn source<'t>(&self, text: &'t str) -> &'t str
        requires { IsTokenOf text.now self.now }
        ensures { result.now ≡ source text.now self.now }
    {
        &text[self.from as usize..self.to as usize]
    }

    /// The name of a parameter, without its `$`.
    pub fn name<'t>(&self, text: &'t str) -> &'t str
        requires token { IsTokenOf text.now self.now }
        requires param { self.now.kind ≡ kind.Param }
        ensures { meaning self.now.kind (source text.now self.now) ≡ Some (param_tok result.now) }
    {
        let source = self.source(text);
        &source[1..]
    }

    /// The sign that the token is: `None` exactly where it is of another kind.
    #[tactic(auto, using(crate::proofs::Sets::sign))]
    pub fn sign(&self, text: &str) -> Option<Sign>
        requires { IsTokenOf text.now self.now }
        ensures { result
            ≡ option_and_then sign_in (meaning self.now.kind (source text.now self.now)) }
    {
        match self.kind {
            Kind::Sign => Sign::of(self.source(text)),
            _ => None,
        }
    }
}

/// The next token of the text from `at` on: the longest that begins at the first place that is not
/// between tokens. `None` where the text ends there, and `BadToken` where no token begins there.
pub fn next_token(text: &str, at: usize) -> Result<Option<Token>, TokenFault>
    requires size { length text.now < 2 ^ 32 }
    requires inside { at ≤ length text.now }
    ensures next { IsNext text.now at result }
    ensures token { IfOk result (λ next. IfSome next (IsTokenOf text.now)) }
    ensures place { IfOk result (λ next. IfSome next (λ t.
        (at < t.to) × (t.to ≤ length text.now))) }
{
    let bytes = text.as_bytes();
    let from = past_blank(bytes, at);
    if from == bytes.len() {
        return Ok(None);
    }
    let kind = kind_of(bytes[from]);
    let Some(to) = token_end(bytes, from, kind) else {
        return Err(TokenFault::BadToken { at: from as u32 });
    };
    Ok(Some(Token {
        kind,
        from: from as u32,
        to: to as u32,
    }))
}

/// The tokens of the text, from left to right: each is the longest that begins at its place.
/// `BadToken` exactly where a place, behind the tokens and what stands between tokens, begins no
/// token and is not the end of the text; `NoMemory` where the allocator has no room for them.
pub fn tokens(alloc: Global, text: &str) -> Result<Vec<Token>, TokenFault>
    requires { length text.now < 2 ^ 32 }
    ensures tokens { IfOk result (λ ts. IsTokens text.now 0 ts.items) }
    ensures fault { IfErr result (IsFaultOf text.now) }
    ensures each { IfOk result (λ ts. All (IsTokenOf text.now) ts.items) }
    ensures ascend { IfOk result (λ ts. Ascend ts.items) }
    ensures count { IfOk result (λ ts. vec_len ts < 2 ^ 32) }
{
    let mut found = Vec::new(alloc);
    let mut end = 0;
    while let Some(token) = next_token(text, end)? {
        end = token.to as usize;
        found.push(token)?;
    }
    Ok(found)
}

//! How deep the brackets of a text nest.
ghost use Rattle.std.specs.Prelude.{◌≡◌, ◌↔◌, ◌^◌, ◌++◌, ◌∷◌, [], ℕ, List, IsTrue};
ghost use Rattle.cs_grammar.specs.View.{tok};
ghost use Rattle.cs_syntax.specs.Expression.{Tok};
ghost use Rattle.cs_parse.specs.Counted.{FewerThan, IsDepthOf};
ghost use Rattle.cs_parse.specs.Depth.{IsTooDeep, is_sign_that, opens, closes};

use cs_grammar::{Form, Lexeme};
use cs_syntax::Sign;

// How many brackets may be open at once.
const DEEPEST: usize = 48;

fn is_opening(token: &Lexeme) -> bool
    ensures { (text : List ℕ) → result ≡ is_sign_that opens (tok text token.now) }
{
    matches!(
        token.form,
        Form::Sign(Sign::OpenParen | Sign::OpenBracket | Sign::OpenBrace)
    )
}

fn is_closing(token: &Lexeme) -> bool
    ensures { (text : List ℕ) → result ≡ is_sign_that closes (tok text token.now) }
{
    matches!(
        token.form,
        Form::Sign(Sign::CloseParen | Sign::CloseBracket | Sign::CloseBrace)
    )
}

/// The brackets of the tokens that were counted. Those of all three kinds count together, and one
/// that closes none counts against those that open later.
#[derive(Drop)]
pub struct Depth {
    opened: usize,
    closed: usize,
    exceeded: bool,
}

impl Depth {
    /// No token is counted yet.
    pub fn new() -> Depth
        ensures { IsDepthOf [] result }
    {
        Depth {
            opened: 0,
            closed: 0,
            exceeded: false,
        }
    }

    /// One token more. The sign says it alone, so the text is not looked at.
    pub fn count(&mut self, token: &Lexeme)
        requires { FewerThan (2 ^ 32) self.old }
        ensures { (text : List ℕ) (ts : List Tok) → IsDepthOf ts self.old →
            IsDepthOf (ts ++ (tok text token.now ∷ [])) self.new }
    {
        self.opened += usize::from(is_opening(token));
        self.closed += usize::from(is_closing(token));
        if self.opened > self.closed + DEEPEST {
            self.exceeded = true;
        }
    }

    /// Whether at some token more than 48 of the brackets before it and at it are open.
    pub fn is_exceeded(&self) -> bool
        ensures { (ts : List Tok) → IsDepthOf ts self.now → IsTrue result ↔ IsTooDeep ts }
    {
        self.exceeded
    }
}

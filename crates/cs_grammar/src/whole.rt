//! The expression of a whole text.
ghost use Rattle.std.specs.Prelude.{◌<◌, ◌^◌, All, length, map};
ghost use Rattle.cs_grammar.specs.Parsing.{IsLexemeOf, Parses};
ghost use Rattle.cs_grammar.specs.View.{tok};

use crate::fault::GrammarFault;
use crate::lexeme::Lexeme;
use crate::look::Tokens;
use crate::operators::expression;
use cs_syntax::Expr;
use std::alloc::Global;

/// The expression that the tokens of the text spell, all of them (GROQ-1.revision1 "Expressions",
/// as this project's profile has it). `Syntax` exactly where they spell none, and `NoMemory` where
/// the allocator has no room for the tree.
pub fn read(alloc: Global, text: &str, lexemes: &[Lexeme]) -> Result<Box<Expr>, GrammarFault>
    requires count { length lexemes.now < 2 ^ 32 }
    requires of_text { All (IsLexemeOf text.now) lexemes.now }
    ensures { Parses (map (tok text.now) lexemes.now) result }
{
    let tokens = Tokens::of(text, lexemes);
    let (tree, at) = expression(alloc, &tokens, 0)?;
    if at < tokens.len() {
        return Err(GrammarFault::Syntax);
    }
    Ok(tree)
}

//! What the grammar has as a whole. The function does nothing: it is there for its clause, which
//! holds for all tokens.
ghost use Rattle.std.specs.Prelude.{◌≡◌, List};
ghost use Rattle.cs_syntax.specs.Expression.{Tok, Expression};
ghost use Rattle.cs_grammar.specs.Spells.{Spells};

/// Tokens spell at most one expression: the grammar is unambiguous.
pub fn one_expression()
    ensures { (ts : List Tok) (t u : Expression) → Spells ts t → Spells ts u → t ≡ u }
{}

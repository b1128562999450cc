//! What the readings of all texts have in common. The functions do nothing: each is there for its
//! clause, which holds for all texts.
ghost use Rattle.std.specs.Prelude.{◌≡◌, ◌↔◌, ℕ, List, IsTrue};
ghost use Rattle.cs_syntax.specs.Expression.{Tok};
ghost use Rattle.cs_parse.specs.Depth.{IsTooDeep, is_deep};
ghost use Rattle.cs_parse.specs.Spelling.{IsSpelling, expression_in};
ghost use Rattle.cs_parse.specs.Tokens.{IsLexing, lexing};
ghost use Rattle.cs_parse.specs.Verdict.{IsRead, Reading, verdict};

use cs_grammar::one_expression;
use cs_syntax::a_text_is_read_in_one_way;

/// A text has the tokens that `lexing` finds, or no token begins where it stops.
pub fn tokens_are_read()
    ensures { (text : List ℕ) → IsLexing text 0 (lexing text) }
{}

/// `is_deep` says whether the brackets among tokens are too deep.
pub fn depth_is_decided()
    ensures { (ts : List Tok) → IsTrue (is_deep ts) ↔ IsTooDeep ts }
{}

/// Tokens spell the expression that `expression_in` finds, or none where it finds none.
pub fn spelling_is_decided()
    ensures { (ts : List Tok) → IsSpelling ts (expression_in ts) }
{}

/// A text is read in one way at most: as one query, or with one cause.
pub fn a_text_is_one_query_at_most()
    ensures { (text : List ℕ) (r s : Reading) → IsRead text r → IsRead text s → r ≡ s }
{
    a_text_is_read_in_one_way();
    one_expression();
}

/// Each text has a reading, the one that its verdict computes.
pub fn each_text_is_read()
    ensures { (text : List ℕ) → IsRead text (verdict text) }
{}

/// A text is read as its verdict says, and in no other way. So each answer of `parse` comes
/// exactly where its text is read so, but for want of memory.
pub fn reading_is_verdict()
    ensures { (text : List ℕ) (r : Reading) → IsRead text r ↔ (verdict text ≡ r) }
{
    a_text_is_one_query_at_most();
}

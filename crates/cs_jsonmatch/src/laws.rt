//! What the readings of all texts have in common. The functions do nothing: each is there for its
//! clause, which holds for all texts.
ghost use Rattle.std.specs.Prelude.{ℕ, List, ◌≡◌, ◌↔◌};
ghost use Rattle.cs_jsonmatch.specs.Path.{Path};
ghost use Rattle.cs_jsonmatch.specs.Grammar.{IsPath};
ghost use Rattle.cs_jsonmatch.specs.Verdict.{PathReading, IsPathRead, path_verdict};

/// A law of the definitions: a text spells at most one path.
pub fn a_text_spells_at_most_one_path()
    ensures { (text : List ℕ) (p q : Path) → IsPath text p → IsPath text q → p ≡ q }
{}

/// A law of the definitions: each text has a reading, the one that its verdict computes.
pub fn each_text_is_read()
    ensures { (text : List ℕ) → IsPathRead text (path_verdict text) }
{}

/// A law of the definitions: a text is read as its verdict says, and in no other way.
pub fn reading_is_verdict()
    ensures { (text : List ℕ) (r : PathReading) → IsPathRead text r ↔ (path_verdict text ≡ r) }
{}

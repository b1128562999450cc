//! The laws of the machine's steps, for proofs: the function does nothing, and its contract is the
//! law.
ghost use Rattle.cs_core.specs.Laws.{SimpleLinesKeepLivesSimple};

/// A line whose queries are refused or simple leaves all live queries simple, where they were.
pub fn simple_lines_keep_lives_simple()
    ensures { SimpleLinesKeepLivesSimple }
{}

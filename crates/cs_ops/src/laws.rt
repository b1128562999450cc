//! What the tables of the operators have in common. The functions do nothing: each is there for its
//! clauses, which hold for all values.
ghost use Rattle.std.specs.Prelude.{◌≡◌, ◌<◌, ◌↔◌, ℕ, List, IsTrue, IsSome, IsUtf8, Some};
ghost use Rattle.std.specs.Cmp.{IsTotalOrder};
ghost use Rattle.std.specs.declared.cmp.Ordering.{Ordering};
ghost use Rattle.std.specs.declared.cmp.Ordering.TheVariants.{Equal};
ghost use Rattle.std.specs.Cmp.Lexicographic.{slice_cmp};
ghost use Rattle.std.specs.Ordering.{nat_cmp};
ghost use Rattle.std.specs.Str.{chars};
ghost use Rattle.cs_value.specs.Tree.{Tree, text};
ghost use Rattle.cs_ops.specs.Equal.{equal, is_scalar};
ghost use Rattle.cs_ops.specs.Order.{partial, rank, total};

/// [`equal`](crate::equal) is symmetric and transitive, and reflexive exactly on scalars.
pub fn equal_is_an_equality()
    ensures symmetric { (a b : Tree) → equal a b ≡ equal b a }
    ensures transitive { (a b c : Tree) → IsTrue (equal a b) → equal a c ≡ equal b c }
    ensures reflexive { (a : Tree) → equal a a ≡ is_scalar a }
{}

/// [`partial`](crate::partial) is there exactly on pairs of one scalar kind, and agrees with
/// [`equal`](crate::equal) there.
pub fn partial_compares_each_kind()
    ensures exists { (a b : Tree) → IsSome (partial a b) ↔ ((rank a ≡ rank b) × (rank a < 3)) }
    ensures equal { (a b : Tree) → partial a b ≡ Some Equal → IsTrue (equal a b) }
{}

/// [`total`](crate::total) is a total preorder, and orders what [`partial`](crate::partial)
/// compares as it does.
pub fn total_is_a_preorder()
    ensures preorder { IsTotalOrder total }
    ensures extends { (a b : Tree) (o : Ordering) → partial a b ≡ Some o → total a b ≡ o }
{}

/// Texts are compared by their code points, whether these or the bytes of UTF-8 are gone through.
pub fn texts_compare_by_code_points()
    ensures { (s t : List ℕ) → IsUtf8 s → IsUtf8 t
        → partial (text s) (text t) ≡ Some (slice_cmp nat_cmp (chars s) (chars t)) }
{}

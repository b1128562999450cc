//! Whether two values are the same tree, as a test.
ghost use Rattle.std.specs.Prelude.{◌≡◌};
ghost use Rattle.cs_value.specs.Same.{same_tree};
ghost use Rattle.cs_value.specs.View.{tree};

use cs_value::Val;

/// Whether the two are the same tree.
pub(crate) fn is_same(one: &Val, other: &Val) -> bool
    ensures { result ≡ same_tree (tree one.now) (tree other.now) }
{
    one.same(other)
}

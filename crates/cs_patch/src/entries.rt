//! The paths of a patch, read once for all documents.
ghost use Rattle.std.specs.Prelude.{◌≡◌, Some, option_map, IfSome, true};
ghost use Rattle.std.proofs.Props.{props};
ghost use Rattle.cs_value.specs.Same.{same_tree};
ghost use Rattle.cs_value.specs.Tree.{Tree};
ghost use Rattle.cs_value.specs.View.{list_tree};
ghost use Rattle.cs_jsonmatch.specs.Places.{places};
ghost use Rattle.cs_jsonmatch.specs.Verdict.{path_verdict};
ghost use Rattle.cs_jsonmatch.specs.View.{path as path_of};
ghost use Rattle.cs_alter.specs.Alterations.{altered, side as side_of};
ghost use Rattle.cs_patch.specs.Readings.{lists_at, places_at, put_by, starts_at};

use cs_alter::{Alteration, Side};
use cs_jsonmatch::JsonPath;
use cs_value::{Txt, Val};

// A value that is set: the path before the names that its path ends with, and these names.
#[derive(Drop)]
pub(crate) struct ValueAt<'p> {
    pub text: &'p str,
    pub prefix: JsonPath,
    pub names: Vec<Txt>,
    pub new: &'p Val,
    pub ghost is_read: { (v : Tree) → starts_at (path_verdict text.now) v
        ≡ Some (places (path_of prefix) v, names.items) } by { Prim.hlevel props },
}

// The path of what is taken away.
#[derive(Drop)]
pub(crate) struct RemovalAt<'p> {
    pub text: &'p str,
    pub path: JsonPath,
    pub ghost is_read: { (v : Tree) → places_at (path_verdict text.now) v
        ≡ Some (places (path_of path) v) } by { Prim.hlevel props },
}

// A number that is added or taken away.
#[derive(Drop)]
pub(crate) struct NumberAt<'p> {
    pub text: &'p str,
    pub path: JsonPath,
    pub number: i64,
    pub ghost is_read: { (v : Tree) → places_at (path_verdict text.now) v
        ≡ Some (places (path_of path) v) } by { Prim.hlevel props },
}

// The lists that something is put into: the path to them, and what is done at each.
#[derive(Drop)]
pub(crate) struct Lists {
    pub parents: JsonPath,
    pub alteration: Alteration,
}

// What is put into lists, and the lists; `None` where the path has no step, or a last one with a
// name or `..`, by which nothing can be put.
#[derive(Drop)]
pub(crate) struct InsertAt<'p> {
    pub text: &'p str,
    pub side: Side,
    pub items: &'p Vec<Val>,
    pub lists: Option<Lists>,
    pub ghost is_read: { (v : Tree) → lists_at (path_verdict text.now) v
        ≡ Some (option_map (λ w. places (path_of w.parents) v) lists) } by { Prim.hlevel props },
    pub ghost is_put: { (t : Tree) → IfSome lists (λ w. same_tree (altered w.alteration t)
        (put_by (side_of side) (list_tree items.now.items) (path_verdict text.now) t)
        ≡ true) } by { Prim.hlevel props },
}

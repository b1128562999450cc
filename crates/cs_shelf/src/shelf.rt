//! Documents at places.
ghost use Rattle.std.proofs.Props.{props};
ghost use Rattle.std.specs.BTreeMap.{IsOrdered};
ghost use Rattle.cs_view.specs.Dataset.{id_cmp};
ghost use Rattle.cs_shelf.specs.Hinted.{AreHinted};
ghost use Rattle.cs_shelf.specs.Places.{IsSound, IsEntered, AreLow};

use crate::hints::Hints;
use cs_value::Txt;
use cs_view::Doc;
use slab::Slab;
use std::alloc::Global;
use std::collections::BTreeMap;

/// The places of a shelf are below this number.
pub const MOST_PLACES: u32 = 2_147_483_648;

/// Documents of distinct ids, each at a place that it keeps while it stands, and the place of each
/// id. Contracts see it as the dataset of its documents, and as what stands at each place.
#[derive(Drop)]
pub struct Shelf {
    pub(crate) store: Slab<Doc>,
    pub(crate) order: BTreeMap<Txt, u32>,
    pub(crate) hints: Hints,
    pub(crate) alloc: Global,
    pub ghost sound: { IsSound store order },
    pub ghost entered: { IsEntered store order },
    pub ghost low: { AreLow order },
    pub ghost hinted: { AreHinted order hints.slots.items },
    pub ghost ordered: { IsOrdered id_cmp order } by { Prim.hlevel props },
}

//! The items that a patch inserts.
ghost use Rattle.std.specs.Prelude.{◌≡◌, codes, false, bytes_eq, option_map};
ghost use Rattle.cs_value.specs.Pairs.{without};
ghost use Rattle.cs_value.specs.View.{fields};
ghost use Rattle.cs_alter.specs.Alterations.{side as side_of};
ghost use Rattle.cs_patch.specs.View.{insertion};
ghost use Rattle.cs_body.specs.Body.{inserted_at, insertion_of, insertion_in};
ghost use Rattle.cs_body.specs.Taken.{IsPart};

use crate::parts::take_list;
use crate::txn::TxnFault;
use cs_patch::{Insert, Side};
use cs_value::{Fields, Val};
use cs_wire::{has_keys, take_text};

fn inserted_at(side: Side, mut object: Fields, key: &str) -> Option<Insert>
    requires { bytes_eq (codes "items") key.now ≡ false }
    ensures { option_map insertion result ≡ inserted_at (side_of side) key.now (fields object) }
{
    let path = take_text(&mut object, key)?;
    let items = take_list(&mut object, "items")?;
    Some(Insert { side, path, items })
}

fn insertion(object: Fields) -> Option<Insert>
    ensures { option_map insertion result ≡ insertion_of (fields object) }
{
    if has_keys(&object, &["items", "before"], &[]) {
        return inserted_at(Side::Before, object, "before");
    }
    if has_keys(&object, &["items", "after"], &[]) {
        return inserted_at(Side::After, object, "after");
    }
    if has_keys(&object, &["items", "replace"], &[]) {
        return inserted_at(Side::Replace, object, "replace");
    }
    None
}

// What stands under `insert`, which need not be there.
pub(crate) fn take_insert(object: &mut Fields) -> Result<Option<Insert>, TxnFault>
    ensures taken { IsPart (option_map insertion) result (insertion_in (fields object.old)) }
    ensures left { fields object.new ≡ without (codes "insert") (fields object.old) }
{
    match object.take("insert") {
        None => Ok(None),
        Some(Val::Obj(given)) => match insertion(given) {
            Some(insert) => Ok(Some(insert)),
            None => Err(TxnFault::BadCommand),
        },
        Some(_) => Err(TxnFault::BadCommand),
    }
}

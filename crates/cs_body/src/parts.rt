//! The typed parts of a body's objects, each moved out of its object. `BadCommand` comes exactly
//! where what stands under the key is no such part, and so does `None`.
ghost use Rattle.std.specs.Prelude.{◌≡◌, option_map, option_and_then, IfOk};
ghost use Rattle.cs_value.specs.Tree.{attributes};
ghost use Rattle.cs_value.specs.Pairs.{find, without};
ghost use Rattle.cs_value.specs.Words.{as_text, as_list};
ghost use Rattle.cs_value.specs.View.{fields, list_tree};
ghost use Rattle.cs_patch.specs.View.{are_numbers, AreNumbers, numbers};
ghost use Rattle.cs_body.specs.Body.{all_read, values_in, numbers_in, texts_in, text_or_none};
ghost use Rattle.cs_body.specs.Taken.{IsPart};

use crate::txn::TxnFault;
use cs_value::{Fields, Txt, Val};
use std::alloc::Global;

// A list, whose key must be there.
pub(crate) fn take_list(object: &mut Fields, key: &str) -> Option<Vec<Val>>
    ensures taken { option_map (λ v. list_tree v.items) result
        ≡ option_and_then as_list (find key.now (fields object.old)) }
    ensures left { fields object.new ≡ without key.now (fields object.old) }
{
    match object.take(key) {
        Some(Val::List(members)) => Some(members),
        _ => None,
    }
}

// A text that need not be there.
pub(crate) fn take_text_or_none(object: &mut Fields, key: &str) -> Result<Option<Txt>, TxnFault>
    ensures taken { IsPart (λ text. text) result (text_or_none key.now (fields object.old)) }
    ensures left { fields object.new ≡ without key.now (fields object.old) }
{
    match object.take(key) {
        None => Ok(None),
        Some(Val::Text(text)) => Ok(Some(text)),
        Some(_) => Err(TxnFault::BadCommand),
    }
}

// Values by path, none where the key is absent.
pub(crate) fn take_values(alloc: Global, object: &mut Fields, key: &str) -> Result<Fields, TxnFault>
    ensures taken { IsPart (λ f. attributes (fields f)) result
        (values_in key.now (fields object.old)) }
    ensures left { fields object.new ≡ without key.now (fields object.old) }
{
    match object.take(key) {
        None => Ok(Fields::new(alloc)),
        Some(Val::Obj(values)) => Ok(values),
        Some(_) => Err(TxnFault::BadCommand),
    }
}

fn are_numbers(values: &Fields) -> bool
    ensures { result ≡ are_numbers (fields values.now) }
{
    for (_, val) in values.pairs.iter() {
        let Val::Num(_) = val else {
            return false;
        };
    }
    true
}

// Whole numbers by path, none where the key is absent.
pub(crate) fn take_numbers(
    alloc: Global,
    object: &mut Fields,
    key: &str,
) -> Result<Fields, TxnFault>
    ensures taken { IsPart (λ f. numbers (fields f)) result
        (numbers_in key.now (fields object.old)) }
    ensures numbers { IfOk result (λ f. AreNumbers (fields f)) }
    ensures left { fields object.new ≡ without key.now (fields object.old) }
{
    let values = take_values(alloc, object, key)?;
    if are_numbers(&values) {
        Ok(values)
    } else {
        Err(TxnFault::BadCommand)
    }
}

fn texts(alloc: Global, members: Vec<Val>) -> Result<Vec<Txt>, TxnFault>
    ensures { IsPart (λ v. v.items) result (all_read as_text (list_tree members.items)) }
{
    let Ok(mut texts) = Vec::with_capacity(alloc, members.len()) else {
        return Err(TxnFault::NoMemory);
    };
    for member in members {
        let Val::Text(text) = member else {
            return Err(TxnFault::BadCommand);
        };
        if texts.push(text).is_err() {
            return Err(TxnFault::NoMemory);
        }
    }
    Ok(texts)
}

// A list of texts, none where the key is absent.
pub(crate) fn take_texts(
    alloc: Global,
    object: &mut Fields,
    key: &str,
) -> Result<Vec<Txt>, TxnFault>
    ensures taken { IsPart (λ v. v.items) result (texts_in key.now (fields object.old)) }
    ensures left { fields object.new ≡ without key.now (fields object.old) }
{
    match object.take(key) {
        None => Ok(Vec::new(alloc)),
        Some(Val::List(members)) => texts(alloc, members),
        Some(_) => Err(TxnFault::BadCommand),
    }
}

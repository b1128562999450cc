//! Keys and scalars that borrow their texts from the filter, the scope and the parameters.
ghost use Rattle.std.specs.Prelude.{◌≡◌, IfOk};
ghost use Rattle.cs_plan.specs.Lent.{key_lent, scalar_lent};

use crate::paths::LentNames;
use cs_value::{NoMemory, Txt};
use cs_view::{Key, Scalar};
use std::alloc::Global;

/// A [`Scalar`] whose text is borrowed.
#[derive(Clone, Copy)]
pub(crate) enum LentScalar<'f> {
    Bool(bool),
    Num(i64),
    Text(&'f str),
}

impl<'f> LentScalar<'f> {
    /// The scalar with a text of its own.
    pub(crate) fn copied(self, alloc: Global) -> Result<Scalar, NoMemory>
        ensures { IfOk result (λ s. s ≡ scalar_lent self.entry) }
    {
        match self {
            LentScalar::Bool(b) => Ok(Scalar::Bool(b)),
            LentScalar::Num(n) => Ok(Scalar::Num(n)),
            LentScalar::Text(text) => Ok(Scalar::Text(Txt::copy_of(alloc, text)?)),
        }
    }
}

/// A [`Key`] whose texts and names are borrowed.
#[derive(Drop)]
pub(crate) enum LentKey<'f> {
    Id(&'f str),
    Path(LentNames<'f>, LentScalar<'f>),
    Elem(LentNames<'f>, LentScalar<'f>),
    Ref(&'f str),
}

impl<'f> LentKey<'f> {
    /// The key with texts of its own.
    pub(crate) fn copied(self, alloc: Global) -> Result<Key, NoMemory>
        ensures { IfOk result (λ k. k ≡ key_lent self.entry) }
    {
        match self {
            LentKey::Id(id) => Ok(Key::Id(Txt::copy_of(alloc, id)?)),
            LentKey::Ref(target) => Ok(Key::Ref(Txt::copy_of(alloc, target)?)),
            LentKey::Path(names, scalar) => {
                Ok(Key::Path(names.copied(alloc)?, scalar.copied(alloc)?))
            }
            LentKey::Elem(names, scalar) => {
                Ok(Key::Elem(names.copied(alloc)?, scalar.copied(alloc)?))
            }
        }
    }
}

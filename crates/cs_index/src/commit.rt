//! Changes put into a store and its index.
ghost use Rattle.std.specs.Prelude.{◌≡◌, OnOk, IfErr};
ghost use Rattle.cs_view.specs.Changes.{after_changes};
ghost use Rattle.cs_docs.specs.Verdict.{AreTaken};
ghost use Rattle.cs_docs.specs.Store.{docs as dataset, prepared as changes_of};
ghost use Rattle.cs_index.specs.Index.{IsIndexOf};
ghost use Rattle.cs_index.specs.declared.commit.InstallFault.TheVariants.{NoMemory as Unchanged, Spent};

use crate::index::Index;
use cs_docs::{Docs, Prepared};

/// Why changes were not installed in a store with its index.
#[derive(Drop)]
pub enum InstallFault {
    /// The allocator had no room, and nothing changed.
    NoMemory,
    /// The allocator had no room once the store had changed: the index must not be used.
    Spent,
}

/// Installs prepared changes in a store, and takes its index along. After `NoMemory` both are as
/// before; after `Spent` the index must not be used.
pub fn install(docs: &mut Docs, index: &mut Index, prepared: &Prepared) -> Result<(), InstallFault>
    requires taken { AreTaken (dataset docs.old) (changes_of prepared.now) }
    requires fits { IsIndexOf index.old docs.old }
    ensures installed { OnOk result
        (dataset docs.new ≡ after_changes (dataset docs.old) (changes_of prepared.now)) }
    ensures fits { OnOk result (IsIndexOf index.new docs.new) }
    ensures changed { IfErr result (λ e. e ≡ Spent
        → dataset docs.new ≡ after_changes (dataset docs.old) (changes_of prepared.now)) }
    ensures kept { IfErr result (λ e. e ≡ Unchanged → dataset docs.new ≡ dataset docs.old) }
    ensures fits_still { IfErr result (λ e. e ≡ Unchanged → IsIndexOf index.new docs.new) }
{
    let Ok(delta) = index.delta(docs, prepared.changes()) else {
        return Err(InstallFault::NoMemory);
    };
    match docs.install(prepared) {
        Ok(()) => {}
        Err(_) => return Err(InstallFault::NoMemory),
    }
    match index.apply(docs, delta, prepared.changes()) {
        Ok(()) => Ok(()),
        Err(_) => Err(InstallFault::Spent),
    }
}

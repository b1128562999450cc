//! What the codes of a run depend on.
ghost use Rattle.std.specs.Prelude.{◌≡◌};
ghost use Rattle.cs_codes.specs.Codes.{seed_of};

use std::hash::{BuildHasher, FoldHasher, Hasher, RandomState};

/// What codes depend on: a hash that has read a secret of the run. The hash is quick and not
/// cryptographic; the secret comes of one that is made against those who choose keys, SipHash.
#[derive(Clone, Copy)]
pub struct Seed {
    pub(crate) begun: FoldHasher,
}

impl Seed {
    /// The seed that comes of the secret keys of a run.
    pub fn new(keys: &RandomState) -> Seed
        ensures { result ≡ seed_of keys.now }
    {
        let mut begun = FoldHasher::default();
        begun.write_u64(keys.build_hasher().finish());
        Seed { begun }
    }
}

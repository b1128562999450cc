//! The laws of codes, for proofs: each function does nothing, and its contract is the law.
ghost use Rattle.cs_codes.specs.Laws.{KeysAreListed, CodedKeysAreListed};

/// A document that has a key which an index keeps has the key's code among its codes.
pub fn keys_are_listed()
    ensures { KeysAreListed }
{}

/// A document that has a key of a kind that has codes has the key's code among those of these
/// kinds.
pub fn coded_keys_are_listed()
    ensures { CodedKeysAreListed }
{}

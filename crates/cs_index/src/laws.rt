//! The laws of entries, for proofs: each function does nothing, and its contract is the law.
ghost use Rattle.cs_index.specs.Laws.{SharedIsUntouched};

/// An entry of a code that both sides of a change have is neither put nor parted with.
pub fn shared_is_untouched()
    ensures { SharedIsUntouched }
{}

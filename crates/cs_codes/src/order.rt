//! Codes in ascending order, in which one is sought.
ghost use Rattle.std.specs.Prelude.{◌≡◌, ℕ};
ghost use Rattle.std.specs.List.Sorted.{IsNonDecreasing};
ghost use Rattle.cs_codes.specs.Codes.{is_among};

/// Sorts codes, so that they can be searched. It takes no memory.
pub fn sort_codes(codes: &mut Vec<u64>)
    ensures among { (x : ℕ) → is_among x codes.new.items ≡ is_among x codes.old.items }
    ensures ascending { IsNonDecreasing codes.new.items }
{
    codes.sort_unstable();
}

/// Whether a code is among codes that ascend.
pub fn has_code(ascending: &[u64], code: u64) -> bool
    requires { IsNonDecreasing ascending.now }
    ensures { result ≡ is_among code ascending.now }
{
    ascending.binary_search(&code).is_ok()
}

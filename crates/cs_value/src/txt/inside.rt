//! Texts that are short enough to lie in what holds them.
ghost use Rattle.std.specs.Prelude.{◌≡◌, ◌≤◌, ◌<◌, length, MatchOption};

use std::marker::Model;
use std::str;

/// UTF-8 text of at most `N` bytes, below 256. Contracts see it as the list of its bytes.
#[derive(Drop)]
pub(crate) struct Short<const N: usize> {
    len: u8,
    bytes: [u8; N],
}

impl<const N: usize> Model for Short<N> {
    ghost use Rattle.std.specs.Prelude.{◌≡◌, ◌≤◌, ℕ, List, length, take, IsUtf8};

    ghost Value = { List ℕ };

    ghost view = { λ s. take s.len s.bytes };

    ghost invariant = { λ s. (s.len ≤ N) × (length s.bytes ≡ N)
        × ∥ IsUtf8 (take s.len s.bytes) ∥₁ };
}

impl<const N: usize> Short<N> {
    /// A copy of the text.
    pub(crate) fn of(text: &str) -> Short<N>
        requires fits { length text.now ≤ N }
        requires small { N < 256 }
        ensures { result ≡ text.now }
    {
        let mut bytes = [0; N];
        bytes[..text.len()].copy_from_slice(text.as_bytes());
        Short {
            len: text.len() as u8,
            bytes,
        }
    }

    /// The same text. All places are copied, and not those in use alone, since that takes no call.
    pub(crate) fn copy(&self) -> Short<N>
        ensures { result ≡ self.now }
    {
        Short {
            len: self.len,
            bytes: self.bytes,
        }
    }

    /// The same text where it is held in `M` places, for which it is short enough. `None` where it
    /// is longer.
    pub(crate) fn narrowed<const M: usize>(&self) -> Option<Short<M>>
        requires { M ≤ N }
        ensures { MatchOption result (M < length self.now) (λ short. short ≡ self.now) }
    {
        if self.len as usize > M {
            return None;
        }
        let mut bytes = [0; M];
        bytes.copy_from_slice(&self.bytes[..M]);
        Some(Short {
            len: self.len,
            bytes,
        })
    }

    /// The same text where it is held in `M` places.
    pub(crate) fn widened<const M: usize>(&self) -> Short<M>
        requires { N ≤ M }
        ensures { result ≡ self.now }
    {
        let mut bytes = [0; M];
        bytes[..N].copy_from_slice(&self.bytes);
        Short {
            len: self.len,
            bytes,
        }
    }

    /// The text, borrowed.
    pub(crate) fn as_str(&self) -> &str
        ensures { result.now ≡ self.now }
    {
        // The bytes in use are UTF-8 since `of` had them from a text.
        unsafe { str::from_utf8_unchecked(&self.bytes[..self.len as usize]) }
    }
}

//! Where sources are opened and read.
ghost use Rattle.std.specs.Prelude.{◌≡◌, ◌≢◌, ℕ, ◌<◌, ◌∷◌, ◌++◌, [], List, length, true, false, IfOk, OnErr};
ghost use Rattle.std.specs.Prelude.{Option};
ghost use Rattle.std.specs.Io.{ReadsAtMost};
ghost use Rattle.std.specs.Io.KnownBytes.{ReadConsumes};
ghost use Rattle.cs_io.specs.Causes.{HasCause};
ghost use Rattle.cs_io.specs.Names.{Files, told_bytes, is_open, AddsNone};
ghost use Rattle.cs_io.specs.declared.library.Asked.{Asked};

use cs_value::Txt;

/// A call on the outside did not succeed. Why is not told: the count of the [`Library`] or of the
/// [`Sink`](crate::Sink) rose in that call.
#[derive(Clone, Copy, Debug, PartialEq, Eq)]
pub struct Failed;

/// A name that a library was asked for.
#[derive(Drop)]
pub struct Asked {
    /// The name, as it was asked for.
    pub name: Txt,
    /// The number that the library answered, or none where it answered [`Failed`].
    pub number: Option<u32>,
}

/// Sources of bytes, by name. A source is opened by its name and read by the number that
/// [`Library::open`] answers.
///
/// Contracts see five things of a library: the bytes that each name holds, and the bytes left under
/// each opened number, both only where the library tells them; the names that it was asked for,
/// each with its number or with none; and two counts of faults, of opens and of reads.
pub trait Library {
    // the bytes that each name holds, where told
    ghost files: { Self → Option Files };
    // the bytes left under a number, where told
    ghost left: { Self → ℕ → Option (List ℕ) };
    // the names asked for, in their order
    ghost asked: { Self → List Asked };
    // how many opens have failed
    ghost open_faults: { Self → ℕ };
    // how many reads have failed
    ghost read_faults: { Self → ℕ };

    /// Opens the bytes of a name, and answers a number that was not open before. [`Failed`] comes
    /// only where the count of failed opens rose; the opened numbers then have what they had.
    fn open(&mut self, name: &str) -> Result<u32, Failed>
        ensures files { files self.new ≡ files self.old }
        ensures reads { read_faults self.new ≡ read_faults self.old }
        ensures cause { HasCause (open_faults self.old) (open_faults self.new) result }
        ensures fresh { IfOk result (λ number. is_open (asked self.old) number ≡ false) }
        ensures bytes { IfOk result (λ number.
            left self.new number ≡ told_bytes (files self.old) name.now) }
        ensures others { IfOk result (λ number.
            (other : ℕ) → other ≢ number → left self.new other ≡ left self.old other) }
        ensures added { IfOk result (λ number. asked self.new
            ≡ asked self.old ++ record { name = name.now; number = Option.Some number } ∷ []) }
        ensures failed { OnErr result (AddsNone (asked self.old) (asked self.new) name.now) }
        ensures kept { OnErr result ((other : ℕ) → is_open (asked self.old) other ≡ true
            → left self.new other ≡ left self.old other) };

    /// Reads the next bytes under an opened number into the front of a piece that is not empty, and
    /// answers how many came, at most the piece's length: 0 only at the end. [`Failed`] comes only
    /// where the count of failed reads rose; no byte is then lost.
    fn read(&mut self, which: u32, piece: &mut [u8]) -> Result<usize, Failed>
        requires opened { is_open (asked self.old) which ≡ true }
        requires room { 0 < length piece.old }
        ensures files { files self.new ≡ files self.old }
        ensures asked { asked self.new ≡ asked self.old }
        ensures opens { open_faults self.new ≡ open_faults self.old }
        ensures cause { HasCause (read_faults self.old) (read_faults self.new) result }
        ensures bound { ReadsAtMost result piece.new }
        ensures bytes { ReadConsumes (left self.old which) (left self.new which) result piece.new }
        ensures others { (other : ℕ) → other ≢ which → left self.new other ≡ left self.old other };
}

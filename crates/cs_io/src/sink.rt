//! Where a program writes.
ghost use Rattle.std.specs.Prelude.{ℕ, ◌<◌, ◌≤◌, List, length, IfOk, OnOk, Option};
ghost use Rattle.std.specs.Io.KnownBytes.{WriteAppends, Appends};
ghost use Rattle.cs_io.specs.Bytes.{AppendsPartOf};
ghost use Rattle.cs_io.specs.Causes.{HasCause};

use crate::library::Failed;
use thiserror::Error;

/// Where a program writes. Contracts see two things of a sink: the bytes that it took, where it
/// tells them, and the count of its faults, which never falls.
pub trait Sink {
    // the bytes taken, where told
    ghost taken: { Self → Option (List ℕ) };
    // how many writes have failed
    ghost faults: { Self → ℕ };

    /// Takes bytes from the front, and answers how many: at least 1 where there are any. [`Failed`]
    /// comes only where the count of faults rose; nothing was then taken.
    fn write(&mut self, bytes: &[u8]) -> Result<usize, Failed>
        ensures bound { IfOk result (λ n. n ≤ length bytes.now) }
        ensures some { IfOk result (λ n. 0 < length bytes.now → 0 < n) }
        ensures appends { WriteAppends (taken self.old) (taken self.new) result bytes.now }
        ensures cause { HasCause (faults self.old) (faults self.new) result };
}

/// Why [`write_whole`] stopped.
#[derive(Error, Debug, Drop)]
pub enum WriteFault {
    /// The sink answered [`Failed`].
    #[error("a write failed")]
    Failed,
}

/// Writes all the bytes, in as many writes as the sink needs. `WriteFault::Failed` comes only where
/// the sink's count rose; the sink then took a prefix of the bytes and nothing else.
pub fn write_whole<K: Sink>(sink: &mut K, bytes: &[u8]) -> Result<(), WriteFault>
    ensures whole { OnOk result (Appends (K.taken sink.old) (K.taken sink.new) bytes.now) }
    ensures prefix { AppendsPartOf (K.taken sink.old) (K.taken sink.new) bytes.now }
    ensures cause { HasCause (K.faults sink.old) (K.faults sink.new) result }
{
    let mut done = 0;
    while done < bytes.len() {
        match sink.write(&bytes[done..]) {
            Ok(count) => done += count,
            Err(_) => return Err(WriteFault::Failed),
        }
    }
    Ok(())
}

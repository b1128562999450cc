//! A sink in memory.
ghost use Rattle.std.specs.Prelude.{◌≡◌, [], Option};

use crate::held::is_failing;
use crate::library::Failed;
use crate::sink::Sink;
use std::alloc::Global;

/// A sink in memory, which tells its bytes. It takes each piece whole, and fails the writes of the
/// given numbers.
#[derive(Drop)]
pub struct MemSink {
    bytes: Vec<u8>,
    fail: Vec<u64>,
    calls: u64,
    fault_count: u64,
}

impl MemSink {
    /// A sink that holds nothing yet. `fail` has the numbers of the writes that fail, counted from
    /// 1; the count stays at 2^64 - 1. A refused growth is a fault too.
    pub fn new(alloc: Global, fail: Vec<u64>) -> MemSink
        ensures told { ⟦<MemSink as Sink>⟧.taken result ≡ Option.Some [] }
        ensures faults { ⟦<MemSink as Sink>⟧.faults result ≡ 0 }
    {
        MemSink {
            bytes: Vec::new(alloc),
            fail,
            calls: 0,
            fault_count: 0,
        }
    }

    /// The bytes that it took.
    pub fn taken(&self) -> &[u8]
        ensures { ⟦<MemSink as Sink>⟧.taken self.now ≡ Option.Some result.now }
    {
        self.bytes.as_slice()
    }
}

impl Sink for MemSink {
    ghost use Rattle.std.specs.Prelude.{Some};

    ghost taken = { λ s. Some s.bytes.items };

    ghost faults = { λ s. s.fault_count };

    fn write(&mut self, bytes: &[u8]) -> Result<usize, Failed> {
        if is_failing(&mut self.calls, self.fail.as_slice())
            || self.bytes.extend_from_slice(bytes).is_err()
        {
            self.fault_count = self.fault_count.saturating_add(1);
            return Err(Failed);
        }
        Ok(bytes.len())
    }
}

//! Standard output as a sink.
ghost use Rattle.std.specs.Prelude.{◌≡◌};

use crate::library::Failed;
use crate::sink::Sink;
use std::io::Print;

/// Standard output. It does not tell what it took. A write that takes nothing is a fault.
#[derive(Drop)]
pub struct OutSink<'a, R: Print> {
    rt: &'a R,
    fault_count: u64,
}

impl<'a, R: Print> OutSink<'a, R> {
    /// Standard output, with no fault yet.
    pub fn new(rt: &'a R) -> OutSink<'a, R>
        ensures faults { ⟦<OutSink<'a, R> as Sink>⟧.faults result ≡ 0 }
    {
        OutSink { rt, fault_count: 0 }
    }
}

impl<'a, R: Print> Sink for OutSink<'a, R> {
    ghost use Rattle.std.specs.Prelude.{None};

    ghost taken = { λ _. None };

    ghost faults = { λ s. s.fault_count };

    fn write(&mut self, bytes: &[u8]) -> Result<usize, Failed> {
        if let Ok(count) = self.rt.write_some(bytes) {
            if count > 0 || bytes.is_empty() {
                return Ok(count);
            }
        }
        self.fault_count = self.fault_count.saturating_add(1);
        Err(Failed)
    }
}

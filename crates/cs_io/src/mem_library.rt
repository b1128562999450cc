//! A library of sources in memory.
ghost use Rattle.std.specs.Prelude.{◌≡◌, ◌<◌, ℕ, [], Option, length, true};
ghost use Rattle.cs_io.specs.Names.{is_open};

use crate::held::{copy_held, is_failing, take_from};
use crate::library::{Asked, Failed, Library};
use crate::placing::place;
use crate::slot::Slot;
use cs_value::Txt;
use std::alloc::Global;

/// A library in memory, which tells its bytes. It gives at most so many bytes a read, and fails the
/// calls of the given numbers.
#[derive(Drop)]
pub struct MemLibrary {
    alloc: Global,
    held: Vec<(Txt, Vec<u8>)>,
    piece: usize,
    fail: Vec<u64>,
    calls: u64,
    opened: Vec<Slot>,
    names: Vec<Asked>,
    failed_opens: u64,
    failed_reads: u64,
    ghost some: { 0 < piece },
    ghost placed: { (n : ℕ) → is_open names.items n ≡ true → n < length opened.items },
}

impl MemLibrary {
    ghost use Rattle.cs_io.specs.Held.{files_of};

    /// A library of the files, each a name and its bytes; of files of one name the first counts.
    /// `piece`, at least 1, is the most bytes that a read gives. `fail` has the numbers of the
    /// calls that fail, [`Library::open`] and [`Library::read`] counted together from 1; the count
    /// stays at 2^64 - 1. In `open` also a name that is not held, a refused growth and the want of
    /// a free number are faults.
    pub fn new(
        alloc: Global,
        files: Vec<(Txt, Vec<u8>)>,
        piece: usize,
        fail: Vec<u64>,
    ) -> MemLibrary
        requires { 0 < piece }
        ensures told { ⟦<MemLibrary as Library>⟧.files result ≡ Option.Some (files_of files.items) }
        ensures none { ⟦<MemLibrary as Library>⟧.asked result ≡ [] }
        ensures opens { ⟦<MemLibrary as Library>⟧.open_faults result ≡ 0 }
        ensures reads { ⟦<MemLibrary as Library>⟧.read_faults result ≡ 0 }
    {
        MemLibrary {
            alloc,
            held: files,
            piece,
            fail,
            calls: 0,
            opened: Vec::new(alloc),
            names: Vec::new(alloc),
            failed_opens: 0,
            failed_reads: 0,
        }
    }
}

impl Library for MemLibrary {
    ghost use Rattle.std.specs.Prelude.{Some};
    ghost use Rattle.cs_io.specs.Held.{files_of, left_under};

    ghost files = { λ s. Some (files_of s.held.items) };

    ghost left = { λ s n. left_under s.opened.items n };

    ghost asked = { λ s. s.names.items };

    ghost open_faults = { λ s. s.failed_opens };

    ghost read_faults = { λ s. s.failed_reads };

    fn open(&mut self, name: &str) -> Result<u32, Failed> {
        if !is_failing(&mut self.calls, self.fail.as_slice()) {
            if let Some(slot) = copy_held(self.alloc, self.held.as_slice(), name) {
                if let Some(number) = place(
                    self.alloc,
                    &mut self.opened,
                    &mut self.names,
                    name,
                    slot,
                ) {
                    return Ok(number);
                }
            }
        }
        self.failed_opens = self.failed_opens.saturating_add(1);
        Err(Failed)
    }

    fn read(&mut self, which: u32, piece: &mut [u8]) -> Result<usize, Failed> {
        if is_failing(&mut self.calls, self.fail.as_slice()) {
            self.failed_reads = self.failed_reads.saturating_add(1);
            return Err(Failed);
        }
        let slot = &mut self.opened[which as usize];
        Ok(take_from(slot, piece, self.piece))
    }
}

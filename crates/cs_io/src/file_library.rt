//! The files of the machine as sources.
ghost use Rattle.std.specs.Prelude.{◌≡◌, ◌<◌, ◌≤◌, ℕ, [], length, true, IfSome};
ghost use Rattle.cs_io.specs.Names.{is_open};

use crate::library::{Asked, Failed, Library};
use crate::placing::place;
use std::alloc::Global;
use std::fs;
use std::fs::Files;
use std::io::{Input, Read};

// What is read under a number.
#[derive(Drop)]
enum Source<R: Files + Input> {
    File(R::File),
    Standard(R::Reader),
}

/// The files of the machine, by their paths; the name `-` is standard input. It does not tell what
/// they hold.
#[derive(Drop)]
pub struct FileLibrary<'a, R: Files + Input> {
    alloc: Global,
    rt: &'a R,
    opened: Vec<Source<R>>,
    names: Vec<Asked>,
    failed_opens: u64,
    failed_reads: u64,
    ghost placed: { (n : ℕ) → is_open names.items n ≡ true → n < length opened.items },
}

impl<'a, R: Files + Input> FileLibrary<'a, R> {
    /// The machine's files, nothing of them opened yet. In [`Library::open`] a refused growth and
    /// the want of a free number are faults too.
    pub fn new(alloc: Global, rt: &'a R) -> FileLibrary<'a, R>
        ensures none { ⟦<FileLibrary<'a, R> as Library>⟧.asked result ≡ [] }
        ensures opens { ⟦<FileLibrary<'a, R> as Library>⟧.open_faults result ≡ 0 }
        ensures reads { ⟦<FileLibrary<'a, R> as Library>⟧.read_faults result ≡ 0 }
    {
        FileLibrary {
            alloc,
            rt,
            opened: Vec::new(alloc),
            names: Vec::new(alloc),
            failed_opens: 0,
            failed_reads: 0,
        }
    }
}

fn open_source<R: Files + Input>(rt: &R, name: &str) -> Option<Source<R>> {
    if name == "-" {
        return Some(Source::Standard(rt.reader()));
    }
    match fs::open(rt, name) {
        Ok(file) => Some(Source::File(file)),
        Err(_) => None,
    }
}

fn read_some<R: Files + Input>(source: &mut Source<R>, piece: &mut [u8]) -> Option<usize>
    ensures { IfSome result (λ n. n ≤ length piece.new) }
{
    let read = match source {
        Source::File(file) => file.read(piece),
        Source::Standard(reader) => reader.read(piece),
    };
    match read {
        Ok(count) => Some(count),
        Err(_) => None,
    }
}

impl<'a, R: Files + Input> Library for FileLibrary<'a, R> {
    ghost use Rattle.std.specs.Prelude.{None};

    ghost files = { λ _. None };

    ghost left = { λ _ _. None };

    ghost asked = { λ s. s.names.items };

    ghost open_faults = { λ s. s.failed_opens };

    ghost read_faults = { λ s. s.failed_reads };

    fn open(&mut self, name: &str) -> Result<u32, Failed> {
        if let Some(source) = open_source(self.rt, name) {
            if let Some(number) = place(
                self.alloc,
                &mut self.opened,
                &mut self.names,
                name,
                source,
            ) {
                return Ok(number);
            }
        }
        self.failed_opens = self.failed_opens.saturating_add(1);
        Err(Failed)
    }

    fn read(&mut self, which: u32, piece: &mut [u8]) -> Result<usize, Failed> {
        let source = &mut self.opened[which as usize];
        if let Some(count) = read_some(source, piece) {
            return Ok(count);
        }
        self.failed_reads = self.failed_reads.saturating_add(1);
        Err(Failed)
    }
}

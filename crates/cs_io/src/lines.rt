//! The lines of a source.
ghost use Rattle.std.specs.Prelude.{◌≡◌, ◌≢◌, ℕ, ◌+◌, ◌<◌, ◌≤◌, [], List, length, take};
ghost use Rattle.std.specs.Prelude.{true, false, IfOk, OnErr, OnOk, IfErr, IfSome, IfNone};
ghost use Rattle.std.specs.Io.KnownBytes.{Consumes, Keeps, IsAtEnd};
ghost use Rattle.cs_io.specs.Lines.{longest_line, largest_source};
ghost use Rattle.cs_io.specs.Reader.{Reader, OnlyReads, InStep, feed_at, rest_at};
ghost use Rattle.cs_io.specs.Moves.{SamePlace, FillFails, Advances};
ghost use Rattle.cs_io.specs.Names.{is_open};
ghost use Rattle.cs_io.specs.Laws.{FollowsCut, FollowsWhole};
ghost use Rattle.cs_io.specs.Next.{FaultHasCause, Gives, IsNext, Texts, ReadStands};

use crate::library::Library;
use crate::pieces::{Part, PieceFault, take_part};
use std::alloc::Global;
use std::marker::Model;
use thiserror::Error;

// The most bytes that are asked for at a time.
const PIECE: usize = 65_536;

/// A line of a source.
#[derive(Drop)]
pub struct Line {
    /// Its number, counted from 1 over all lines of the source.
    pub number: u32,
    /// Its bytes, without its newline.
    pub bytes: Vec<u8>,
}

/// Why [`Lines::next`] has no line to give.
#[derive(Error, Debug, Drop)]
pub enum LineFault {
    /// A read failed: the library's count of failed reads rose.
    #[error("a read failed")]
    Read,
    /// A line has more than 16,777,216 bytes, its newline not counted.
    #[error("line {line} is too long")]
    TooLong {
        /// The number of the line.
        line: u32,
    },
    /// The source has more than 268,435,456 bytes.
    #[error("line {line} passes the limit of the source")]
    TooMuch {
        /// The number of the line in which the first byte past the limit stands. A newline belongs
        /// to the line that it ends.
        line: u32,
    },
    /// The allocator has no room for the line.
    #[error("no memory")]
    NoMemory,
}

// Reads into the front of the piece, and says how many bytes came: none only at the end.
fn fill<Lb: Library>(library: &mut Lb, which: u32, piece: &mut Vec<u8>) -> Result<usize, LineFault>
    requires opened { is_open (Lb.asked library.old) which ≡ true }
    ensures within { IfOk result (λ n. n ≤ length piece.new.items) }
    ensures bytes { IfOk result (λ n. Consumes
        (Lb.left library.old which)
        (Lb.left library.new which)
        (take n piece.new.items)) }
    ensures end { IfOk result (λ n. n ≡ 0 → IsAtEnd (Lb.left library.new which)) }
    ensures kept { OnErr result (Keeps (Lb.left library.old which) (Lb.left library.new which)) }
    ensures calls { OnlyReads Lb.files Lb.asked Lb.open_faults Lb.read_faults
        library.old library.new }
    ensures others { (other : ℕ) → other ≢ which
        → Lb.left library.new other ≡ Lb.left library.old other }
    ensures fault { IfErr result
        (FillFails (Lb.read_faults library.old) (Lb.read_faults library.new)) }
{
    if piece.is_empty() && piece.resize(PIECE, 0).is_err() {
        return Err(LineFault::NoMemory);
    }
    match library.read(which, piece.as_mut_slice()) {
        Ok(count) => Ok(count),
        Err(_) => Err(LineFault::Read),
    }
}

/// The lines of a source: what is read under one opened number of a library, cut at newline bytes
/// (0x0A). A last line without its newline is a line; an empty rest after the last newline is none.
///
/// The source is read in pieces of at most 65,536 bytes, and only where no whole line is held. One
/// line is held at a time, and each byte is looked at once.
#[derive(Drop)]
pub struct Lines {
    alloc: Global,
    which: u32,
    given: u32,
    taken: u32,
    piece: Vec<u8>,
    // the bytes of `piece` that are read ahead
    from: usize,
    to: usize,
    ended: bool,
}

impl Model for Lines {
    ghost use Rattle.std.specs.Prelude.{◌≤◌, ◌-◌, take, drop, length};
    ghost use Rattle.cs_io.specs.Lines.{largest_source};
    ghost use Rattle.cs_io.specs.Reader.{Reader};

    ghost Value = { Reader };

    ghost view = { λ s. record {
      which = s.which;
      given = s.given;
      taken = s.taken;
      ahead = take (s.to - s.from) (drop s.from s.piece.items);
      ended = s.ended;
    } };

    ghost invariant = { λ s.
        (s.from ≤ s.to)
        × (s.to ≤ length s.piece.items)
        × (s.given ≤ s.taken)
        × (s.taken ≤ largest_source) };
}

impl Lines {
    /// The lines of what is left under the number, from its first byte on. Nothing is read yet.
    pub fn new(alloc: Global, which: u32) -> Lines
        ensures { result
            ≡ record { which = which; given = 0; taken = 0; ahead = []; ended = false } }
    {
        Lines {
            alloc,
            which,
            given: 0,
            taken: 0,
            piece: Vec::new(alloc),
            from: 0,
            to: 0,
            ended: false,
        }
    }

    // Reads on, where nothing is read ahead: false at the end, from which on nothing is asked for.
    fn refill<Lb: Library>(&mut self, library: &mut Lb) -> Result<bool, LineFault>
        requires opened { is_open (Lb.asked library.old) self.old.which ≡ true }
        requires none { self.old.ahead ≡ [] }
        requires in_step { self.old.ended ≡ true → IsAtEnd (Lb.left library.old self.old.which) }
        ensures place { SamePlace self.old self.new }
        ensures bytes { OnOk result (Consumes
            (Lb.left library.old self.old.which)
            (Lb.left library.new self.old.which)
            self.new.ahead) }
        ensures some { IfOk result (λ more. more ≡ true →
            (0 < length self.new.ahead) × (self.old.ended ≡ false) × (self.new.ended ≡ false)) }
        ensures end { IfOk result (λ more. more ≡ false →
            (self.new.ended ≡ true)
            × (self.new.ahead ≡ [])
            × IsAtEnd (Lb.left library.new self.old.which)) }
        ensures kept { OnErr result
            (Keeps (Lb.left library.old self.old.which) (Lb.left library.new self.old.which)) }
        ensures stands { OnErr result ((self.old.ended ≡ false) × (self.new.ahead ≡ [])) }
        ensures calls { OnlyReads Lb.files Lb.asked Lb.open_faults Lb.read_faults
            library.old library.new }
        ensures others { (other : ℕ) → other ≢ self.old.which
            → Lb.left library.new other ≡ Lb.left library.old other }
        ensures fault { IfErr result
            (FillFails (Lb.read_faults library.old) (Lb.read_faults library.new)) }
    {
        if self.ended {
            return Ok(false);
        }
        self.from = 0;
        self.to = 0;
        let count = fill(library, self.which, &mut self.piece)?;
        self.to = count;
        self.ended = count == 0;
        Ok(count > 0)
    }

    // Adds to the line what was read ahead: true where the line has ended.
    fn advance(&mut self, line: &mut Vec<u8>) -> Result<bool, LineFault>
        requires some { 0 < length self.old.ahead }
        requires short { length line.old.items ≤ longest_line }
        ensures step { Advances result self.old self.new line.old.items line.new.items }
        ensures which { self.new.which ≡ self.old.which }
    {
        match take_part(&self.piece[self.from..self.to], self.taken, line) {
            Ok(Part::Ended(used)) => {
                self.from += used;
                self.taken += used as u32;
                self.given += 1;
                Ok(true)
            }
            Ok(Part::All) => {
                self.taken += (self.to - self.from) as u32;
                self.from = self.to;
                Ok(false)
            }
            Err(PieceFault::TooLong) => Err(LineFault::TooLong {
                line: self.given + 1,
            }),
            Err(PieceFault::TooMuch) => Err(LineFault::TooMuch {
                line: self.given + 1,
            }),
            Err(PieceFault::NoMemory) => Err(LineFault::NoMemory),
        }
    }

    // Whether bytes are read ahead, or some can be read.
    fn ready<Lb: Library>(&mut self, library: &mut Lb) -> Result<bool, LineFault>
        requires opened { is_open (Lb.asked library.old) self.old.which ≡ true }
        requires in_step { InStep self.old (Lb.left library.old self.old.which) }
        ensures place { SamePlace self.old self.new }
        ensures bytes { Keeps
            (rest_at self.old (Lb.left library.old self.old.which))
            (rest_at self.new (Lb.left library.new self.old.which)) }
        ensures some { IfOk result (λ more. more ≡ true →
            (0 < length self.new.ahead) × (self.old.ended ≡ false) × (self.new.ended ≡ false)) }
        ensures end { IfOk result (λ more. more ≡ false →
            (self.new.ended ≡ true)
            × (self.new.ahead ≡ [])
            × IsAtEnd (Lb.left library.new self.old.which)) }
        ensures stands { OnErr result ((self.old.ended ≡ false) × (self.new.ahead ≡ [])) }
        ensures calls { OnlyReads Lb.files Lb.asked Lb.open_faults Lb.read_faults
            library.old library.new }
        ensures others { (other : ℕ) → other ≢ self.old.which
            → Lb.left library.new other ≡ Lb.left library.old other }
        ensures fault { IfErr result
            (FillFails (Lb.read_faults library.old) (Lb.read_faults library.new)) }
    {
        if self.from < self.to {
            return Ok(true);
        }
        self.refill(library)
    }

    // The last line, if there is one.
    fn last(&mut self, bytes: Vec<u8>) -> Option<Line>
        requires counted { 0 < length bytes.items → self.old.given < self.old.taken }
        ensures none { IfNone result ((self.new ≡ self.old) × (bytes.items ≡ [])) }
        ensures some { IfSome result (λ line.
            (line.bytes.items ≡ bytes.items)
            × (0 < length bytes.items)
            × (line.number ≡ self.old.given + 1)
            × (line.number ≤ largest_source)
            × (self.new ≡ record self.old { given = self.old.given + 1 })) }
    {
        if bytes.is_empty() {
            return None;
        }
        self.given += 1;
        Some(Line {
            number: self.given,
            bytes,
        })
    }

    /// The next line of the source, and none exactly at its end. The library is the one in which
    /// the number is open. The call asks for no name.
    ///
    /// `LineFault::Read` comes only where the library's count of failed reads rose; the bytes that
    /// were taken after the last line then have no newline among them. `LineFault::TooLong` and
    /// `LineFault::TooMuch` come exactly at the first byte past a limit: that of a line is its
    /// 16,777,217th byte, its newline not counted, and that of the source its 268,435,457th. Where
    /// one byte is both, the answer is `TooLong`. After a fault nothing is promised of a further
    /// call.
    pub fn next<Lb: Library>(&mut self, library: &mut Lb) -> Result<Option<Line>, LineFault>
        requires opened { is_open (Lb.asked library.old) self.old.which ≡ true }
        requires in_step { InStep self.old (Lb.left library.old self.old.which) }
        ensures line { Gives result
            (feed_at self.old (Lb.left library.old self.old.which))
            (feed_at self.new (Lb.left library.new self.old.which)) }
        ensures text { Texts result
            (rest_at self.old (Lb.left library.old self.old.which))
            (rest_at self.new (Lb.left library.new self.old.which))
            self.new.ended }
        ensures in_step { OnOk result (InStep self.new (Lb.left library.new self.old.which)) }
        ensures which { self.new.which ≡ self.old.which }
        ensures count { IfOk result (λ o. IfSome o (λ line. IsNext self.old self.new line)) }
        ensures calls { OnlyReads Lb.files Lb.asked Lb.open_faults Lb.read_faults
            library.old library.new }
        ensures others { (other : ℕ) → other ≢ self.old.which
            → Lb.left library.new other ≡ Lb.left library.old other }
        ensures fault { IfErr result
            (FaultHasCause (Lb.read_faults library.old) (Lb.read_faults library.new)) }
        ensures stands { IfErr result (λ e. ReadStands e self.old self.new) }
    {
        let mut bytes = Vec::new(self.alloc);
        while self.ready(library)? {
            if self.advance(&mut bytes)? {
                return Ok(Some(Line {
                    number: self.given,
                    bytes,
                }));
            }
        }
        Ok(self.last(bytes))
    }
}

/// The law of lines: the lines that a source gives are those of its bytes, up to the line that
/// passes a limit; and the lines that a newline ends are these but a last one without its newline.
/// A call does nothing.
pub fn lines_are_cut()
    ensures given { (bytes : List ℕ) → FollowsCut bytes }
    ensures whole { (bytes : List ℕ) → FollowsWhole bytes }
{}

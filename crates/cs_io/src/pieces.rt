//! Lines cut out of the pieces that a source gives.
ghost use Rattle.std.specs.Prelude.{◌≡◌, ◌<◌, ◌≤◌, length, slice_index, take};
ghost use Rattle.cs_io.specs.Lines.{IsPlain, longest_line, largest_source};
ghost use Rattle.cs_io.specs.Parts.{Takes};

use memchr::memchr;

/// The most bytes that a line has, its newline not counted.
pub const LONGEST_LINE: usize = 16_777_216;

/// The most bytes that a source has.
pub const LARGEST_SOURCE: u32 = 268_435_456;

// What the line under way took of a piece.
#[derive(Drop)]
pub enum Part {
    // The line has ended: its last bytes and its newline are this many.
    Ended(usize),
    // All of the piece, and the line goes on.
    All,
}

// Why the line under way took nothing of a piece.
#[derive(Drop)]
pub enum PieceFault {
    TooLong,
    TooMuch,
    NoMemory,
}

// The place of the first newline, or the length where there is none.
fn line_end(piece: &[u8]) -> usize
    ensures within { result ≤ length piece.now }
    ensures plain { IsPlain (take result piece.now) }
    ensures found { result < length piece.now → slice_index piece.now result ≡ 10 }
{
    memchr(b'\n', piece).unwrap_or(piece.len())
}

// Adds to the line under way what the piece has of it. `taken` counts the bytes of the source
// before the piece. Where the piece has a byte past a limit, the first such byte of the line
// decides.
pub fn take_part(piece: &[u8], taken: u32, line: &mut Vec<u8>) -> Result<Part, PieceFault>
    requires short { length line.old.items ≤ longest_line }
    requires fits { taken ≤ largest_source }
    ensures { Takes result piece.now taken line.old.items line.new.items }
{
    let end = line_end(piece);
    let in_line = LONGEST_LINE - line.len();
    let in_source = (LARGEST_SOURCE - taken) as usize;
    if in_line < end {
        if in_line <= in_source {
            return Err(PieceFault::TooLong);
        }
        return Err(PieceFault::TooMuch);
    }
    if in_source < end {
        return Err(PieceFault::TooMuch);
    }
    if line.extend_from_slice(&piece[..end]).is_err() {
        return Err(PieceFault::NoMemory);
    }
    if end == piece.len() {
        return Ok(Part::All);
    }
    if in_source == end {
        return Err(PieceFault::TooMuch);
    }
    Ok(Part::Ended(end + 1))
}

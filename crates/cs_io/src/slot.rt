//! A source in memory that is open.
ghost use Rattle.std.specs.Prelude.{◌≤◌, length};

// The bytes under a number, and how many of them were read.
#[derive(Drop)]
pub struct Slot {
    pub bytes: Vec<u8>,
    pub at: usize,
    ghost within: { at ≤ length bytes.items },
}

//! Where bytes come from and where they go to, and the lines of a source.
#![tactic(auto)]

mod file_library;
mod held;
mod library;
mod lines;
mod mem_library;
mod mem_sink;
mod out_sink;
mod pieces;
mod placing;
mod sink;
mod slot;
#[cfg(test)]
mod tests;

pub use file_library::FileLibrary;
pub use library::{Asked, Failed, Library};
pub use lines::{Line, LineFault, Lines, lines_are_cut};
pub use mem_library::MemLibrary;
pub use mem_sink::MemSink;
pub use out_sink::OutSink;
pub use sink::{Sink, WriteFault, write_whole};

//! The line that says what stopped a run.
ghost use Rattle.std.specs.Prelude.{◌≡◌, IfOk, OnOk, ◌∷◌, ◌++◌, [], codes};
ghost use Rattle.cs_value.specs.Tree.{text};
ghost use Rattle.cs_reply.specs.Fields.{object_of, number};
ghost use Rattle.cs_reply.specs.Stated.{stated_line, source_word, stop_fields, size_fields, bad, dangling};
ghost use Rattle.cs_reply.specs.View.{stop, source, cause, Appended};

use crate::line::{member, number, text, write_line};
use cs_json::Node;
use cs_value::NoMemory;
use std::alloc::Global;

/// Where the lines come from.
#[derive(Clone, Copy, Debug, PartialEq, Eq)]
pub enum Source {
    /// The data file.
    Data,
    /// The script.
    Script,
}

/// Why a line of a data file is refused.
#[derive(Clone, Copy, Debug)]
pub enum Cause<'a> {
    /// serde_json has no reading of it.
    NotJson,
    /// It nests too deep.
    TooDeep,
    /// A number in it is no whole number of 64 bits.
    NotWhole,
    /// It is no document.
    BadDocument,
    /// An earlier line has the id.
    Repeated { id: &'a str },
    /// There is no room for a document more.
    FullDocuments,
}

/// What stops a run before its end.
#[derive(Clone, Copy, Debug)]
pub enum Stop<'a> {
    /// The line of the number is too long.
    TooLong { source: Source, line: u32 },
    /// The source has too many bytes: the first past the limit stands in the line of the number.
    TooMuch { source: Source, line: u32 },
    /// The line of the number of the data file is refused.
    Bad { line: u32, cause: Cause<'a> },
    /// A strong reference of the data file names no document.
    Dangling { from: &'a str, to: &'a str },
}

impl Source {
    fn word(self) -> &'static str
        ensures { result.now ≡ source_word (source self) }
    {
        match self {
            Source::Data => "data",
            Source::Script => "script",
        }
    }
}

fn size(
    alloc: Global,
    word: &str,
    from: Source,
    line: u32,
    out: &mut Vec<u8>,
) -> Result<(), NoMemory>
    ensures { OnOk result (Appended out.old.items out.new.items (object_of
        (size_fields word.now (source from) line))) }
{
    let members = vec![in alloc;
        member("error", Node::Text(word)),
        member("line", number(line)),
        member("source", Node::Text(from.word())),
    ]?;
    write_line(alloc, members, out)
}

fn bad_line(alloc: Global, word: &str, line: u32, out: &mut Vec<u8>) -> Result<(), NoMemory>
    ensures { OnOk result (Appended out.old.items out.new.items (object_of
        ((codes "cause", text word.now) ∷ (codes "error", text (codes "data"))
        ∷ (codes "line", number line) ∷ []))) }
{
    let members = vec![in alloc;
        member("cause", text(word)),
        member("error", text("data")),
        member("line", number(line)),
    ]?;
    write_line(alloc, members, out)
}

fn repeated(alloc: Global, id: &str, line: u32, out: &mut Vec<u8>) -> Result<(), NoMemory>
    ensures { OnOk result (Appended out.old.items out.new.items (object_of
        ((codes "cause", text (codes "repeated")) ∷ (codes "error", text (codes "data"))
        ∷ (codes "line", number line) ∷ (codes "id", text id.now) ∷ []))) }
{
    let members = vec![in alloc;
        member("cause", text("repeated")),
        member("error", text("data")),
        member("id", text(id)),
        member("line", number(line)),
    ]?;
    write_line(alloc, members, out)
}

fn bad(alloc: Global, line: u32, why: Cause<'_>, out: &mut Vec<u8>) -> Result<(), NoMemory>
    ensures { OnOk result
        (out.new.items ≡ out.old.items ++ stated_line (bad line (cause why.entry))) }
{
    match why {
        Cause::NotJson => bad_line(alloc, "not-json", line, out),
        Cause::TooDeep => bad_line(alloc, "too-deep", line, out),
        Cause::NotWhole => bad_line(alloc, "not-whole", line, out),
        Cause::BadDocument => bad_line(alloc, "bad-document", line, out),
        Cause::Repeated { id } => repeated(alloc, id, line, out),
        Cause::FullDocuments => bad_line(alloc, "full-documents", line, out),
    }
}

fn dangling(alloc: Global, from: &str, to: &str, out: &mut Vec<u8>) -> Result<(), NoMemory>
    ensures { OnOk result (Appended out.old.items out.new.items (object_of
        (stop_fields (dangling from.now to.now)))) }
{
    let members = vec![in alloc;
        member("cause", text("dangling")),
        member("error", text("data")),
        member("from", text(from)),
        member("to", text(to)),
    ]?;
    write_line(alloc, members, out)
}

impl Stop<'_> {
    // Appends the line.
    fn write(&self, alloc: Global, out: &mut Vec<u8>) -> Result<(), NoMemory>
        ensures { OnOk result (out.new.items ≡ out.old.items ++ stated_line (stop self.now)) }
    {
        match *self {
            Stop::TooLong { source, line } => size(alloc, "too-long", source, line, out),
            Stop::TooMuch { source, line } => size(alloc, "too-much", source, line, out),
            Stop::Bad { line, cause } => bad(alloc, line, cause, out),
            Stop::Dangling { from, to } => dangling(alloc, from, to, out),
        }
    }

    /// The line that says what stopped the run, with its newline. `NoMemory` where the allocator
    /// has no room for it.
    pub fn line(&self, alloc: Global) -> Result<Vec<u8>, NoMemory>
        ensures { IfOk result (λ bytes. bytes.items ≡ stated_line (stop self.now)) }
    {
        let mut out = Vec::new(alloc);
        self.write(alloc, &mut out)?;
        Ok(out)
    }
}

//! The reply to a refused transaction: the object of its fields, written as a line.
ghost use Rattle.std.specs.Prelude.{◌≡◌, ◌∷◌, [], OnOk, IfOk, codes};
ghost use Rattle.cs_value.specs.Pairs.{put};
ghost use Rattle.cs_value.specs.Tree.{text};
ghost use Rattle.cs_value.specs.View.{fields};
ghost use Rattle.cs_parse.specs.Verdict.{reading_of};
ghost use Rattle.cs_reply.specs.Fields.{pairs_with, number};
ghost use Rattle.cs_txn.specs.View.{IsReadSo};
ghost use Rattle.cs_machine.specs.Causes.{of_document, of_path};
ghost use Rattle.cs_refusal.specs.Told.{IsOfReading, Says, IsWritten, with_index};

use cs_docs::MOST_DOCUMENTS;
use cs_parse::ParseFault;
use cs_reply::write_value;
use cs_txn::{Refusal, Why, put_text};
use cs_value::{Fields, NoMemory, Txt, Val};
use std::alloc::Global;

// Puts a number under the name.
fn put_number(alloc: Global, reply: &mut Fields, name: &str, n: u32) -> Result<(), NoMemory>
    ensures { OnOk result (fields reply.new ≡ put name.now (number n) (fields reply.old)) }
{
    let name = Txt::copy_of(alloc, name)?;
    reply.set(name, Val::Num(i64::from(n)))
}

// The word that says why, beside what it says more.
fn error(alloc: Global, word: &str, details: Fields) -> Result<Fields, NoMemory>
    ensures { IfOk result (λ r. fields r
        ≡ put (codes "error") (text word.now) (fields details)) }
{
    let mut reply = details;
    put_text(alloc, &mut reply, "error", word)?;
    Ok(reply)
}

// The word alone.
fn plain(alloc: Global, word: &str) -> Result<Fields, NoMemory>
    ensures { IfOk result (λ r. fields r
        ≡ pairs_with ((codes "error", text word.now) ∷ [])) }
{
    error(alloc, word, Fields::new(alloc))
}

// The word, and a text under a name.
fn with_text(alloc: Global, word: &str, name: &str, value: &str) -> Result<Fields, NoMemory>
    ensures { IfOk result (λ r. fields r
        ≡ pairs_with ((codes "error", text word.now) ∷ (name.now, text value.now) ∷ [])) }
{
    let mut details = Fields::new(alloc);
    put_text(alloc, &mut details, name, value)?;
    error(alloc, word, details)
}

// The word, and a number under a name.
fn with_number(alloc: Global, word: &str, name: &str, n: u32) -> Result<Fields, NoMemory>
    ensures { IfOk result (λ r. fields r
        ≡ pairs_with ((codes "error", text word.now) ∷ (name.now, number n) ∷ [])) }
{
    let mut details = Fields::new(alloc);
    put_number(alloc, &mut details, name, n)?;
    error(alloc, word, details)
}

// The word, and two texts under names.
fn with_texts(
    alloc: Global,
    word: &str,
    first: &str,
    first_value: &str,
    second: &str,
    second_value: &str,
) -> Result<Fields, NoMemory>
    ensures { IfOk result (λ r. fields r ≡ pairs_with ((codes "error", text word.now)
        ∷ (first.now, text first_value.now) ∷ (second.now, text second_value.now) ∷ [])) }
{
    let mut details = Fields::new(alloc);
    put_text(alloc, &mut details, second, second_value)?;
    put_text(alloc, &mut details, first, first_value)?;
    error(alloc, word, details)
}

// A document, and the path at which it can't be patched.
fn with_path(alloc: Global, word: &str, id: &Txt, path: &Txt) -> Result<Fields, NoMemory>
    ensures { IfOk result (λ r. fields r
        ≡ pairs_with ((codes "error", text word.now) ∷ of_path id.now path.now)) }
{
    with_texts(alloc, word, "id", id.as_str(), "path", path.as_str())
}

// A document.
fn with_document(alloc: Global, word: &str, id: &Txt) -> Result<Fields, NoMemory>
    ensures { IfOk result (λ r. fields r
        ≡ pairs_with ((codes "error", text word.now) ∷ of_document id.now)) }
{
    with_text(alloc, word, "id", id.as_str())
}

// Another revision than the expected one.
fn revision(alloc: Global, id: &Txt, expected: &Txt, found: &Txt) -> Result<Fields, NoMemory>
    ensures { IfOk result (λ r. fields r ≡ pairs_with ((codes "error", text (codes "revision"))
        ∷ (codes "expected", text expected.now) ∷ (codes "found", text found.now)
        ∷ of_document id.now)) }
{
    let mut details = Fields::new(alloc);
    put_text(alloc, &mut details, "id", id.as_str())?;
    put_text(alloc, &mut details, "found", found.as_str())?;
    put_text(alloc, &mut details, "expected", expected.as_str())?;
    error(alloc, "revision", details)
}

// A text that is no path, and the place of its fault.
fn bad_path(alloc: Global, path: &Txt, at: u32) -> Result<Fields, NoMemory>
    ensures { IfOk result (λ r. fields r ≡ pairs_with ((codes "error", text (codes "bad-path"))
        ∷ (codes "at", number at) ∷ (codes "path", text path.now) ∷ [])) }
{
    let mut details = Fields::new(alloc);
    put_text(alloc, &mut details, "path", path.as_str())?;
    put_number(alloc, &mut details, "at", at)?;
    error(alloc, "bad-path", details)
}

// A text that is no query.
fn no_query(alloc: Global, fault: &ParseFault) -> Result<Fields, NoMemory>
    ensures { IfOk result (λ r. IsReadSo (IsOfReading (fields r)) (reading_of fault.now)) }
{
    match fault {
        ParseFault::BadToken { at } => with_number(alloc, "bad-token", "at", *at),
        ParseFault::TooDeep => plain(alloc, "deep-query"),
        ParseFault::Syntax => plain(alloc, "syntax"),
        ParseFault::Unsupported { name } => {
            with_text(alloc, "unsupported", "name", name.as_str())
        }
        ParseFault::UnknownFunction { name } => {
            with_text(alloc, "unknown-function", "name", name.as_str())
        }
        ParseFault::Arity { name } => with_text(alloc, "arity", "name", name.as_str()),
        ParseFault::NoKey => plain(alloc, "no-key"),
        ParseFault::NoMemory => Err(NoMemory),
    }
}

// The fields of the cause. Want of memory has none.
fn cause(alloc: Global, why: &Why) -> Result<Fields, NoMemory>
    ensures { IfOk result (λ r. Says (fields r) why.now) }
{
    match why {
        Why::BadDocument => plain(alloc, "bad-document"),
        Why::DeepDocument => plain(alloc, "deep-document"),
        Why::NotDocuments => plain(alloc, "not-documents"),
        Why::Diff => with_text(alloc, "unsupported", "name", "diffMatchPatch"),
        Why::FullDocuments => {
            with_number(alloc, "full-documents", "limit", MOST_DOCUMENTS as u32)
        },
        Why::Dangling { from, to } => with_texts(
            alloc,
            "dangling",
            "from",
            from.as_str(),
            "to",
            to.as_str(),
        ),
        Why::Exists { id } => with_document(alloc, "exists", id),
        Why::Missing { id } => with_document(alloc, "missing", id),
        Why::Revision {
            id,
            expected,
            found,
        } => revision(alloc, id, expected, found),
        Why::Immutable { id, name } => with_texts(
            alloc,
            "immutable",
            "name",
            name.as_str(),
            "id",
            id.as_str(),
        ),
        Why::BadPath { path, at } => bad_path(alloc, path, *at),
        Why::NotNumber { id, path } => with_path(alloc, "not-number", id, path),
        Why::Overflow { id, path } => with_path(alloc, "overflow", id, path),
        Why::NotArray { id, path } => with_path(alloc, "not-array", id, path),
        Why::Query(fault) => no_query(alloc, fault),
        Why::NoMemory => Err(NoMemory),
    }
}

// The index of the mutation, where the refusal is one's.
fn put_index(alloc: Global, reply: &mut Fields, index: Option<u32>) -> Result<(), NoMemory>
    ensures { OnOk result (fields reply.new ≡ with_index index (fields reply.old)) }
{
    match index {
        Some(index) => put_number(alloc, reply, "mutation", index),
        None => Ok(()),
    }
}

/// Appends the reply to the line of the number, whose transaction is refused. After `NoMemory`,
/// which also comes where the refusal is want of memory, a part of it may have been appended.
pub fn write_refused(
    alloc: Global,
    refusal: &Refusal,
    line: u32,
    out: &mut Vec<u8>,
) -> Result<(), NoMemory>
    ensures { OnOk result (IsWritten out.old.items out.new.items line refusal.now) }
{
    let mut reply = cause(alloc, &refusal.why)?;
    put_index(alloc, &mut reply, refusal.mutation)?;
    put_number(alloc, &mut reply, "line", line)?;
    let reply = Val::Obj(reply);
    let written = write_value(alloc, &reply, out);
    drop(reply);
    written
}

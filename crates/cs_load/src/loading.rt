//! The documents of a data file, line by line.
ghost use Rattle.std.specs.Prelude.{◌≡◌, ◌<◌, ◌≤◌, List, [], true, false, length, map, cond, if◌then◌else◌, Some, None, option_map, OnOk, IfOk, IfErr};
ghost use Rattle.cs_value.specs.Tree.{Tree};
ghost use Rattle.cs_value.specs.View.{tree};
ghost use Rattle.cs_json.specs.Reading.{outcome, value};
ghost use Rattle.cs_view.specs.Dataset.{ascending, stands};
ghost use Rattle.cs_view.specs.Document.{is_body, is_shallow, id_of, deepest_document};
ghost use Rattle.cs_view.specs.View.{document_of};
ghost use Rattle.cs_machine.specs.DataFile.{a_document, imported, of_body, of_outcome, refused, said};
ghost use Rattle.cs_load.specs.Gathered.{held, HasWay, IsKept};
ghost use Rattle.cs_load.specs.Refusals.{IsRefused};
ghost use Rattle.cs_docs.specs.Limits.{most_documents};
ghost use Rattle.cs_reply.specs.Stated.{full, repeated};

mod collected;

use crate::fault::DataCause;
use crate::import::imported;
use crate::refusal::{LineRefusal, json_refusal};
use collected::Collected;
use cs_docs::MOST_DOCUMENTS;
use cs_json::ValueReader;
use cs_value::{NoMemory, Txt, Val};
use cs_view::{DEEPEST_DOCUMENT, Doc, is_body};
use cs_wire::is_blank;
use std::alloc::Global;

// The attributes that an imported document has from the store where its body lacks them.
const DEFAULTS: u8 = 3;

// The id of a value that can be installed as a document. `None` exactly where it cannot.
fn body_id(body: &Val) -> Option<&Txt>
    ensures { option_map (λ id. id.now) result ≡ cond (is_body (tree body.now))
        (Some (id_of (tree body.now))) None }
{
    if !is_body(body) {
        return None;
    }
    match body.field("_id") {
        Some(Val::Text(id)) => Some(id),
        _ => None,
    }
}

// The line's value.
fn read(reader: &mut ValueReader, line: &[u8]) -> Result<Val, LineRefusal>
    ensures value { IfOk result (λ v. outcome deepest_document line.now ≡ value (tree v)) }
    ensures shallow { IfOk result (λ v. is_shallow (tree v) ≡ true) }
    ensures refused { IfErr result (λ r. (before : List Tree)
        → IsRefused r (of_outcome before (outcome deepest_document line.now))) }
{
    match reader.read(line, DEEPEST_DOCUMENT) {
        Ok(body) => Ok(body),
        Err(fault) => Err(json_refusal(fault)),
    }
}

// Why no document of the id is taken any more.
fn none_taken(alloc: Global, documents: &Collected, id: &Txt) -> LineRefusal
    requires kept { IsKept documents.now }
    requires way { HasWay id.now documents.now }
    ensures { IsRefused result (if stands id.now (held documents.now) then refused (repeated id.now)
        else refused full) }
{
    if !documents.has(id) {
        return LineRefusal::Cause(DataCause::FullDocuments);
    }
    match id.copy(alloc) {
        Ok(id) => LineRefusal::Cause(DataCause::Repeated { id }),
        Err(NoMemory) => LineRefusal::NoMemory,
    }
}

// The id of the body, if it makes one document more where none of its id stands. Way is made for it
// then.
fn admit(alloc: Global, documents: &mut Collected, body: &Val) -> Result<Txt, LineRefusal>
    requires { IsKept documents.old }
    ensures kept { IsKept documents.new }
    ensures same { OnOk result (held documents.new ≡ held documents.old) }
    ensures id { IfOk result (λ id. id ≡ id_of (tree body.now)) }
    ensures way { OnOk result (HasWay (id_of (tree body.now)) documents.new) }
    ensures admitted { OnOk result (stands (id_of (tree body.now)) (held documents.old) ≡ false
        → of_body (held documents.old) (tree body.now) ≡ a_document (imported (tree body.now))) }
    ensures body { OnOk result (is_body (tree body.now) ≡ true) }
    ensures room { OnOk result (length (held documents.old) < most_documents) }
    ensures refused { IfErr result (λ r. IsRefused r
        (of_body (held documents.old) (tree body.now))) }
{
    let Some(id) = body_id(body) else {
        return Err(LineRefusal::Cause(DataCause::BadDocument));
    };
    documents.make_way(alloc, id)?;
    if documents.len() == MOST_DOCUMENTS {
        return Err(none_taken(alloc, documents, id));
    }
    Ok(id.copy(alloc)?)
}

/// The documents of a data file so far, by their ids.
#[derive(Drop)]
pub(crate) struct Loading {
    alloc: Global,
    reader: ValueReader,
    documents: Collected,
    ghost kept: { IsKept documents },
}

impl Loading {
    ghost use Rattle.cs_load.specs.Taking.{so_far, IsTaken};

    /// No documents yet.
    pub(crate) fn new(alloc: Global) -> Loading
        ensures { so_far result ≡ [] }
    {
        Loading {
            alloc,
            reader: ValueReader::with_room(alloc, DEFAULTS),
            documents: Collected::new(alloc),
        }
    }

    // Takes a line that is not blank.
    fn take_document(&mut self, line: &[u8]) -> Result<(), LineRefusal>
        ensures taken { OnOk result (IsTaken (of_outcome (so_far self.old)
            (outcome deepest_document line.now)) (so_far self.old) (so_far self.new)) }
        ensures refused { IfErr result (λ r. IsRefused r
            (of_outcome (so_far self.old) (outcome deepest_document line.now))) }
    {
        let body = read(&mut self.reader, line)?;
        let id = admit(self.alloc, &mut self.documents, &body)?;
        let document = imported(self.alloc, body)?;
        if self.documents.put(self.alloc, document)? {
            return Err(LineRefusal::Cause(DataCause::Repeated { id }));
        }
        Ok(())
    }

    /// Takes the next line: nothing changes at a blank one, and else its document is put in the
    /// place of its id.
    pub(crate) fn take_line(&mut self, line: &[u8]) -> Result<(), LineRefusal>
        ensures taken { OnOk result (IsTaken (said (so_far self.old) line.now) (so_far self.old)
            (so_far self.new)) }
        ensures refused { IfErr result (λ r. IsRefused r (said (so_far self.old) line.now)) }
    {
        if is_blank(line) {
            return Ok(());
        }
        self.take_document(line)
    }

    /// The documents, moved and not copied.
    pub(crate) fn into_docs(self) -> Result<Vec<Doc>, NoMemory>
        ensures these { IfOk result (λ documents. map document_of documents.items ≡ so_far self) }
        ensures ascends { IfOk result
            (λ documents. ascending (map document_of documents.items) ≡ true) }
        ensures within { IfOk result
            (λ documents. length (map document_of documents.items) ≤ most_documents) }
    {
        let Loading {
            alloc,
            documents,
            ..
        } = self;
        documents.into_docs(alloc)
    }
}

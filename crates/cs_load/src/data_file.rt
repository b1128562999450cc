//! The loading of a data file.
ghost use Rattle.std.specs.Prelude.{◌≡◌, ◌≤◌, ℕ, true, length, map, IfOk, IfErr};
ghost use Rattle.cs_view.specs.Dataset.{ascending};
ghost use Rattle.cs_view.specs.View.{document_of};
ghost use Rattle.cs_io.specs.Names.{told_bytes, is_open};
ghost use Rattle.cs_io.specs.Reader.{OnlyReads};
ghost use Rattle.cs_machine.specs.DataFile.{of_references};
ghost use Rattle.cs_load.specs.Loading.{ToldLoad, Loads, LoadHasCause, AsksFor};
ghost use Rattle.cs_load.specs.Reads.{of_refusal, of_store_fault, IsNotFull, ToldRead, ReadFails};
ghost use Rattle.cs_docs.specs.References.{first_dangling};
ghost use Rattle.cs_docs.specs.Limits.{most_documents};

use crate::fault::LoadFault;
use crate::loading::Loading;
use crate::refusal::LineRefusal;
use cs_docs::{Docs, PrepareFault};
use cs_io::{Library, LineFault, Lines};
use cs_value::NoMemory;
use cs_view::Doc;
use std::alloc::Global;

impl From<NoMemory> for LoadFault {
    ghost use Rattle.std.specs.Prelude.{◌≡◌};
    ghost use Rattle.cs_load.specs.declared.fault.LoadFault.TheVariants.{NoMemory};

    ghost from_gives = { λ _ e. e ≡ NoMemory };

    fn from(_refused: NoMemory) -> LoadFault {
        LoadFault::NoMemory
    }
}

impl From<LineFault> for LoadFault {
    ghost use Rattle.std.specs.Prelude.{◌≡◌};
    ghost use Rattle.cs_load.specs.Reads.{of_line_fault};

    ghost from_gives = { λ fault e. e ≡ of_line_fault fault };

    fn from(fault: LineFault) -> LoadFault {
        match fault {
            LineFault::Read => LoadFault::Read,
            LineFault::TooLong { line } => LoadFault::TooLong { line },
            LineFault::TooMuch { line } => LoadFault::TooMuch { line },
            LineFault::NoMemory => LoadFault::NoMemory,
        }
    }
}

// The fault that the refusal of a line is.
fn refused(line: u32, refusal: LineRefusal) -> LoadFault
    ensures { result ≡ of_refusal line refusal }
{
    match refusal {
        LineRefusal::Cause(cause) => LoadFault::Bad { line, cause },
        LineRefusal::NoMemory => LoadFault::NoMemory,
    }
}

// The documents of the lines under an opened number. Whether their references dangle is not looked
// at.
fn read_lines<Lb: Library>(
    alloc: Global,
    library: &mut Lb,
    which: u32,
) -> Result<Vec<Doc>, LoadFault>
    requires opened { is_open (Lb.asked library.old) which ≡ true }
    ensures reads { ToldRead result (Lb.left library.old which) }
    ensures ascends { IfOk result (λ documents. ascending (map document_of documents.items)
        ≡ true) }
    ensures within { IfOk result
        (λ documents. length (map document_of documents.items) ≤ most_documents) }
    ensures fault { IfErr result (ReadFails (Lb.read_faults library.old)
        (Lb.read_faults library.new)) }
    ensures calls { OnlyReads Lb.files Lb.asked Lb.open_faults Lb.read_faults library.old
        library.new }
{
    let mut loading = Loading::new(alloc);
    let mut lines = Lines::new(alloc, which);
    while let Some(line) = lines.next(library)? {
        if let Err(refusal) = loading.take_line(line.bytes.as_slice()) {
            return Err(refused(line.number, refusal));
        }
    }
    Ok(loading.into_docs()?)
}

// The fault that one of the store's documents is, which are not too many.
fn store_fault(fault: PrepareFault) -> LoadFault
    requires { IsNotFull fault }
    ensures { result ≡ of_store_fault fault }
{
    match fault {
        PrepareFault::Full => unreachable!(),
        PrepareFault::Dangling { from, to } => LoadFault::Dangling { from, to },
        PrepareFault::NoMemory => LoadFault::NoMemory,
    }
}

// The store of the documents, where no reference of them dangles.
fn with_references(alloc: Global, documents: Vec<Doc>) -> Result<Docs, LoadFault>
    requires ascends { ascending (map document_of documents.items) ≡ true }
    requires within { length (map document_of documents.items) ≤ most_documents }
    ensures loads { Loads result (of_references (map document_of documents.items)
        (first_dangling (map document_of documents.items))) }
    ensures fault { (before now : ℕ) → IfErr result (ReadFails before now) }
{
    match Docs::gathered(alloc, documents) {
        Ok(docs) => Ok(docs),
        Err(fault) => Err(store_fault(fault)),
    }
}

// The documents under an opened number.
fn load_opened<Lb: Library>(alloc: Global, library: &mut Lb, which: u32) -> Result<Docs, LoadFault>
    requires opened { is_open (Lb.asked library.old) which ≡ true }
    ensures loads { ToldLoad result (Lb.left library.old which) }
    ensures fault { IfErr result (ReadFails (Lb.read_faults library.old)
        (Lb.read_faults library.new)) }
    ensures calls { OnlyReads Lb.files Lb.asked Lb.open_faults Lb.read_faults library.old
        library.new }
{
    let documents = read_lines(alloc, library, which)?;
    with_references(alloc, documents)
}

/// The documents of the data file of the name, and no other name is asked for.
///
/// Each line that is not blank is one document. A text that it gives as `_rev`, `_createdAt` or
/// `_updatedAt` is kept; without one, `_rev` becomes `import` and the two moments become
/// `1970-01-01T00:00:00Z`.
///
/// `LoadFault::Open` and `LoadFault::Read` come only where the library's count of failed opens, or
/// of failed reads, rose. `LoadFault::TooLong`, `LoadFault::TooMuch` and `LoadFault::Bad` come
/// exactly where the first line that has a fault has this one, and `LoadFault::Dangling` exactly
/// where no line has one and a strong reference names no document.
pub fn load<Lb: Library>(alloc: Global, library: &mut Lb, name: &str) -> Result<Docs, LoadFault>
    ensures loads { ToldLoad result (told_bytes (Lb.files library.old) name.now) }
    ensures causes { LoadHasCause result
        (Lb.open_faults library.old)
        (Lb.open_faults library.new)
        (Lb.read_faults library.old)
        (Lb.read_faults library.new) }
    ensures files { Lb.files library.new ≡ Lb.files library.old }
    ensures names { AsksFor result (Lb.asked library.old) (Lb.asked library.new) name.now }
{
    match library.open(name) {
        Ok(which) => load_opened(alloc, library, which),
        Err(_) => Err(LoadFault::Open),
    }
}

//! The top call: the words, and then the data file and the lines of the script, or a generated
//! script.
ghost use Rattle.std.specs.Prelude.{◌≡◌, ◌≢◌, ◌≤◌, ℕ, OnOk, IfErr, length, true, false, option_map};
ghost use Rattle.std.specs.Io.KnownBytes.{Appends};
ghost use Rattle.cs_docs.specs.Store.{docs as docs_of};
ghost use Rattle.cs_io.specs.Causes.{Rose};
ghost use Rattle.cs_io.specs.Lines.{longest_line};
ghost use Rattle.cs_io.specs.Names.{is_open};
ghost use Rattle.cs_reply.specs.Stated.{stated_line};
ghost use Rattle.cs_reply.specs.View.{stop as stop_seen, cause as cause_seen};
ghost use Rattle.cs_core.specs.Core.{state, IsSound};
ghost use Rattle.cs_core.specs.Does.{step_writes, step_state};
ghost use Rattle.cs_core.specs.Visits.{CostsAtMost, is_simple_line, line_cost};
ghost use Rattle.cs_run.specs.Expected.{Causes, stop_status};
ghost use Rattle.cs_run.specs.Headline.{ToldRun, Asks, RefusedWrites, GeneratedWrites, IsComplete, added, names_of, task_of};
ghost use Rattle.cs_load.specs.Loading.{LoadHasCause, cause_of, stop_of};
ghost use Rattle.cs_run.specs.Script.{Stated, LineStops, ToldWrites, ToldStarts, AsksNamed, DataEnds};
ghost use Rattle.cs_machine.specs.Expected.{play, generate};
ghost use Rattle.cs_machine.specs.State.{begun};
ghost use Rattle.cs_args.specs.Words.{takes_words, most_generated};
ghost use Rattle.cs_run.specs.Visits.{RunCosts, ScriptCosts};

use crate::generate::summarize;
use crate::status::Status;
use cs_args::{Task, WordsFault, read_words};
use cs_core::{Core, simple_lines_keep_lives_simple};
use cs_docs::Docs;
use cs_io::{Library, Line, LineFault, Lines, Sink, write_whole};
use cs_load::{DataCause, LoadFault, load};
use cs_reply::{Cause, Source, Stop};
use cs_value::{Steps, Txt};
use std::alloc::Global;
use std::hash::RandomState;
use std::mem;
use std::sync::ledger::Ledger;

/// What is written where the words are refused.
const USAGE: &[u8] = b"{\"error\":\"usage\"}\n";

// Writes the line that goes with the status.
fn answer<K: Sink>(sink: &mut K, line: &[u8], status: Status) -> Status
    requires { (status ≢ Status.WriteFault) × (status ≢ Status.NoMemory) }
    ensures stated { Stated result status line.now (K.taken sink.old) (K.taken sink.new) }
    ensures later { K.faults sink.old ≤ K.faults sink.new }
    ensures cause { result ≡ Status.WriteFault → Rose (K.faults sink.old) (K.faults sink.new) }
    ensures ends { result ≢ Status.NoMemory }
    ensures same { result ≢ Status.WriteFault → result ≡ status }
{
    match write_whole(sink, line) {
        Ok(()) => status,
        Err(_) => Status::WriteFault,
    }
}

// The status of a run that something stops.
fn stop_status(stop: &Stop<'_>) -> Status
    ensures { result ≡ stop_status (stop_seen stop.now) }
{
    match stop {
        Stop::TooLong { source: _, line: _ } | Stop::TooMuch { source: _, line: _ } =>
            Status::Input,
        Stop::Bad { line: _, cause: _ } | Stop::Dangling { from: _, to: _ } => Status::Data,
    }
}

// Ends the run that something stops: the line that says so is written.
fn end_stopped<K: Sink>(alloc: Global, sink: &mut K, stop: &Stop<'_>) -> Status
    ensures stated { Stated result (stop_status (stop_seen stop.now))
        (stated_line (stop_seen stop.now)) (K.taken sink.old) (K.taken sink.new) }
    ensures later { K.faults sink.old ≤ K.faults sink.new }
    ensures cause { result ≡ Status.WriteFault → Rose (K.faults sink.old) (K.faults sink.new) }
    ensures ends { (result ≢ Status.OpenFault) × (result ≢ Status.ReadFault)
        × (result ≢ Status.Usage) }
{
    match stop.line(alloc) {
        Ok(line) => answer(sink, line.as_slice(), stop_status(stop)),
        Err(_) => Status::NoMemory,
    }
}

// Runs one line, and writes its replies.
fn run_line<K: Sink, L: Ledger>(
    core: &mut Core,
    line: &Line,
    sink: &mut K,
    steps: &mut Steps<L>,
) -> Result<(), Status>
    requires short { length line.now.bytes.items ≤ longest_line }
    requires sound { IsSound core.old }
    ensures writes { OnOk result (Appends (K.taken sink.old) (K.taken sink.new)
        (step_writes (state core.old) line.now.number line.now.bytes.items)) }
    ensures state { OnOk result (state core.new ≡ step_state (state core.old) line.now.number
        line.now.bytes.items) }
    ensures sound { IsSound core.new }
    ensures stops { IfErr result (λ status. LineStops status (K.taken sink.old) (K.taken sink.new)
        (step_writes (state core.old) line.now.number line.now.bytes.items)) }
    ensures later { K.faults sink.old ≤ K.faults sink.new }
    ensures cause { IfErr result (λ status. status ≡ Status.WriteFault → Rose (K.faults sink.old)
        (K.faults sink.new)) }
    ensures costs { CostsAtMost (is_simple_line line.now.number line.now.bytes.items)
        (line_cost (state core.old) line.now.number line.now.bytes.items) (state core.old)
        steps.old steps.new }
{
    let Ok(replies) = core.step(line, steps) else {
        return Err(Status::NoMemory);
    };
    match write_whole(sink, replies.bytes()) {
        Ok(()) => Ok(()),
        Err(_) => Err(Status::WriteFault),
    }
}

fn cause(cause: &DataCause) -> Cause<'_>
    ensures { cause_seen result ≡ cause_of cause.entry.now }
{
    match cause {
        DataCause::NotJson => Cause::NotJson,
        DataCause::TooDeep => Cause::TooDeep,
        DataCause::NotWhole => Cause::NotWhole,
        DataCause::BadDocument => Cause::BadDocument,
        DataCause::Repeated { id } => Cause::Repeated { id: id.as_str() },
        DataCause::FullDocuments => Cause::FullDocuments,
    }
}

// What a data file is stopped by. `None` where the outside failed, or memory was short.
fn stop(fault: &LoadFault) -> Option<Stop<'_>>
    ensures { option_map stop_seen result ≡ stop_of fault.entry.now }
{
    match fault {
        LoadFault::Open | LoadFault::Read | LoadFault::NoMemory => None,
        LoadFault::TooLong { line } => Some(Stop::TooLong {
            source: Source::Data,
            line: *line,
        }),
        LoadFault::TooMuch { line } => Some(Stop::TooMuch {
            source: Source::Data,
            line: *line,
        }),
        LoadFault::Bad { line, cause: why } => Some(Stop::Bad {
            line: *line,
            cause: cause(why),
        }),
        LoadFault::Dangling { from, to } => Some(Stop::Dangling {
            from: from.as_str(),
            to: to.as_str(),
        }),
    }
}

// How the run ends whose data file was not loaded.
fn refuse_data<K: Sink>(alloc: Global, sink: &mut K, fault: &LoadFault) -> Status
    ensures ends { DataEnds fault.now result (K.taken sink.old) (K.taken sink.new) }
    ensures later { K.faults sink.old ≤ K.faults sink.new }
    ensures cause { result ≡ Status.WriteFault → Rose (K.faults sink.old) (K.faults sink.new) }
    ensures opened { result ≡ Status.OpenFault → fault.now ≡ LoadFault.Open }
    ensures read { result ≡ Status.ReadFault → fault.now ≡ LoadFault.Read }
    ensures usage { result ≢ Status.Usage }
{
    if let Some(stop) = stop(fault) {
        return end_stopped(alloc, sink, &stop);
    }
    match fault {
        LoadFault::Open => Status::OpenFault,
        LoadFault::Read => Status::ReadFault,
        _ => Status::NoMemory,
    }
}

// The documents with which the script begins: those of the data file, where one is named.
fn load_named<Lb: Library>(
    alloc: Global,
    library: &mut Lb,
    name: Option<&str>,
) -> Result<Docs, LoadFault>
    ensures starts { ToldStarts result (option_map (λ n. n.now) name.entry) (Lb.files library.old) }
    ensures causes { LoadHasCause result (Lb.open_faults library.old) (Lb.open_faults library.new)
        (Lb.read_faults library.old) (Lb.read_faults library.new) }
    ensures files { Lb.files library.new ≡ Lb.files library.old }
    ensures names { AsksNamed (option_map (λ n. n.now) name.entry) result (Lb.asked library.old)
        (Lb.asked library.new) }
{
    match name {
        Some(name) => load(alloc, library, name),
        None => Ok(Docs::new(alloc)),
    }
}

// Runs the lines of the script under an opened number, from these documents on.
fn run_script<Lb: Library, K: Sink, L: Ledger>(
    alloc: Global,
    seed: RandomState,
    number: u32,
    docs: Docs,
    library: &mut Lb,
    sink: &mut K,
    steps: &mut Steps<L>,
) -> Status
    requires { is_open (Lb.asked library.old) number ≡ true }
    ensures writes { ToldWrites (begun (docs_of docs)) result (K.taken sink.old) (K.taken sink.new)
        (Lb.left library.old number) (Lb.left library.new number) }
    ensures causes { Causes result (Lb.open_faults library.old) (Lb.open_faults library.new)
        (Lb.read_faults library.old) (Lb.read_faults library.new) (K.faults sink.old)
        (K.faults sink.new) }
    ensures files { Lb.files library.new ≡ Lb.files library.old }
    ensures asked { Lb.asked library.new ≡ Lb.asked library.old }
    ensures ends { (result ≢ Status.OpenFault) × (result ≢ Status.Usage) }
    ensures costs { ScriptCosts (begun (docs_of docs)) (Lb.left library.old number)
        steps.old steps.new }
{
    simple_lines_keep_lives_simple();
    let Ok(mut core) = Core::new(alloc, seed, docs) else {
        return Status::NoMemory;
    };
    let mut lines = Lines::new(alloc, number);
    'turns: loop {
        match lines.next(library) {
            Ok(Some(line)) => {
                if let Err(status) = run_line(&mut core, &line, sink, steps) {
                    return status;
                }
            }
            Ok(None) => {
                // A run is the last thing that the process does, so the documents are not taken
                // apart one by one.
                mem::forget(core);
                return Status::Done;
            }
            Err(LineFault::Read) => return Status::ReadFault,
            Err(LineFault::TooLong { line }) => {
                let source = Source::Script;
                return end_stopped(alloc, sink, &Stop::TooLong { source, line });
            }
            Err(LineFault::TooMuch { line }) => {
                let source = Source::Script;
                return end_stopped(alloc, sink, &Stop::TooMuch { source, line });
            }
            Err(LineFault::NoMemory) => return Status::NoMemory,
        }
    }
}

// Plays the script of a name, over the data file of a name where one is given.
fn play_files<Lb: Library, K: Sink, L: Ledger>(
    alloc: Global,
    seed: RandomState,
    file: Option<&str>,
    script: &str,
    library: &mut Lb,
    sink: &mut K,
    steps: &mut Steps<L>,
) -> Status
    ensures writes { ToldRun result (play (option_map (λ n. n.now) file.entry) script.now)
        (K.taken sink.old) (K.taken sink.new) (Lb.files library.old)
        (added (Lb.asked library.old) (Lb.asked library.new)) (Lb.left library.new) }
    ensures causes { Causes result (Lb.open_faults library.old) (Lb.open_faults library.new)
        (Lb.read_faults library.old) (Lb.read_faults library.new) (K.faults sink.old)
        (K.faults sink.new) }
    ensures names { Asks (Lb.asked library.old) (Lb.asked library.new)
        (names_of (play (option_map (λ n. n.now) file.entry) script.now)) }
    ensures usage { result ≢ Status.Usage }
    ensures costs { RunCosts (play (option_map (λ n. n.now) file.entry) script.now)
        (Lb.files library.old) steps.old steps.new }
{
    let docs = match load_named(alloc, library, file) {
        Ok(docs) => docs,
        Err(fault) => {
            let status = refuse_data(alloc, sink, &fault);
            drop(fault);
            return status;
        }
    };
    match library.open(script) {
        Ok(number) => run_script(alloc, seed, number, docs, library, sink, steps),
        Err(_) => Status::OpenFault,
    }
}

// Plays the generated script of so many documents, and writes the summary alone.
fn sum_up<K: Sink, L: Ledger>(
    alloc: Global,
    seed: RandomState,
    documents: u32,
    sink: &mut K,
    steps: &mut Steps<L>,
) -> Status
    requires few { documents ≤ most_generated }
    ensures writes { GeneratedWrites documents result (K.taken sink.old) (K.taken sink.new) }
    ensures later { K.faults sink.old ≤ K.faults sink.new }
    ensures cause { result ≡ Status.WriteFault → Rose (K.faults sink.old) (K.faults sink.new) }
{
    match summarize(alloc, seed, documents, steps) {
        Ok(line) => answer(sink, line.as_slice(), Status::Done),
        Err(_) => Status::NoMemory,
    }
}

/// Runs the program: the words of its command line, of which the first is the program's name, over
/// the library's files, with what is due written to the sink. `steps` counts the visits of
/// documents. Nothing that is written depends on `seed`: with one that no one can foresee, no one
/// who chooses the documents knows which keys the index of the documents confuses.
///
/// The words are `--data NAME`, `--script NAME` and `--gen N`, each at most once; the script's name
/// is `-` where none is given. The data file is loaded before the script is opened, and each line
/// of the script is read, run and answered before the next one is asked for. With `--gen`, a whole
/// number from 0 to 100,000, no name is asked for: the generated script of so many documents is
/// played, and its summary written in the place of its replies. [`Status`] says how the run ended
/// and what was written.
///
/// Where each query of the script is refused or simple, `steps` rises by at most the sum of their
/// costs, each over the documents that it is asked of: no commit adds to it.
pub fn run<Lb: Library, K: Sink, L: Ledger>(
    alloc: Global,
    seed: RandomState,
    words: &[Txt],
    library: &mut Lb,
    sink: &mut K,
    steps: &mut Steps<L>,
) -> Status
    ensures writes { ToldRun result (task_of words.now) (K.taken sink.old) (K.taken sink.new)
        (Lb.files library.old) (added (Lb.asked library.old) (Lb.asked library.new))
        (Lb.left library.new) }
    ensures causes { Causes result (Lb.open_faults library.old) (Lb.open_faults library.new)
        (Lb.read_faults library.old) (Lb.read_faults library.new) (K.faults sink.old)
        (K.faults sink.new) }
    ensures names { Asks (Lb.asked library.old) (Lb.asked library.new)
        (names_of (task_of words.now)) }
    ensures usage { result ≡ Status.Usage → takes_words words.now ≡ false }
    ensures refused { takes_words words.now ≡ false → RefusedWrites result (K.taken sink.old)
        (K.taken sink.new) }
    ensures generated { (n : ℕ) → task_of words.now ≡ generate n → GeneratedWrites n result
        (K.taken sink.old) (K.taken sink.new) }
    ensures completes { IsComplete result (task_of words.now) (Lb.files library.old)
        (Lb.open_faults library.old) (Lb.open_faults library.new) (Lb.read_faults library.old)
        (Lb.read_faults library.new) (K.faults sink.old) (K.faults sink.new) }
    ensures costs { RunCosts (task_of words.now) (Lb.files library.old) steps.old steps.new }
{
    match read_words(alloc, words) {
        Ok(Task::Play { data: file, script }) => play_files(
            alloc, seed, file, script, library, sink, steps,
        ),
        Ok(Task::Generate { documents }) => sum_up(alloc, seed, documents, sink, steps),
        Err(WordsFault::Refused) => answer(sink, USAGE, Status::Usage),
        Err(WordsFault::NoMemory) => Status::NoMemory,
    }
}

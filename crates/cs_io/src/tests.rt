//! Lines, and libraries and sinks that fail, in memory.
ghost use Rattle.std.specs.Prelude.{◌<◌, ◌≡◌, true, [], IfOk};
ghost use Rattle.cs_io.specs.Names.{is_open};

use crate::{FileLibrary, Library, Line, Lines, MemLibrary, MemSink, OutSink, Sink, write_whole};
use cs_value::Txt;
use std::alloc::{AllocError, Global};
use std::fs;
use std::test::Fail;

// What was read under a number before a read gave nothing or failed.
#[derive(Drop)]
struct Seen {
    bytes: Vec<u8>,
    reads: u32,
    failed: bool,
}

fn read_on<Lb: Library>(alloc: Global, library: &mut Lb, which: u32) -> Result<Seen, AllocError>
    requires { is_open (Lb.asked library.old) which ≡ true }
{
    let mut bytes = Vec::new(alloc);
    let mut piece = [0u8; 4];
    for reads in 0..100 {
        match library.read(which, &mut piece) {
            Ok(0) => return Ok(Seen {
                bytes,
                reads,
                failed: false,
            }),
            Ok(count) => bytes.extend_from_slice(&piece[..count])?,
            Err(_) => return Ok(Seen {
                bytes,
                reads,
                failed: true,
            }),
        }
    }
    Ok(Seen {
        bytes,
        reads: 100,
        failed: false,
    })
}

// A library in memory whose call of one number fails.
fn mem_library(
    alloc: Global,
    held: &[(&str, &str)],
    piece: usize,
    fail: u64,
) -> Result<MemLibrary, AllocError>
    requires { 0 < piece }
    ensures { IfOk result (λ library. ⟦<MemLibrary as Library>⟧.asked library ≡ []) }
{
    let mut files = Vec::new(alloc);
    for (name, bytes) in held {
        let name = Txt::from_string(String::from_str(alloc, name)?);
        files.push((name, Vec::from_slice(alloc, bytes.as_bytes())?))?;
    }
    Ok(MemLibrary::new(alloc, files, piece, Vec::from_slice(alloc, &[fail])?))
}

#[test]
fn mem_library_gives_pieces_and_fails_the_numbered_calls(rt: HostRuntime) -> Result<(), Fail> {
    let held = [("a", "hello"), ("b", ""), ("a", "later")];
    // the bytes that were read, in how many reads, and whether a read failed; none where the open
    // did
    let cases = [
        ("a", 9, 0, Some(("hello", 2, false))),
        ("a", 4, 0, Some(("hello", 2, false))),
        ("a", 2, 0, Some(("hello", 3, false))),
        ("a", 1, 0, Some(("hello", 5, false))),
        ("b", 1, 0, Some(("", 0, false))),
        ("c", 1, 0, None),
        ("a", 2, 1, None),
        ("a", 2, 2, Some(("", 0, true))),
        ("a", 2, 4, Some(("hell", 2, true))),
        ("a", 2, 6, Some(("hello", 3, false))),
    ];
    for (name, piece, fail, want) in cases {
        let mut library = mem_library(rt.alloc(), &held, piece, fail)?;
        let opened = library.open(name);
        assert_eq!(rt; opened.is_ok(), want.is_some(), "{name} {fail}");
        if let (Ok(number), Some((bytes, reads, failed))) = (opened, want) {
            let seen = read_on(rt.alloc(), &mut library, number)?;
            assert_eq!(rt;
                seen.bytes.as_slice(),
                bytes.as_bytes(),
                "{name} {piece} {fail}"
            );
            assert_eq!(rt; seen.reads, reads, "{name} {piece} {fail}");
            assert_eq!(rt; seen.failed, failed, "{name} {piece} {fail}");
        }
    }
    Ok(())
}

#[test]
fn mem_sink_takes_pieces_whole_and_fails_the_numbered_writes(rt: HostRuntime) -> Result<(), Fail> {
    for (fail, want) in [
        (0, "abcdef"),
        (1, "cdef"),
        (2, "abef"),
        (3, "abcd"),
        (4, "abcdef"),
    ] {
        let mut sink = MemSink::new(rt.alloc(), Vec::from_slice(rt.alloc(), &[fail])?);
        for (number, text) in [(1, "ab"), (2, "cd"), (3, "ef")] {
            let wrote = write_whole(&mut sink, text.as_bytes());
            assert_eq!(rt; wrote.is_ok(), number != fail, "{number} {fail}");
        }
        assert_eq!(rt; sink.taken(), want.as_bytes(), "{fail}");
    }
    Ok(())
}

#[test]
fn file_library_reads_a_file_and_refuses_a_missing_name(rt: HostRuntime) -> Result<(), Fail> {
    let path = "cs_io_file_library_test";
    fs::write(&rt, path, "two\nlines")?;
    let mut library = FileLibrary::new(rt.alloc(), &rt);
    let opened = library.open(path);
    assert!(rt; opened.is_ok());
    if let Ok(number) = opened {
        let seen = read_on(rt.alloc(), &mut library, number)?;
        assert_eq!(rt; seen.bytes.as_slice(), b"two\nlines".as_slice());
        assert!(rt; !seen.failed);
    }
    fs::remove_file(&rt, path)?;
    assert!(rt; library.open(path).is_err());
    assert!(rt; library.open("-").is_ok());
    Ok(())
}

#[test]
fn out_sink_writes(rt: HostRuntime) -> Result<(), Fail> {
    let mut sink = OutSink::new(&rt);
    assert!(rt; write_whole(&mut sink, b"written\n".as_slice()).is_ok());
    let nothing = sink.write(b"".as_slice());
    assert!(rt; nothing == Ok(0));
    Ok(())
}

// The lines under a number, or none where a line has another number than its place, or a fault
// came.
fn lines_under<Lb: Library>(
    alloc: Global,
    library: &mut Lb,
    which: u32,
) -> Result<Option<Vec<Line>>, AllocError>
    requires { is_open (Lb.asked library.old) which ≡ true }
{
    let mut given = Vec::new(alloc);
    let mut lines = Lines::new(alloc, which);
    for before in 0..100 {
        match lines.next(library) {
            Ok(Some(line)) if line.number == before + 1 => given.push(line)?,
            Ok(None) => return Ok(Some(given)),
            _ => return Ok(None),
        }
    }
    Ok(None)
}

#[test]
fn lines_are_the_same_in_any_pieces(rt: HostRuntime) -> Result<(), Fail> {
    let cases = [
        ("", [].as_slice()),
        ("\n", [""].as_slice()),
        ("a", ["a"].as_slice()),
        ("ab\n", ["ab"].as_slice()),
        ("ab\n\n", ["ab", ""].as_slice()),
        ("\n\nabc", ["", "", "abc"].as_slice()),
        ("ab\ncde", ["ab", "cde"].as_slice()),
        ("abcdef\r\n \t\ng\n", ["abcdef\r", " \t", "g"].as_slice()),
    ];
    for (source, want) in cases {
        for piece in [1, 2, 3, 65_536] {
            let mut library = mem_library(rt.alloc(), &[("a", source)], piece, 0)?;
            let number = library.open("a").expect(&rt, "the file is held");
            let lines = lines_under(rt.alloc(), &mut library, number)?.expect(&rt, "no call fails");
            assert_eq!(rt; lines.len(), want.len(), "{source} {piece}");
            for (line, bytes) in lines.iter().zip(want) {
                assert_eq!(rt; line.bytes.as_slice(), bytes.as_bytes(), "{source} {piece}");
            }
        }
    }
    Ok(())
}

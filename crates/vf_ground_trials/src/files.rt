//! Files and output in memory, which fail at calls with numbers that are told before.

use std::alloc::Global;
use std::process::Abort;
use std::test::Fail;
use vf_base::{
    FileFault, Files, MemoryFiles, MemorySink, NumberList, PutFault, Sink, SinkFault, SureFiles,
    SureSink, write_all,
};

/// The list of one number.
fn only(alloc: Global, number: u64) -> Result<NumberList, Fail> {
    let mut list = NumberList::new(alloc);
    list.push(number)?;
    Ok(list)
}

/// Reads from a file, and compares.
fn check_read<F: Files>(
    rt: &impl Abort,
    alloc: Global,
    files: &mut F,
    path: &str,
    wanted: (Result<(), FileFault>, &str),
) {
    let mut into = Vec::new(alloc);
    let answer = files.read(path, 4, &mut into);
    assert!(rt; answer == wanted.0, "at {path}");
    assert!(rt; into.as_slice() == wanted.1.as_bytes(), "at {path}");
}

/// A read gives one byte more than was asked for, where the file has as many; a call that fails changes nothing.
#[test]
fn files_fail_at_their_call(rt: HostRuntime) -> Result<(), Fail> {
    let mut files = MemoryFiles::new(rt.alloc(), only(rt.alloc(), 1)?);
    files.set("a.c", b"first")?;
    files.set("a.c", b"second")?;
    for (path, answer, text) in [
        ("a.c", Ok(()), "secon"),
        ("a.c", Err(FileFault::Failed), ""),
        ("b.c", Err(FileFault::Missing), ""),
    ] {
        check_read(&rt, rt.alloc(), &mut files, path, (answer, text));
    }
    assert_eq!(rt; files.put("b.c", b"new"), Ok(()));
    assert!(rt; files.at("b.c") == Some(b"new".as_slice()));
    let mut failing = MemoryFiles::new(rt.alloc(), only(rt.alloc(), 0)?);
    assert_eq!(rt; failing.put("b.c", b"new"), Err(PutFault::Failed));
    assert!(rt; failing.at("b.c").is_none());
    Ok(())
}

#[test]
fn sure_files_never_fail(rt: HostRuntime) -> Result<(), Fail> {
    let mut files = SureFiles::new(rt.alloc());
    files.set("a.c", b"first")?;
    assert_eq!(rt; files.put("b.c", b"new"), Ok(()));
    for (path, answer, text) in [
        ("a.c", Ok(()), "first"),
        ("b.c", Ok(()), "new"),
        ("c.c", Err(FileFault::Missing), ""),
    ] {
        check_read(&rt, rt.alloc(), &mut files, path, (answer, text));
    }
    assert!(rt; files.at("a.c") == Some(b"first".as_slice()));
    Ok(())
}

/// A write takes at most four bytes here, and the one with number 1 fails; all of a piece is written by more than one.
#[test]
fn sinks_take_pieces(rt: HostRuntime) -> Result<(), Fail> {
    let mut sink = MemorySink::new(rt.alloc(), only(rt.alloc(), 1)?, 4);
    for (piece, answer) in [
        ("abcdef", Ok(4)),
        ("gh", Err(SinkFault::Failed)),
        ("ij", Ok(2)),
    ] {
        assert!(rt; sink.write(piece.as_bytes()) == answer, "at {piece}");
    }
    assert_eq!(rt; write_all(&mut sink, b"012345"), Ok(()));
    assert_eq!(rt; sink.taken(), b"abcdij012345".as_slice());
    let mut sure = SureSink::new(rt.alloc());
    assert_eq!(rt; write_all(&mut sure, b"one"), Ok(()));
    assert_eq!(rt; sure.taken(), b"one".as_slice());
    Ok(())
}

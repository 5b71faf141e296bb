use std::alloc::{AllocError, Global};
use std::test::Fail;
use vf_asking::Journal;
use vf_base::{MemoryFiles, MemorySink, NumberList};
use vf_tool::{Status, run_words};

/// The words of a call that runs `a.c`.
fn words(alloc: Global) -> Result<Vec<String>, AllocError> {
    let mut all = Vec::new(alloc);
    for word in ["run", "s.json", "a.c"] {
        all.push(word.to_string(alloc)?)?;
    }
    Ok(all)
}

/// A schedule and an empty file, of which the reads with these numbers fail.
fn files(alloc: Global, fails: NumberList) -> Result<MemoryFiles, Fail> {
    let mut files = MemoryFiles::new(alloc, fails);
    files.set("s.json", b"[0]".as_slice())?;
    files.set("a.c", b"".as_slice())?;
    Ok(files)
}

/// The second read fails, which is that of the file.
#[test]
fn a_failing_read(rt: HostRuntime) -> Result<(), Fail> {
    let alloc = rt.alloc();
    let mut fails = NumberList::new(alloc);
    fails.push(1)?;
    let mut files = files(alloc, fails)?;
    let mut out = MemorySink::new(alloc, NumberList::new(alloc), 4);
    let mut journal = Journal::new(alloc);
    let words = words(alloc)?;
    let status = run_words(alloc, &words, &mut files, &mut out, &mut journal);
    assert_eq!(rt; status, Status::ReadFault);
    assert!(rt; out.taken().is_empty());
    Ok(())
}

/// The third write of four bytes fails, so that only what the first two took is printed.
#[test]
fn a_failing_write(rt: HostRuntime) -> Result<(), Fail> {
    let alloc = rt.alloc();
    let mut fails = NumberList::new(alloc);
    fails.push(2)?;
    let mut files = files(alloc, NumberList::new(alloc))?;
    let mut out = MemorySink::new(alloc, fails, 4);
    let mut journal = Journal::new(alloc);
    let words = words(alloc)?;
    let status = run_words(alloc, &words, &mut files, &mut out, &mut journal);
    assert_eq!(rt; status, Status::WriteFault);
    assert!(rt; out.taken() == b"a.c:1:1:".as_slice());
    Ok(())
}

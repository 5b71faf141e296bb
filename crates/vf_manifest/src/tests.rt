use super::*;
use std::alloc::Global;
use std::test::*;
use vf_base::Text;

const TEXT: &[u8] = b".vfmanifest 2\n\
.body a.h#p a.c\n\
.calls a.c#l <threading.h>#m\n\
.claims a.c#f <threading.h>#thread_run\n\
.instance <threading.h>#thread_run_data a.c#f a.c\n\
.provides a.c#f void(void*)\n\
.provides a.c#l lemma/10(list<pair<$9,$10>>,pred(),pred(int,$2),pred,ptr)\n\
.provides a.c#main int()\n\
.requires a.h#g fn:t*(struct:s*,int,ullong)\n\
.struct a.h#s a.h\n\
.uses a.h e3b0c44298fc1c149afbf4c8996fb92427ae41e4649b934ca495991b7852b855\n";

/// The text of a manifest in version 2.
fn upgraded(alloc: Global, bytes: &[u8]) -> Option<Text> {
    if bytes.len() > MOST_BYTES {
        return None;
    }
    let manifest = read_manifest(alloc, bytes).ok()?;
    write_manifest(alloc, &manifest).ok()
}

/// Whether a text becomes another in version 2.
fn becomes(alloc: Global, bytes: &[u8], wanted: &[u8]) -> bool {
    match upgraded(alloc, bytes) {
        Some(text) => text.has_bytes(wanted),
        None => false,
    }
}

/// The line of a text that is at fault, or 0.
fn line_at_fault(alloc: Global, bytes: &[u8]) -> u32 {
    if bytes.len() > MOST_BYTES {
        return 0;
    }
    match read_manifest(alloc, bytes) {
        Err(ManifestFault::Syntax { line }) => line,
        _ => 0,
    }
}

#[test]
fn reads_and_writes(rt: HostRuntime) {
    let alloc = rt.alloc();
    assert!(rt; becomes(alloc, TEXT, TEXT));
    let first = b".vfmanifest 1\n.provides four.c#f\n";
    assert!(rt; becomes(alloc, first, b".vfmanifest 2\n.provides four.c#f ?\n"));
    let empty = b"e3b0c44298fc1c149afbf4c8996fb92427ae41e4649b934ca495991b7852b855";
    let hashed = digest(alloc, b"");
    assert!(rt; matches!(&hashed, Ok(text) if text.has_bytes(empty)));
}

#[test]
fn faults(rt: HostRuntime) {
    let alloc = rt.alloc();
    assert_eq!(rt; line_at_fault(alloc, b".vfmanifest 3\n"), 1);
    let cut = b".vfmanifest 2\n.provides four.c#f int(int)";
    assert_eq!(rt; line_at_fault(alloc, cut), 2);
    let twice = b".vfmanifest 2\n.provides a.c#f int()\n.provides a.c#f int(int)\n";
    assert_eq!(rt; line_at_fault(alloc, twice), 3);
    let no_sort = b".vfmanifest 2\n.provides a.c#f lemma/0(list<>)\n";
    assert_eq!(rt; line_at_fault(alloc, no_sort), 2);
}

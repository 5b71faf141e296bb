use super::*;
use std::alloc::Global;
use std::test::*;
use vf_base::{Memory, Rule, Sequence};
use vf_manifest::{MOST_BYTES, Manifest, read_manifest};

/// The manifests that texts stand for, as far as they do.
fn manifests_of(alloc: Global, texts: &[&[u8]]) -> Result<Vec<Manifest>, Memory> {
    let mut manifests = Vec::new(alloc);
    for text in texts {
        if text.len() <= MOST_BYTES {
            if let Ok(manifest) = read_manifest(alloc, *text) {
                manifests.push(manifest)?;
            }
        }
    }
    Ok(manifests)
}

/// Whether manifests with these texts are refused by this rule.
fn refused_by(alloc: Global, texts: &[&[u8]], rule: Rule) -> bool {
    match manifests_of(alloc, texts) {
        Ok(manifests) => match link_manifests(alloc, manifests.as_slice()) {
            Err(LinkFault::Refused(refusal)) => refusal.rule() == rule,
            _ => false,
        },
        Err(_) => false,
    }
}

/// Whether manifests with these texts link, and this is the order of their calls.
fn ordered(alloc: Global, texts: &[&[u8]], order: &[&[u8]]) -> bool {
    match manifests_of(alloc, texts) {
        Ok(manifests) => match link_manifests(alloc, manifests.as_slice()) {
            Ok(linked) => is_order(&linked.call_order, order),
            Err(_) => false,
        },
        Err(_) => false,
    }
}

/// Whether these are the texts in a list.
fn is_order(found: &Sequence<vf_base::Text>, order: &[&[u8]]) -> bool {
    if found.len() != order.len() {
        return false;
    }
    for at in 0..order.len() {
        match found.get(at) {
            Some(text) if text.has_bytes(order[at]) => {}
            _ => return false,
        }
    }
    true
}

const MAIN: &[u8] = b".vfmanifest 2\n.provides m.c#main int()\n.requires x.h#f int()\n";

#[test]
fn refusals(rt: HostRuntime) {
    let alloc = rt.alloc();
    let given: &[u8] = b".vfmanifest 2\n.provides x.h#f int()\n";
    let other: &[u8] = b".vfmanifest 2\n.provides x.h#f int(int)\n";
    assert!(rt; refused_by(alloc, &[given], Rule::NoMain));
    assert!(rt; refused_by(alloc, &[MAIN, MAIN], Rule::NoMain));
    assert!(rt; refused_by(alloc, &[MAIN, given, other], Rule::Duplicate));
    assert!(rt; refused_by(alloc, &[MAIN], Rule::Unmet));
    assert!(rt; refused_by(alloc, &[MAIN, other], Rule::Signature));
    assert!(rt; ordered(alloc, &[MAIN, given], &[]));
}

#[test]
fn calls(rt: HostRuntime) {
    let alloc = rt.alloc();
    let main: &[u8] = b".vfmanifest 2\n.calls a.h#b a.h#c\n.provides m.c#main int()\n";
    let behind: &[u8] = b".vfmanifest 2\n.calls a.h#a a.h#b\n.calls a.h#a a.h#c\n";
    let back: &[u8] = b".vfmanifest 2\n.calls a.h#c a.h#a\n";
    let order: &[&[u8]] = &[b"a.h#c", b"a.h#b", b"a.h#a"];
    assert!(rt; ordered(alloc, &[main, behind], order));
    assert!(rt; refused_by(alloc, &[main, behind, back], Rule::LemmaCycle));
}

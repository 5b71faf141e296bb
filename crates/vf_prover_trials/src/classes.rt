//! Classes of equal terms of a table.

use crate::tables::terms;
use std::alloc::Global;
use std::test::Fail;
use vf_base::Memory;
use vf_congruence::Classes;
use vf_log::{Log, copy_table};
use vf_table::parts_are_below;

/// The classes of the table.
fn classes(alloc: Global) -> Result<Option<Classes>, Memory> {
    let nodes = terms(alloc)?;
    if nodes.len() >= 4096 {
        return Ok(None);
    }
    if !parts_are_below(&nodes) {
        return Ok(None);
    }
    let classes = Classes::new(alloc, nodes)?;
    Ok(Some(classes))
}

/// Makes two terms equal, and tells whether they are there.
fn merge(classes: &mut Classes, a: u32, b: u32) -> Result<bool, Memory> {
    if a >= classes.size() {
        return Ok(false);
    }
    if b >= classes.size() {
        return Ok(false);
    }
    classes.merge(a, b)?;
    Ok(true)
}

/// Whether two terms are there and equal.
fn are_same(classes: &Classes, a: u32, b: u32) -> bool {
    if a >= classes.size() {
        return false;
    }
    if b >= classes.size() {
        return false;
    }
    classes.same(a, b)
}

/// Each row has two terms, whether they are there, two others, and whether these are equal once the first are.
#[test]
fn equalities_follow(rt: HostRuntime) -> Result<(), Fail> {
    for (left, right, there, a, b, equal) in [
        (0, 0, true, 1, 6, false),
        (1, 6, true, 5, 7, true),
        (5, 7, true, 1, 6, false),
        (1, 8, false, 1, 6, false),
    ] {
        if let Some(mut classes) = classes(rt.alloc())? {
            assert_eq!(rt; classes.nodes().len(), 8);
            assert_eq!(rt; merge(&mut classes, left, right)?, there);
            assert_eq!(rt; are_same(&classes, a, b), equal);
        }
    }
    Ok(())
}

/// How many steps derive that a term is equal to itself; none where a number is none of a term.
#[tactic(auto, using(vf_congruence::proofs::Explained::no_reasons))]
fn steps_to_itself(alloc: Global, a: u32) -> Result<Option<usize>, Memory> {
    let nodes = terms(alloc)?;
    if nodes.len() >= 4096 {
        return Ok(None);
    }
    if !parts_are_below(&nodes) {
        return Ok(None);
    }
    let copy = copy_table(alloc, &nodes)?;
    let classes = Classes::new(alloc, nodes)?;
    if a >= classes.size() {
        return Ok(None);
    }
    let mut log = Log::new(alloc, copy, Vec::new(alloc));
    match classes.why(alloc, &mut log, &[], a, a)? {
        Some(_) => Ok(Some(log.known().len())),
        None => Ok(None),
    }
}

#[test]
fn equalities_are_derived(rt: HostRuntime) -> Result<(), Fail> {
    assert!(rt; steps_to_itself(rt.alloc(), 4)?.is_some());
    assert!(rt; steps_to_itself(rt.alloc(), 8)?.is_none());
    Ok(())
}

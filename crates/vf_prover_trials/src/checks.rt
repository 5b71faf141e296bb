//! Steps over a table of terms: those that refute facts, and others.

use crate::tables::terms;
use std::test::Fail;
use vf_log::Log;
use vf_refute::{Fact, Step, recheck};

/// The facts are `x <= x + 0 - 1`, which is refuted, and `x == y` and `y != x`.
#[test]
fn steps_refute_facts(rt: HostRuntime) -> Result<(), Fail> {
    let alloc = rt.alloc();
    let nodes = terms(alloc)?;
    let facts = [
        Fact::AtMost(1, 2, -1),
        Fact::Equal(1, 6),
        Fact::NotEqual(6, 1),
    ];
    let chain = [
        Step::Fact(0),
        Step::Above(2, 0),
        Step::Chain(0, 1),
        Step::Conflict(2),
    ];
    let unended = [Step::Fact(0), Step::Above(2, 0), Step::Chain(0, 1)];
    let denied = [Step::Fact(1), Step::Symmetric(0), Step::Conflict(1)];
    assert!(rt; recheck(alloc, &nodes, &facts, &chain)?);
    assert!(rt; !recheck(alloc, &nodes, &facts, &unended)?);
    assert!(rt; recheck(alloc, &nodes, &facts, &denied)?);
    Ok(())
}

/// A log numbers its steps, and keeps what they derive.
#[test]
fn steps_are_kept(rt: HostRuntime) -> Result<(), Fail> {
    let alloc = rt.alloc();
    let nodes = terms(alloc)?;
    let mut log = Log::new(alloc, nodes, Vec::new(alloc));
    let same = log.reflexive(0)?;
    let back = log.symmetric(same)?;
    assert_eq!(rt; back, 1);
    assert_eq!(rt; log.known().len(), 2);
    assert_eq!(rt; log.nodes().len(), 8);
    Ok(())
}

//! Facts that hang on nodes, each on the one before.

use std::test::Fail;
use vf_trail::{Node, Trail, TrailFault, paths_stay, paths_step};

#[test]
fn facts_hang_on_nodes(rt: HostRuntime) -> Result<(), Fail> {
    let mut trail = Trail::<u8>::new(rt.alloc());
    trail.reserve(2)?;
    let left = trail.push(Node::ROOT, 10)?;
    let below = trail.push(left, 11)?;
    assert_eq!(rt; trail.len(), 2);
    assert_eq!(rt; *trail.get(below), 11);
    assert_eq!(rt; trail.parent(below).number, left.number);
    assert_eq!(rt; trail.parent(left).number, 0);
    Ok(())
}

/// A trail has 4,194,304 facts at most.
#[test]
fn trails_are_full(rt: HostRuntime) -> Result<(), Fail> {
    let mut trail = Trail::<u8>::new(rt.alloc());
    trail.push(Node::ROOT, 10)?;
    assert!(rt; trail.reserve(4_194_304) == Err(TrailFault::Full));
    assert!(rt; trail.reserve(4_194_303) == Ok(()));
    paths_stay::<u8>();
    paths_step::<u8>();
    Ok(())
}

//! Tables that grow and are taken back.

ghost use Rattle.std.specs.Prelude.{◌≡◌, ◌<◌, All, IsTrue, IfOk};

use std::alloc::Global;
use std::test::Fail;
use vf_base::Memory;
use vf_growing::GrowingClasses;
use vf_table::{Head, Node};

/// Whether each number of a list is below another.
fn are_below(parts: &[u32], n: u32) -> bool
    ensures { IsTrue result → All (λ part. part < n) parts.now }
{
    for part in parts {
        if *part >= n {
            return false;
        }
    }
    true
}

/// A node of a head and parts.
fn node_of(alloc: Global, head: Head, parts: &[u32]) -> Result<Node, Memory>
    ensures { IfOk result (λ node. node.parts.items ≡ parts.now) }
{
    let parts = Vec::from_slice(alloc, parts)?;
    Ok(Node { head, parts })
}

/// Adds a term, and tells whether its parts are terms.
fn put(
    alloc: Global,
    classes: &mut GrowingClasses,
    head: Head,
    parts: &[u32],
) -> Result<bool, Memory> {
    if classes.size() >= 4096 {
        return Ok(false);
    }
    if !are_below(parts, classes.size()) {
        return Ok(false);
    }
    let node = node_of(alloc, head, parts)?;
    classes.add(alloc, node)?;
    Ok(true)
}

/// Merges two numbers, and tells whether they are those of terms.
fn join(alloc: Global, classes: &mut GrowingClasses, a: u32, b: u32) -> Result<bool, Memory> {
    if a >= classes.size() || b >= classes.size() {
        return Ok(false);
    }
    classes.merge(alloc, a, b)?;
    Ok(true)
}

/// Goes back to a number of steps, and tells whether there were as many.
fn go_back(classes: &mut GrowingClasses, mark: usize) -> bool {
    if mark > classes.steps() {
        return false;
    }
    classes.undo(mark);
    true
}

/// Whether two terms are equal; none where a number is none of a term.
fn are_same(classes: &GrowingClasses, a: u32, b: u32) -> Option<bool> {
    if a >= classes.size() || b >= classes.size() {
        return None;
    }
    Some(classes.same(a, b))
}

/// x, y and f(x) are there when x and y become equal, and f(y) comes later; all is as before where it is taken back.
#[test]
fn equalities_come_and_go(rt: HostRuntime) -> Result<(), Fail> {
    let alloc = rt.alloc();
    let of = Head::Other(2);
    let mut classes = GrowingClasses::new(alloc);
    assert!(rt; put(alloc, &mut classes, Head::Other(0), &[])?);
    assert!(rt; put(alloc, &mut classes, Head::Other(1), &[])?);
    assert!(rt; put(alloc, &mut classes, of, &[0])?);
    assert!(rt; join(alloc, &mut classes, 0, 1)?);
    assert_eq!(rt; classes.moved().len(), 1);
    assert!(rt; put(alloc, &mut classes, of, &[1])?);
    assert_eq!(rt; are_same(&classes, 2, 3), Some(true));
    assert_eq!(rt; classes.steps(), 5);
    assert!(rt; go_back(&mut classes, 3));
    assert!(rt; put(alloc, &mut classes, of, &[1])?);
    assert_eq!(rt; are_same(&classes, 2, 3), Some(false));
    assert_eq!(rt; classes.nodes().len(), 4);
    Ok(())
}

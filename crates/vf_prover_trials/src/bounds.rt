//! Tables of bounds, with what follows.

use std::alloc::Global;
use std::test::Fail;
use vf_arith::{Bounds, Edge, MOST_POINTS, is_small};
use vf_base::Memory;

/// Adds `from - to <= most`.
fn add(alloc: Global, bounds: &mut Bounds, from: u32, to: u32, most: i128) -> Result<(), Memory> {
    if from >= bounds.size() || to >= bounds.size() {
        return Ok(());
    }
    if !is_small(most) {
        return Ok(());
    }
    bounds.add(alloc, Edge { from, to, most })?;
    Ok(())
}

/// Adds a point.
fn add_point(alloc: Global, bounds: &mut Bounds) -> Result<(), Memory> {
    if bounds.size() < MOST_POINTS {
        bounds.grow(alloc)?;
    }
    Ok(())
}

/// What bounds say of two points; none where they say nothing, or contradict each other.
fn bound(bounds: &Bounds, x: u32, y: u32) -> Option<i128> {
    if bounds.conflict() {
        return None;
    }
    if x >= bounds.size() || y >= bounds.size() {
        return None;
    }
    bounds.bound(x, y)
}

/// Goes back to the first steps of this number.
fn go_back(bounds: &mut Bounds, mark: usize) {
    if mark > bounds.steps() {
        return;
    }
    bounds.undo(mark);
}

/// `0 - 1 <= 3` and `1 - 2 <= -5` stand between three points, the last of which comes later; a conflict is taken back.
#[test]
fn bounds_come_and_go(rt: HostRuntime) -> Result<(), Fail> {
    let alloc = rt.alloc();
    let mut bounds = Bounds::new(alloc, 2)?;
    add(alloc, &mut bounds, 0, 1, 3)?;
    add_point(alloc, &mut bounds)?;
    add(alloc, &mut bounds, 1, 2, -5)?;
    assert_eq!(rt; bound(&bounds, 0, 2), Some(-2));
    assert_eq!(rt; bound(&bounds, 2, 0), None);
    let mark = bounds.steps();
    add(alloc, &mut bounds, 2, 0, 1)?;
    assert!(rt; bounds.conflict());
    assert_eq!(rt; bounds.edges().len(), 3);
    go_back(&mut bounds, mark);
    assert!(rt; !bounds.conflict());
    add(alloc, &mut bounds, 0, 1, 1)?;
    assert_eq!(rt; bound(&bounds, 0, 2), Some(-4));
    assert!(rt; !is_small(1 << 101));
    Ok(())
}

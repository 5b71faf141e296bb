//! Tables of terms, and the questions that they answer.

use std::alloc::Global;
use std::test::Fail;
use vf_base::Memory;
use vf_table::{
    Head, Node, have_clashing_heads, have_one_head, is_injective, is_integer, is_zero, number_at,
    parts_are_below, shift_at,
};

/// The table of 0, x, x + 0, nil, cons(x, nil), f(x), y and f(y).
pub(crate) fn terms(alloc: Global) -> Result<Vec<Node>, Memory> {
    let rows: [(Head, &[u32]); 8] = [
        (Head::Number(0), &[]),
        (Head::Integer(0), &[]),
        (Head::Plus, &[1, 0]),
        (Head::Constructor(0), &[]),
        (Head::Constructor(1), &[1, 3]),
        (Head::Other(0), &[1]),
        (Head::Integer(1), &[]),
        (Head::Other(0), &[6]),
    ];
    let mut nodes = Vec::new(alloc);
    for (head, parts) in rows {
        let parts = Vec::from_slice(alloc, parts)?;
        nodes.push(Node { head, parts })?;
    }
    Ok(nodes)
}

#[test]
fn terms_are_told(rt: HostRuntime) -> Result<(), Fail> {
    let nodes = terms(rt.alloc())?;
    assert!(rt; parts_are_below(&nodes));
    for (term, integer, zero) in [
        (0, true, true),
        (2, true, false),
        (3, false, false),
        (8, false, false),
    ] {
        assert_eq!(rt; is_integer(&nodes, term), integer);
        assert_eq!(rt; is_zero(&nodes, term), zero);
    }
    assert_eq!(rt; number_at(&nodes, 0), Some(0));
    assert_eq!(rt; number_at(&nodes, 1), None);
    assert!(rt; matches!(shift_at(&nodes, 2), Some(shift) if shift.part == 1 && shift.number == 0));
    assert!(rt; have_clashing_heads(&nodes, 3, 4) && !have_clashing_heads(&nodes, 0, 1));
    assert!(rt; is_injective(Head::Constructor(3)) && !is_injective(Head::Other(3)));
    if nodes.len() == 8 {
        assert!(rt; have_one_head(&nodes[5], &nodes[7]));
    }
    Ok(())
}

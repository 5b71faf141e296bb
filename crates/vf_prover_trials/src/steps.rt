//! Steps that refute questions: those of a check, and those of a chain.

use crate::relations::{
    Relation, Side, at_most, definitions, difference, equal, literal, literals, not_equal,
};
use std::alloc::Global;
use std::test::Fail;
use vf_base::Memory;
use vf_chains::{short_refutation, short_steps};
use vf_definitions::Definitions;
use vf_formula::Literal;
use vf_question::are_plain;
use vf_recheck::{Posed, Step, Tables, recheck};
use vf_refute as plain;

/// Whether the check accepts steps that refute literals.
fn is_accepted(
    alloc: Global,
    definitions: &Definitions,
    literals: &[Literal],
    steps: &[Step],
) -> Result<bool, Memory> {
    if !are_plain(literals) {
        return Ok(false);
    }
    recheck(alloc, definitions, literals, steps)
}

/// The same, in a unit that has `length`.
fn is_checked(alloc: Global, relations: &[Relation], steps: &[Step]) -> Result<bool, Memory> {
    let definitions = definitions(alloc)?;
    let literals = literals(alloc, relations)?;
    is_accepted(alloc, &definitions, &literals, steps)
}

/// The terms of `s == nil` and `length(s) != 0` are s, nil, length(s) and 0. The length is unfolded by the first
/// literal, whose sides stand in this order.
#[test]
fn refutations_are_checked(rt: HostRuntime) -> Result<(), Fail> {
    let alloc = rt.alloc();
    let s = Side::List(0);
    let no_length = not_equal(Side::Length(0), Side::Number(0));
    let steps = [
        Step::Plain(plain::Step::Fact(0)),
        Step::ByCase(2, 0),
        Step::Plain(plain::Step::Conflict(1)),
    ];
    assert!(rt; is_checked(alloc, &[equal(s, Side::Nil), no_length], &steps)?);
    assert!(rt; !is_checked(alloc, &[equal(Side::Nil, s), no_length], &steps)?);
    assert!(rt; !is_checked(alloc, &[equal(s, Side::Nil), no_length], &steps[..2])?);
    let unfolded = [Step::ToBody(2), Step::Plain(plain::Step::Conflict(0))];
    assert!(rt; !is_checked(alloc, &[equal(s, Side::Nil), no_length], &unfolded)?);
    Ok(())
}

/// Whether a chain refutes a question. What is found is what the check accepts.
fn is_found(alloc: Global, question: &Posed) -> Result<bool, Memory> {
    let steps = short_steps(alloc, &question.nodes, &question.facts)?;
    let checked = short_refutation(alloc, &question.nodes, &question.facts)?;
    Ok(steps.is_some() && checked.is_some())
}

/// Whether a chain refutes a literal behind others, where the tables go on to these.
fn is_chain(
    alloc: Global,
    tables: &mut Tables,
    front: &[Relation],
    last: Relation,
) -> Result<bool, Memory> {
    let front = literals(alloc, front)?;
    tables.follow(alloc, &front)?;
    let last = literal(alloc, last)?;
    let question = tables.pose(alloc, &last)?;
    is_found(alloc, &question)
}

/// Each row has a literal that is put behind `x <= y` and `y <= z`, and whether a chain refutes the three.
#[test]
fn chains_are_found(rt: HostRuntime) -> Result<(), Fail> {
    let alloc = rt.alloc();
    let x = Side::Integer(0);
    let y = Side::Integer(1);
    let z = Side::Integer(2);
    let front = [at_most(x, y, 0), at_most(y, z, 0)];
    let mut tables = Tables::new(alloc);
    for (last, found) in [
        (at_most(z, x, -1), true),
        (at_most(z, x, 0), false),
        (difference(z, x, -1), true),
        (equal(Side::List(0), Side::Nil), false),
    ] {
        assert_eq!(rt; is_chain(alloc, &mut tables, &front, last)?, found);
    }
    Ok(())
}

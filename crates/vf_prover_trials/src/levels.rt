//! Levels of literals, and what they have equal.

ghost use Rattle.std.specs.Prelude.{◌≡◌};

use crate::relations::{Relation, Side, at_most, literal, not_equal};
use std::alloc::Global;
use std::test::Fail;
use vf_base::Memory;
use vf_formula::{Literal, Term};
use vf_interning::{Interning, place};
use vf_question::is_plain_literal;

/// Adds a literal.
fn assume_literal(alloc: Global, interning: &mut Interning, literal: &Literal) -> Result<(), Memory>
    ensures { interning.new.levels ≡ interning.old.levels }
{
    if is_plain_literal(literal) {
        interning.assume(alloc, literal)?;
    }
    Ok(())
}

/// Adds what is said of two sides.
fn assume(alloc: Global, interning: &mut Interning, relation: Relation) -> Result<(), Memory>
    ensures { interning.new.levels ≡ interning.old.levels }
{
    let literal = literal(alloc, relation)?;
    assume_literal(alloc, interning, &literal)
}

/// Whether the terms with these numbers are there and equal.
fn are_same(interning: &Interning, i: usize, j: usize) -> bool {
    if interning.refuted() {
        return false;
    }
    let count = interning.terms().len();
    if i >= count || j >= count {
        return false;
    }
    interning.same(i as u32, j as u32)
}

/// Whether a relation refutes what stands, and is gone with its level.
fn is_refuted_for_a_level(
    alloc: Global,
    interning: &mut Interning,
    relation: Relation,
) -> Result<bool, Memory> {
    interning.begin()?;
    assume(alloc, interning, relation)?;
    let refuted = interning.refuted();
    interning.end();
    Ok(refuted)
}

/// Terms within 0 both ways are equal, and differ where a literal says so, as long as the literals stand. 0 is the
/// first term.
#[test]
fn levels_come_and_go(rt: HostRuntime) -> Result<(), Fail> {
    let alloc = rt.alloc();
    let x = Side::Integer(1);
    let y = Side::Integer(2);
    let mut interning = Interning::new(alloc)?;
    assume(alloc, &mut interning, at_most(x, y, 0))?;
    assert_eq!(rt; place(interning.terms(), &Term::of_number(alloc, 0)), 0);
    assert!(rt; !are_same(&interning, 1, 2));
    assume(alloc, &mut interning, at_most(y, x, 0))?;
    assert!(rt; is_refuted_for_a_level(alloc, &mut interning, not_equal(y, x))?);
    assert!(rt; are_same(&interning, 1, 2));
    Ok(())
}

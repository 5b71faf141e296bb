//! Questions, as they are put to the check.

ghost use Rattle.std.specs.Prelude.{map, IfOk};
ghost use Rattle.vf_formula.specs.Literals.{shown_literal};
ghost use Rattle.vf_recheck.specs.Posed.{IsPosed};

use crate::facts::facts_over;
use crate::numbering::number_all;
use std::alloc::Global;
use vf_base::Memory;
use vf_formula::{Literal, Term};
use vf_refute::Fact;
use vf_table::Node;

/// A question as it is put to the check: the table of the terms of its literals and of 0, each term at the place of its
/// number, and its literals as facts over these.
#[derive(Drop)]
pub struct Posed {
    pub nodes: Vec<Node>,
    pub terms: Vec<Term>,
    pub facts: Vec<Fact>,
}

/// The question of some literals.
pub fn question_of(alloc: Global, literals: &[Literal]) -> Result<Posed, Memory>
    ensures { IfOk result (IsPosed (map shown_literal literals.now)) }
{
    let mut nodes = Vec::new(alloc);
    let mut terms = Vec::new(alloc);
    number_all(alloc, &mut nodes, &mut terms, literals)?;
    let facts = facts_over(alloc, &terms, literals)?;
    Ok(Posed {
        nodes,
        terms,
        facts,
    })
}

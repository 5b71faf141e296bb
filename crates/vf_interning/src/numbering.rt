//! Numbers of terms.

ghost use Rattle.std.specs.Prelude.{◌≡◌, ◌≤◌, ◌++◌, ◌∷◌, [], length, take, IfOk, OnOk};
ghost use Rattle.vf_formula.specs.Literals.{shown_literal};
ghost use Rattle.vf_closure.specs.Literals.{compares};
ghost use Rattle.vf_question.specs.Numbered.{place, with_one, with_term, with_all};
ghost use Rattle.vf_question.specs.Tabled.{places, tabled_fact};
ghost use Rattle.vf_question.specs.Plain.{IsPlain, IsPlainLiteral};
ghost use Rattle.vf_interning.specs.Interned.{parts_of, HasParts, IsTermTable};

use crate::heads::tabled_head;
use std::alloc::Global;
use vf_base::Memory;
use vf_combination::Combination;
use vf_formula::{Literal, Term};
use vf_refute::Fact;
use vf_table::Node;

/// The most terms that may arise along a path, with those of what was unfolded. Past it there is no
/// memory: each two integer terms have a distance, and nothing else bounds what unfolding brings.
pub const MOST_ARISING: usize = 1 << 20;

/// The place of a term in a list; where it is not there, how long the list is.
pub fn place(terms: &[Term], term: &Term) -> usize
    ensures { result ≡ place term.now terms.now }
{
    for (i, other) in terms.iter().enumerate() {
        if other.same(term) {
            return i;
        }
    }
    terms.len()
}

/// Puts a term that is not there at the end of a table, which has its parts by these numbers, and
/// answers its number.
fn add_new(
    alloc: Global,
    combination: &mut Combination,
    terms: &mut Vec<Term>,
    term: &Term,
    parts: Vec<u32>,
) -> Result<u32, Memory>
    requires table { IsTermTable combination.old.nodes terms.old.items }
    requires there { HasParts terms.old.items term.now }
    requires parts { parts.items ≡ places terms.old.items (parts_of term.now) }
    requires plain { IsPlain term.now }
    requires new { length terms.old.items ≤ place term.now terms.old.items }
    ensures table { IfOk result (λ _. IsTermTable combination.new.nodes terms.new.items) }
    ensures terms { OnOk result (terms.new.items ≡ terms.old.items ++ term.now ∷ []) }
    ensures number { IfOk result (λ n. n ≡ length terms.old.items) }
    ensures kept { take (length terms.old.items) terms.new.items ≡ terms.old.items }
    ensures facts { combination.new.facts ≡ combination.old.facts }
    ensures levels { combination.new.levels ≡ combination.old.levels }
{
    if terms.len() >= MOST_ARISING {
        return Err(Memory);
    }
    let head = tabled_head(terms, &term.head);
    let copy = term.copy(alloc)?;
    terms.reserve(1)?;
    let number = combination.add(alloc, Node { head, parts })?;
    terms.push_reserved(copy);
    Ok(number)
}

/// The same, unless the term is there.
fn add_one(
    alloc: Global,
    combination: &mut Combination,
    terms: &mut Vec<Term>,
    term: &Term,
    parts: Vec<u32>,
) -> Result<u32, Memory>
    requires table { IsTermTable combination.old.nodes terms.old.items }
    requires there { HasParts terms.old.items term.now }
    requires parts { parts.items ≡ places terms.old.items (parts_of term.now) }
    requires plain { IsPlain term.now }
    ensures table { IfOk result (λ _. IsTermTable combination.new.nodes terms.new.items) }
    ensures terms { OnOk result (terms.new.items ≡ with_one term.now terms.old.items) }
    ensures number { IfOk result (λ n. n ≡ place term.now terms.new.items) }
    ensures kept { take (length terms.old.items) terms.new.items ≡ terms.old.items }
    ensures facts { combination.new.facts ≡ combination.old.facts }
    ensures levels { combination.new.levels ≡ combination.old.levels }
{
    let known = place(terms, term);
    if known < terms.len() {
        return Ok(known as u32);
    }
    let number = add_new(alloc, combination, terms, term, parts)?;
    Ok(number)
}

/// Answers the number of a term, which is put behind its parts where it is not there.
pub(crate) fn number_term(
    alloc: Global,
    combination: &mut Combination,
    terms: &mut Vec<Term>,
    term: &Term,
) -> Result<u32, Memory>
    requires table { IsTermTable combination.old.nodes terms.old.items }
    requires plain { IsPlain term.now }
    ensures table { IfOk result (λ _. IsTermTable combination.new.nodes terms.new.items) }
    ensures terms { OnOk result (terms.new.items ≡ with_term term.now terms.old.items) }
    ensures number { IfOk result (λ n. n ≡ place term.now terms.new.items) }
    ensures kept { take (length terms.old.items) terms.new.items ≡ terms.old.items }
    ensures facts { combination.new.facts ≡ combination.old.facts }
    ensures levels { combination.new.levels ≡ combination.old.levels }
{
    let known = place(terms, term);
    if known < terms.len() {
        return Ok(known as u32);
    }
    let mut parts = Vec::new(alloc);
    for part in term.parts.as_slice() {
        let number = number_term(alloc, combination, terms, part)?;
        parts.push(number)?;
    }
    add_one(alloc, combination, terms, term, parts)
}

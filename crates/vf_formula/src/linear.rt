//! Linear sums over atoms.

ghost use Rattle.std.specs.Prelude.{◌≡◌, ℤ, pos, ◌+ℤ◌, [], ◌∷◌, ◌++◌, ◌<◌, ◌≤◌, ◌+◌, drop, length, true, false, ◌↔◌, IsTrue, IfOk, OnOk, MatchOption};
ghost use Rattle.std.specs.Ordering.{int_eq};
ghost use Rattle.vf_closure.specs.Terms.{Plus, Terms, term};
ghost use Rattle.vf_normal.specs.Sums.{Weighted, is_small, are_small, fits, put, together, times_each, constant, paired, number_in, atoms_of, one_atom, form_of, factors_of, row_of, as_integer, sum_of, term_of};
ghost use Rattle.vf_normal.specs.NormalForms.{AreAtoms};
ghost use Rattle.vf_formula.specs.Rows.{row};
ghost use Rattle.vf_formula.specs.Heads.{shown_head};
ghost use Rattle.vf_formula.specs.Linears.{IsSum};

use crate::head::{Head, Kind};
use crate::term::{Term, TermList};
use std::alloc::Global;
use std::cmp::Ordering;
use std::marker::Model;
use vf_base::{Memory, Sequence};

/// The greatest number and factor that sums have; the least is its negation.
const GREATEST: i128 = 1 << 90;

/// An atom of a sum, with its factor.
#[derive(Debug, Drop)]
pub struct Weighted {
    pub factor: i128,
    pub atom: Term,
}

impl Model for Weighted {
    ghost use Rattle.vf_normal.specs.Sums as sums;
    ghost use Rattle.vf_formula.specs.Linears.{coded_weighted};

    ghost Value = { sums.Weighted };

    ghost coded = { coded_weighted };

    ghost view = { λ w. record { factor = w.factor; atom = w.atom } };
}

/// A sum: its atoms with their factors, and a number.
#[derive(Debug, Drop)]
pub struct Linear {
    pub atoms: Vec<Weighted>,
    pub number: i128,
}

impl Model for Linear {
    ghost use Rattle.vf_normal.specs.Sums as sums;
    ghost use Rattle.vf_formula.specs.Linears.{coded_linear};

    ghost Value = { sums.Linear };

    ghost coded = { coded_linear };

    ghost view = { λ f. record { atoms = f.atoms.items; number = f.number } };
}

impl Weighted {
    /// The same atom with the same factor.
    fn copy(&self, alloc: Global) -> Result<Weighted, Memory>
        ensures { IfOk result (λ w. w ≡ self.now) }
    {
        Ok(Weighted {
            factor: self.factor,
            atom: self.atom.copy(alloc)?,
        })
    }
}

/// Whether a number is small enough to stand in a sum.
pub(crate) fn is_small(number: i128) -> bool
    ensures { result ≡ is_small number }
{
    -GREATEST <= number && number <= GREATEST
}

/// Whether all factors are small enough.
fn are_small(atoms: &[Weighted]) -> bool
    ensures { result ≡ are_small atoms.now }
{
    for weighted in atoms {
        if !is_small(weighted.factor) {
            return false;
        }
    }
    true
}

/// Puts an atom at the end, unless its factor is 0.
fn put(alloc: Global, all: &mut Vec<Weighted>, factor: i128, atom: &Term) -> Result<(), Memory>
    ensures { OnOk result (all.new.items ≡ all.old.items ++ put factor atom.now []) }
{
    if factor != 0 {
        all.push(Weighted {
            factor,
            atom: atom.copy(alloc)?,
        })?;
    }
    Ok(())
}

/// Puts atoms at the end.
fn append(alloc: Global, all: &mut Vec<Weighted>, atoms: &[Weighted]) -> Result<(), Memory>
    ensures { OnOk result (all.new.items ≡ all.old.items ++ atoms.now) }
{
    for weighted in atoms {
        all.push(weighted.copy(alloc)?)?;
    }
    Ok(())
}

/// How far two sums are gone through.
#[derive(Clone, Copy)]
struct Places {
    left: usize,
    right: usize,
}

/// Puts the first atom of what is left of two sums at the end; where both have it their factors are
/// added.
fn merge_first(
    alloc: Global,
    all: &mut Vec<Weighted>,
    left: &[Weighted],
    right: &[Weighted],
    at: Places,
) -> Result<Places, Memory>
    requires left_atoms { AreAtoms left.now }
    requires right_atoms { AreAtoms right.now }
    requires left_small { are_small left.now ≡ true }
    requires right_small { are_small right.now ≡ true }
    requires left_place { at.left < length left.now }
    requires right_place { at.right < length right.now }
    ensures merged { IfOk result (λ to. all.new.items ++ together (drop to.left left.now) (drop to.right right.now) ≡ all.old.items ++ together (drop at.left left.now) (drop at.right right.now)) }
    ensures onward { IfOk result (λ to. at.left + at.right < to.left + to.right) }
    ensures left_end { IfOk result (λ to. to.left ≤ length left.now) }
    ensures right_end { IfOk result (λ to. to.right ≤ length right.now) }
{
    let a = &left[at.left];
    let b = &right[at.right];
    match a.atom.compare(&b.atom) {
        Ordering::Less => {
            all.push(a.copy(alloc)?)?;
            Ok(Places {
                left: at.left + 1,
                right: at.right,
            })
        }
        Ordering::Equal => {
            put(alloc, all, a.factor + b.factor, &a.atom)?;
            Ok(Places {
                left: at.left + 1,
                right: at.right + 1,
            })
        }
        Ordering::Greater => {
            all.push(b.copy(alloc)?)?;
            Ok(Places {
                left: at.left,
                right: at.right + 1,
            })
        }
    }
}

/// The atoms of two sums together.
pub fn together(
    alloc: Global,
    left: &[Weighted],
    right: &[Weighted],
) -> Result<Vec<Weighted>, Memory>
    requires left_atoms { AreAtoms left.now }
    requires right_atoms { AreAtoms right.now }
    requires left_small { are_small left.now ≡ true }
    requires right_small { are_small right.now ≡ true }
    ensures { IfOk result (λ all. all.items ≡ together left.now right.now) }
{
    let mut all = Vec::new(alloc);
    let mut at = Places { left: 0, right: 0 };
    while at.left < left.len() && at.right < right.len() {
        at = merge_first(alloc, &mut all, left, right, at)?;
    }
    append(alloc, &mut all, &left[at.left..])?;
    append(alloc, &mut all, &right[at.right..])?;
    Ok(all)
}

/// Atoms, each with a number times its factor; none where such a product is past 128 bits.
pub fn times_each(
    alloc: Global,
    number: i128,
    atoms: &[Weighted],
) -> Result<Option<Vec<Weighted>>, Memory>
    ensures { IfOk result (λ o. MatchOption o (are_small (times_each number atoms.now) ≡ false) (λ all. all.items ≡ times_each number atoms.now)) }
{
    let mut all = Vec::new(alloc);
    for weighted in atoms {
        match number.checked_mul(weighted.factor) {
            Some(factor) => put(alloc, &mut all, factor, &weighted.atom)?,
            None => return Ok(None),
        }
    }
    Ok(Some(all))
}

/// Factors and terms in a row, one by one.
fn paired(alloc: Global, factors: &[i128], terms: &[Term]) -> Result<Vec<Weighted>, Memory>
    ensures { IfOk result (λ all. all.items ≡ paired factors.now (row terms.now)) }
{
    let mut all = Vec::new(alloc);
    for i in 0..factors.len().min(terms.len()) {
        all.push(Weighted {
            factor: factors[i],
            atom: terms[i].copy(alloc)?,
        })?;
    }
    Ok(all)
}

/// A term that is one atom.
fn one_atom(alloc: Global, term: &Term) -> Result<Vec<Weighted>, Memory>
    ensures { IfOk result (λ all. all.items ≡ one_atom term.now) }
{
    let mut all = Vec::new(alloc);
    all.push(Weighted {
        factor: 1,
        atom: term.copy(alloc)?,
    })?;
    Ok(all)
}

/// The atoms of a sum without a number.
fn atoms(alloc: Global, term: &Term) -> Result<Vec<Weighted>, Memory>
    ensures { IfOk result (λ all. all.items ≡ atoms_of term.now) }
{
    match &term.head {
        Head::Sum(factors) => paired(alloc, factors.as_slice(), term.parts.as_slice()),
        _ => one_atom(alloc, term),
    }
}

/// A term that is one atom, as a linear sum.
fn atom_form(alloc: Global, term: &Term) -> Result<Linear, Memory>
    ensures { IfOk result (λ f. f ≡ record { atoms = one_atom term.now; number = pos 0 }) }
{
    Ok(Linear {
        atoms: one_atom(alloc, term)?,
        number: 0,
    })
}

/// A sum and a number as a linear sum.
fn plus_form(alloc: Global, whole: &Term) -> Result<Linear, Memory>
    requires { (ts : Terms) × (whole.now ≡ term Plus ts) }
    ensures { IfOk result (λ f. f ≡ form_of whole.now) }
{
    let parts = whole.parts.as_slice();
    if parts.len() != 2 {
        return atom_form(alloc, whole);
    }
    match parts[1].number() {
        Some(number) => Ok(Linear {
            atoms: atoms(alloc, &parts[0])?,
            number,
        }),
        None => atom_form(alloc, whole),
    }
}

/// A term in normal form as a linear sum: a number, a sum, a sum and a number, or one atom.
pub fn form(alloc: Global, term: &Term) -> Result<Linear, Memory>
    ensures { IfOk result (λ f. f ≡ form_of term.now) }
{
    match &term.head {
        Head::Number(number) => Ok(Linear {
            atoms: Vec::new(alloc),
            number: *number,
        }),
        Head::Sum(factors) => Ok(Linear {
            atoms: paired(alloc, factors.as_slice(), term.parts.as_slice())?,
            number: 0,
        }),
        Head::Plus => plus_form(alloc, term),
        _ => atom_form(alloc, term),
    }
}

/// The factors of atoms.
#[tactic(auto, using(crate::proofs::Merging::factors_map))]
fn factors(alloc: Global, atoms: &[Weighted]) -> Result<Sequence<i128>, Memory>
    ensures { IfOk result (λ all. all ≡ factors_of atoms.now) }
{
    let mut all = Sequence::new(alloc);
    for weighted in atoms {
        all.push(weighted.factor)?;
    }
    Ok(all)
}

/// The terms of atoms, in a row.
fn terms(alloc: Global, atoms: &[Weighted]) -> Result<TermList, Memory>
    ensures { IfOk result (λ all. row all ≡ row_of atoms.now) }
{
    let mut all = TermList::new(alloc);
    for weighted in atoms {
        all.push(weighted.atom.copy(alloc)?)?;
    }
    Ok(all)
}

/// A term as an integer term: itself where it is one, and else the sum of it alone.
pub fn as_integer(alloc: Global, whole: Term) -> Result<Term, Memory>
    ensures { IfOk result (λ t. t ≡ as_integer whole) }
{
    match whole.head.kind() {
        Kind::Integer => Ok(whole),
        Kind::Other => {
            let mut factors = Sequence::new(alloc);
            factors.push(1)?;
            Term::with_one(alloc, Head::Sum(factors), whole)
        }
    }
}

/// An atom with its factor: with factor 1 it is the atom itself.
fn sum_of_one(alloc: Global, weighted: &Weighted) -> Result<Term, Memory>
    ensures { IfOk result (λ t. t ≡ sum_of (weighted.now ∷ [])) }
{
    let atom = weighted.atom.copy(alloc)?;
    if weighted.factor == 1 {
        return as_integer(alloc, atom);
    }
    let mut factors = Sequence::new(alloc);
    factors.push(weighted.factor)?;
    Term::with_one(alloc, Head::Sum(factors), atom)
}

/// Atoms added up: none is 0, and one with factor 1 is that atom itself.
#[tactic(auto, using(crate::proofs::Merging::one_is, crate::proofs::Merging::many_are))]
pub(crate) fn sum(alloc: Global, atoms: &[Weighted]) -> Result<Term, Memory>
    ensures { IfOk result (λ t. t ≡ sum_of atoms.now) }
{
    if atoms.len() == 0 {
        return Ok(Term::of_number(alloc, 0));
    }
    if atoms.len() == 1 {
        return sum_of_one(alloc, &atoms[0]);
    }
    Ok(Term::new(Head::Sum(factors(alloc, atoms)?), terms(alloc, atoms)?))
}

impl Linear {
    /// Whether the factors and the number are within plus and minus 2^90.
    pub fn fits(&self) -> bool
        ensures { result ≡ fits self.now }
    {
        are_small(&self.atoms) && is_small(self.number)
    }

    /// The sum that is a number alone.
    pub fn constant(alloc: Global, number: i128) -> Linear
        ensures { result ≡ constant number }
    {
        Linear {
            atoms: Vec::new(alloc),
            number,
        }
    }

    /// Whether it is a number alone.
    pub fn is_number(&self) -> bool
        ensures { IsTrue result ↔ (self.now.atoms ≡ []) }
    {
        self.atoms.is_empty()
    }

    /// The sum as a term: the number stands last, and is left out where it is 0.
    #[tactic(auto, using(crate::proofs::Merging::total_none, crate::proofs::Merging::total_more))]
    pub fn term(&self, alloc: Global) -> Result<Term, Memory>
        ensures { IfOk result (λ t. t ≡ term_of self.now) }
    {
        if self.atoms.len() == 0 {
            return Ok(Term::of_number(alloc, self.number));
        }
        let sum = sum(alloc, &self.atoms)?;
        if self.number == 0 {
            return Ok(sum);
        }
        Term::with_two(alloc, Head::Plus, sum, Term::of_number(alloc, self.number))
    }
}

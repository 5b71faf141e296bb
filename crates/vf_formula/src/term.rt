//! Terms.

ghost use Rattle.std.specs.Prelude.{◌≡◌, ◌↔◌, [], ◌∷◌, ◌++◌, ◌≤◌, length, take, drop, slice_get, IsTrue, IfOk, OnOk, OnErr};
ghost use Rattle.std.specs.Option.{option_copied};
ghost use Rattle.vf_closure.specs.Terms.{term, no_terms, and_term, number};
ghost use Rattle.vf_normal.specs.Order.{compare, compare_rows};
ghost use Rattle.vf_normal.specs.Sums.{number_in};
ghost use Rattle.vf_formula.specs.Rows.{row, truth_in};
ghost use Rattle.vf_formula.specs.Heads.{shown_head};

use crate::head::Head;
use std::alloc::Global;
use std::cmp::Ordering;
use std::marker::Model;
use vf_base::Memory;

/// A term: a head over parts.
#[cycle(term)]
#[derive(Debug, Drop)]
pub struct Term {
    pub head: Head,
    pub parts: TermList,
}

/// Terms in a row.
#[cycle(term)]
#[derive(Debug, Drop)]
pub struct TermList {
    pub(crate) items: Vec<Term>,
}

impl Model for Term {
    ghost use Rattle.vf_closure.specs.Terms as pure;
    ghost use Rattle.vf_formula.specs.Codes.{coded_term};

    ghost Value = { pure.Term };

    ghost coded = { coded_term };

    ghost use Rattle.vf_formula.specs.Rows.{row, size_of};
    ghost use Rattle.vf_formula.specs.Heads.{shown_head};

    ghost view = { λ t. pure.term (shown_head t.head) (row t.parts) };

    ghost size = { size_of };
}

impl Model for TermList {
    ghost use Rattle.std.specs.Prelude.{List};
    ghost use Rattle.vf_closure.specs.Terms as pure;
    ghost use Rattle.vf_formula.specs.Codes.{coded_term_list};

    ghost Value = { List pure.Term };

    ghost coded = { coded_term_list };

    ghost view = { λ l. l.items.items };

    ghost use Rattle.vf_formula.specs.Rows.{row, size_of_row};

    ghost size = { λ ts. size_of_row (row ts) };

    ghost use Rattle.std.proofs.Common.{arith};
    ghost use Rattle.vf_formula.specs.Rows.{most_le-size_of_row};

    ghost size_decreases = { λ l h. Prim.omega (arith, most_le-size_of_row l.items.items) };
}

/// One term in a row.
fn one(alloc: Global, a: Term) -> Result<TermList, Memory>
    ensures { IfOk result (λ l. l ≡ a ∷ []) }
{
    let mut parts = TermList::new(alloc);
    parts.push(a)?;
    Ok(parts)
}

/// Terms in a row and one more.
fn and(parts: TermList, a: Term) -> Result<TermList, Memory>
    ensures { IfOk result (λ l. l ≡ parts ++ a ∷ []) }
{
    let mut all = parts;
    all.push(a)?;
    Ok(all)
}

/// Two terms in a row.
fn two(alloc: Global, a: Term, b: Term) -> Result<TermList, Memory>
    ensures { IfOk result (λ l. l ≡ a ∷ b ∷ []) }
{
    and(one(alloc, a)?, b)
}

/// Three terms in a row.
fn three(alloc: Global, a: Term, b: Term, c: Term) -> Result<TermList, Memory>
    ensures { IfOk result (λ l. l ≡ a ∷ b ∷ c ∷ []) }
{
    and(two(alloc, a, b)?, c)
}

impl Term {
    /// A head over parts.
    pub fn new(head: Head, parts: TermList) -> Term
        ensures { result ≡ term (shown_head head) (row parts) }
    {
        Term { head, parts }
    }

    /// A head without parts.
    pub fn leaf(alloc: Global, head: Head) -> Term
        ensures { result ≡ term (shown_head head) no_terms }
    {
        Term::new(head, TermList::new(alloc))
    }

    /// A whole number.
    pub fn of_number(alloc: Global, value: i128) -> Term
        ensures { result ≡ number value }
    {
        Term::leaf(alloc, Head::Number(value))
    }

    /// A head over one part.
    pub fn with_one(alloc: Global, head: Head, a: Term) -> Result<Term, Memory>
        ensures { IfOk result (λ t. t ≡ term (shown_head head) (and_term a no_terms)) }
    {
        Ok(Term::new(head, one(alloc, a)?))
    }

    /// A head over two parts.
    pub fn with_two(alloc: Global, head: Head, a: Term, b: Term) -> Result<Term, Memory>
        ensures { IfOk result (λ t. t ≡ term (shown_head head) (and_term a (and_term b no_terms))) }
    {
        Ok(Term::new(head, two(alloc, a, b)?))
    }

    /// A head over three parts.
    pub fn with_three(alloc: Global, head: Head, a: Term, b: Term, c: Term) -> Result<Term, Memory>
        ensures { IfOk result (λ t. t ≡ term (shown_head head) (and_term a (and_term b (and_term c no_terms)))) }
    {
        Ok(Term::new(head, three(alloc, a, b, c)?))
    }

    /// The number that the term is, if it is one.
    pub fn number(&self) -> Option<i128>
        ensures { result ≡ number_in self.now }
    {
        match &self.head {
            Head::Number(number) => Some(*number),
            _ => None,
        }
    }

    /// The truth value that the term is, if it is one.
    pub fn truth(&self) -> Option<bool>
        ensures { result ≡ truth_in self.now }
    {
        match &self.head {
            Head::Truth(value) => Some(*value),
            _ => None,
        }
    }

    /// The same term again.
    #[cycle(copy)]
    pub fn copy(&self, alloc: Global) -> Result<Term, Memory>
        ensures { IfOk result (λ t. t ≡ self.now) }
    {
        Ok(Term {
            head: self.head.copy()?,
            parts: self.parts.copy(alloc)?,
        })
    }

    /// The order of terms: by variant, then by name, then by parts.
    #[cycle(compare)]
    pub fn compare(&self, other: &Term) -> Ordering
        ensures { result ≡ compare self.now other.now }
    {
        match self.head.compare(&other.head) {
            Ordering::Equal => self.parts.compare(&other.parts),
            order => order,
        }
    }

    /// Whether two terms are one.
    #[tactic(auto, using(crate::proofs::Comparing::compared_same))]
    pub fn same(&self, other: &Term) -> bool
        ensures { IsTrue result ↔ (self.now ≡ other.now) }
    {
        self.compare(other).is_eq()
    }
}

impl TermList {
    /// No terms, which take no memory.
    pub fn new(alloc: Global) -> TermList
        ensures { result ≡ [] }
    {
        TermList {
            items: Vec::new(alloc),
        }
    }

    /// Puts a term at the end. Where there is no memory for it the list stays as it was.
    pub fn push(&mut self, item: Term) -> Result<(), Memory>
        ensures pushed { OnOk result (self.new ≡ self.old ++ item ∷ []) }
        ensures unchanged { OnErr result (self.new ≡ self.old) }
    {
        self.items.push(item)?;
        Ok(())
    }

    /// Puts a term in front of the one at an index, or at the end.
    pub fn insert(&mut self, at: usize, item: Term) -> Result<(), Memory>
        requires { at ≤ length self.old }
        ensures inserted { OnOk result (self.new ≡ take at self.old ++ item ∷ drop at self.old) }
        ensures unchanged { OnErr result (self.new ≡ self.old) }
    {
        self.items.insert(at, item)?;
        Ok(())
    }

    /// How many terms there are.
    pub fn len(&self) -> usize
        ensures { result ≡ length self.now }
    {
        self.items.len()
    }

    /// Whether there is no term.
    pub fn is_empty(&self) -> bool
        ensures { IsTrue result ↔ (self.now ≡ []) }
    {
        self.items.is_empty()
    }

    /// The term at an index, counted from 0.
    pub fn get(&self, at: usize) -> Option<&Term>
        ensures { option_copied result ≡ slice_get self.now at }
    {
        self.items.get(at)
    }

    /// The terms as a slice.
    pub fn as_slice(&self) -> &[Term]
        ensures { result.now ≡ self.now }
    {
        self.items.as_slice()
    }

    /// The same terms again.
    #[cycle(copy)]
    pub fn copy(&self, alloc: Global) -> Result<TermList, Memory>
        ensures { IfOk result (λ l. l ≡ self.now) }
    {
        let mut all = TermList::new(alloc);
        for item in &self.items {
            all.push(item.copy(alloc)?)?;
        }
        Ok(all)
    }

    /// The order of rows: by the first place at which they differ; a row that goes on comes later.
    #[cycle(compare)]
    pub fn compare(&self, other: &TermList) -> Ordering
        ensures { result ≡ compare_rows (row self.now) (row other.now) }
    {
        for i in 0..self.items.len().min(other.items.len()) {
            match self.items[i].compare(&other.items[i]) {
                Ordering::Equal => {}
                order => return order,
            }
        }
        self.items.len().cmp(&other.items.len())
    }
}

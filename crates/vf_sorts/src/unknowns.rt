//! Unknown sorts, and what is known of them.

ghost use Rattle.std.specs.Prelude.{◌≡◌, ◌↔◌, ◌+◌, ◌++◌, [], ◌<◌, ◌^◌, length, replicate, None, IsTrue, IfOk, OnOk, OnErr, MatchBool};
ghost use Rattle.vf_sorts.specs.Unknowns.{Filling, Agrees, AgreesAsTold, AreBelow, IsBelow, by_known, filled, instance, settling};
ghost use Rattle.vf_sorts.specs.Unifying.{AreApart, Equates};

use crate::filling::{resolve, settle};
use crate::instance::instance;
use crate::occurrence::{are_below, is_below};
use crate::sort::{Sort, SortList};
use crate::unify::unify;
use std::alloc::Global;
use std::marker::Model;
use vf_base::Memory;

/// Sorts that are not known yet, by number, and what is known of them. Contracts see what is known of each.
#[derive(Drop)]
pub struct Unknowns {
    alloc: Global,
    known: Vec<Option<Sort>>,
}

impl Model for Unknowns {
    ghost use Rattle.vf_sorts.specs.Unknowns.{Known, IsResolved};
    ghost use Rattle.vf_sorts.specs.Codes.{coded_known};

    ghost Value = { Known };

    ghost coded = { coded_known };

    ghost view = { λ u. u.known.items };

    ghost invariant = { λ u. IsResolved u.known.items };
}

impl Unknowns {
    /// No unknown sorts, which take no memory.
    pub fn new(alloc: Global) -> Unknowns
        ensures { result ≡ [] }
    {
        Unknowns {
            alloc,
            known: Vec::new(alloc),
        }
    }

    /// How many there are.
    pub fn len(&self) -> usize
        ensures { result ≡ length self.now }
    {
        self.known.len()
    }

    /// Whether the unknown sorts in a sort are among them.
    pub fn has(&self, sort: &Sort) -> bool
        ensures { IsTrue result ↔ IsBelow (length self.now) sort.now }
    {
        is_below(self.known.len(), sort)
    }

    /// Whether the unknown sorts in each of some sorts are among them.
    pub fn has_all(&self, sorts: &SortList) -> bool
        ensures { IsTrue result ↔ AreBelow (length self.now) sorts.now }
    {
        are_below(self.known.len(), sorts)
    }

    /// One more, of which nothing is known; gives its number.
    pub fn fresh(&mut self) -> Result<usize, Memory>
        ensures number { IfOk result (λ n. n ≡ length self.old) }
        ensures added { OnOk result (self.new ≡ self.old ++ replicate 1 None) }
        ensures unchanged { OnErr result (self.new ≡ self.old) }
    {
        let number = self.known.len();
        self.known.push(None)?;
        Ok(number)
    }

    /// Makes two sorts equal, up to what pointers tell, by what comes to be known; false where nothing does that.
    ///
    /// Whatever is answered, sorts that agree with what is known then agree with what was known before. What a pointer
    /// tells is kept, and an unknown sort that is made equal to it tells the same.
    pub fn unify(&mut self, left: &Sort, right: &Sort) -> Result<bool, Memory>
        requires left { IsBelow (length self.old) left.now }
        requires right { IsBelow (length self.old) right.now }
        ensures length { length self.new ≡ length self.old }
        ensures grown { (f : Filling) → Agrees f self.new → Agrees f self.old }
        ensures kept { (f : Filling) → AgreesAsTold f self.new → AgreesAsTold f self.old }
        ensures equal { IfOk result (λ yes. MatchBool yes (Equates self.old left.now right.now self.new) (AreApart self.old left.now right.now)) }
    {
        unify(self.alloc, &mut self.known, left, right)
    }

    /// A sort in which what is known of them stands for the unknown ones.
    pub fn resolve(&self, sort: &Sort) -> Result<Sort, Memory>
        ensures { IfOk result (λ s. s ≡ filled (by_known self.now) sort.now) }
    {
        resolve(self.alloc, &self.known, sort)
    }

    /// A sort in which what is known of them stands for the unknown ones, and `any` for those that are unknown even
    /// so.
    pub fn settle(&self, sort: &Sort) -> Result<Sort, Memory>
        ensures { IfOk result (λ s. s ≡ filled (settling self.now) sort.now) }
    {
        settle(self.alloc, &self.known, sort)
    }

    /// A sort in which unknown sorts, from the first on, stand for so many type parameters.
    pub fn instance(&self, first: usize, count: usize, sort: &Sort) -> Result<Sort, Memory>
        requires { first + count < 2 ^ 64 }
        ensures { IfOk result (λ s. s ≡ instance first count sort.now) }
    {
        instance(self.alloc, first, count, sort)
    }
}

//! Classes that are kept aside where terms move to others, so that they can be gone back to.

ghost use Rattle.std.specs.Prelude.{◌≡◌, ◌<◌, ◌≤◌, ◌-◌, ◌^◌, ◌⊎◌, ◌∷◌, [], List, ℕ, length, Contains, IfOk, slice_index};
ghost use Rattle.vf_growing.specs.Steps.{terms_of, merges_of};
ghost use Rattle.vf_growing.specs.Histories.{IsMoved, AreMoved};

use std::alloc::Global;
use vf_base::Memory;

/// What came to be in one step: a term, or that two terms are equal.
#[derive(Clone, Copy, Debug)]
pub enum Step {
    Term,
    Merge(u32, u32),
}

/// A term, and the class in which it was.
#[derive(Clone, Copy, Debug)]
pub struct Moved {
    pub term: u32,
    pub class: u32,
}

/// A step, and the terms that it moved.
#[derive(Drop)]
pub struct Layer {
    pub step: Step,
    pub moved: Vec<Moved>,
}

/// Keeps the class of a term where the term stands in another after.
fn keep_if_moved(moved: &mut Vec<Moved>, term: u32, class: u32, after: u32) -> Result<(), Memory>
    ensures kept { IfOk result (λ _. (m : Moved) → Contains moved.old.items m → Contains moved.new.items m) }
    ensures only { IfOk result (λ _. (m : Moved) → Contains moved.new.items m → Contains moved.old.items m ⊎ (m.term ≡ term) × (m.class ≡ class)) }
    ensures looked { IfOk result (λ _. IsMoved moved.new.items term ⊎ (after ≡ class)) }
{
    if after == class {
        return Ok(());
    }
    moved.push(Moved { term, class })?;
    Ok(())
}

/// The terms that stand in other classes after a step than before, with their classes before.
pub fn moved_between(alloc: Global, before: &[u32], after: &[u32]) -> Result<Vec<Moved>, Memory>
    requires few { length before.now < 2 ^ 32 }
    requires long { length before.now ≤ length after.now }
    ensures { IfOk result (λ moved. AreMoved before.now moved.items after.now) }
{
    let mut moved = Vec::new(alloc);
    for term in 0..before.len() as u32 {
        keep_if_moved(
            &mut moved,
            term,
            before[term as usize],
            after[term as usize],
        )?;
    }
    Ok(moved)
}

/// Puts terms back into the classes in which they were.
pub fn restore(classes: &mut [u32], moved: &[Moved])
    requires { (m : Moved) → Contains moved.now m → m.term < length classes.old }
    ensures { (before : List ℕ) → AreMoved before moved.now classes.old → (k : ℕ) → k < length before → slice_index classes.new k ≡ slice_index before k }
{
    for m in moved {
        classes[m.term as usize] = m.class;
    }
}

/// How many terms there were before a step.
pub fn terms_before(terms: usize, step: Step) -> usize
    requires { terms_of (step ∷ []) ≤ terms }
    ensures { result ≡ terms - terms_of (step ∷ []) }
{
    match step {
        Step::Term => terms - 1,
        Step::Merge(_, _) => terms,
    }
}

/// How many pairs were merged before a step.
pub fn merges_before(merges: usize, step: Step) -> usize
    requires { length (merges_of (step ∷ [])) ≤ merges }
    ensures { result ≡ merges - length (merges_of (step ∷ [])) }
{
    match step {
        Step::Term => merges,
        Step::Merge(_, _) => merges - 1,
    }
}

//! Numbers of steps.

ghost use Rattle.std.specs.Prelude.{◌≡◌, ℕ, ◌+◌, ◌≤◌, length, IfOk};
ghost use Rattle.vf_flow.specs.Shown.{number_in};
ghost use Rattle.vf_flow.specs.Tables.{Lists};

use vf_base::{Memory, Sequence};

/// A number of a step for each node of a body, and one for all that is behind.
#[derive(Debug, Drop)]
pub struct StepNumbers {
    numbers: Sequence<u32>,
    end: u32,
}

impl StepNumbers {
    /// These numbers for nodes in order, and that for what is behind.
    pub fn new(numbers: Sequence<u32>, end: u32) -> StepNumbers
        ensures { (f : ℕ → ℕ) → Lists f numbers → ((i : ℕ) → length numbers ≤ i → end ≡ f i) → (i : ℕ) → number_in result i ≡ f i }
    {
        StepNumbers { numbers, end }
    }

    /// The number of a node's step.
    pub fn at(&self, node: usize) -> u32
        ensures { result ≡ number_in self.now node }
    {
        match self.numbers.get(node) {
            Some(number) => *number,
            None => self.end,
        }
    }

    /// The number of the step of the first node behind one, where so many are skipped.
    pub fn behind(&self, node: usize, skipped: usize) -> u32
        ensures { result ≡ number_in self.now (node + 1 + skipped) }
    {
        let _count = self.numbers.len();
        match node.checked_add(1) {
            Some(first) => match first.checked_add(skipped) {
                Some(at) => self.at(at),
                None => self.end,
            },
            None => self.end,
        }
    }
}

/// A number, where it fits.
///
/// # Errors
///
/// Where it doesn't.
pub fn narrow(number: usize) -> Result<u32, Memory>
    ensures { IfOk result (λ n. n ≡ number) }
{
    match u32::try_from(number) {
        Ok(narrow) => Ok(narrow),
        Err(_) => Err(Memory),
    }
}

//! What is counted so far.

ghost use Rattle.std.specs.Prelude.{◌≡◌, OnOk};
ghost use Rattle.vf_local_numbers.specs.Counting.{counting_of, noting};

use vf_base::{Memory, Sequence};
use vf_bodies::Surroundings;
use vf_lower::Draft;

/// Where lowering stands in a body, what it lowered so far, and the numbers of the locals that were declared, in the
/// order of the text.
#[derive(Drop)]
pub struct Counting<'a> {
    pub around: Surroundings,
    pub draft: Draft<'a>,
    pub declared: Sequence<usize>,
}

impl Counting<'_> {
    /// Notes the number that the next local gets.
    pub fn note(&mut self) -> Result<(), Memory>
        ensures { OnOk result (counting_of self.new ≡ noting (counting_of self.old)) }
    {
        self.declared.push(self.draft.locals.len())?;
        Ok(())
    }
}

//! How many numbers of each group are taken.

ghost use Rattle.std.specs.Prelude.{◌≡◌, ℕ, ◌+◌, ◌-◌, ◌/◌, ◌≤◌, ◌==◌, [], slice_set, slice_index_or};

use std::alloc::Global;
use vf_base::Memory;

/// How many numbers a group has.
pub const GROUP: u32 = 512;

/// How many groups are counted: there are at most 1,048,576 blocks, so that the least free number is
/// in one of these.
pub const GROUPS: u32 = 2049;

/// Counts of the taken numbers of each group, so that a search passes over the groups that are full.
#[derive(Debug, Drop)]
pub struct Groups {
    pub(crate) counts: Vec<u32>,
}

impl Groups {
    /// No number is taken.
    pub fn new(alloc: Global) -> Groups
        ensures { result.counts.items ≡ [] }
    {
        Groups {
            counts: Vec::new(alloc),
        }
    }

    /// Makes room for the count of a number's group, where that is counted.
    pub fn reach(&mut self, number: u32) -> Result<(), Memory>
        ensures { (group : ℕ) → slice_index_or self.new.counts.items group 0 ≡ slice_index_or self.old.counts.items group 0 }
    {
        let group = number / GROUP;
        if group < GROUPS {
            let known = self.counts.len();
            for _ in known..group as usize + 1 {
                self.counts.push(0)?;
            }
        }
        Ok(())
    }

    /// Counts a number that is taken from now on.
    pub fn add(&mut self, number: u32)
        requires { slice_index_or self.old.counts.items (number / 512) 0 ≤ 512 }
        ensures { self.new.counts.items ≡ slice_set self.old.counts.items (number / 512) (slice_index_or self.old.counts.items (number / 512) 0 + 1) }
    {
        let group = (number / GROUP) as usize;
        if group < self.counts.len() {
            self.counts[group] += 1;
        }
    }

    /// Counts a number that is free from now on.
    pub fn subtract(&mut self, number: u32)
        ensures { self.new.counts.items ≡ slice_set self.old.counts.items (number / 512) (slice_index_or self.old.counts.items (number / 512) 0 - 1) }
    {
        let group = (number / GROUP) as usize;
        if group < self.counts.len() {
            self.counts[group] = self.counts[group].saturating_sub(1);
        }
    }

    /// Whether each number of a group is taken, as far as that is counted.
    pub fn is_full(&self, group: u32) -> bool
        ensures { result ≡ (slice_index_or self.now.counts.items group 0 == 512) }
    {
        let group = group as usize;
        group < self.counts.len() && self.counts[group] == GROUP
    }
}

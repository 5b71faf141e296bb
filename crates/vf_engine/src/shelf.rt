//! Where the blocks are kept: those of low numbers one after another, the others in a map.

ghost use Rattle.std.specs.Prelude.{◌≡◌, ◌+◌, ◌-◌, ◌^◌, ◌<◌, [], length, is_some, IsSome, Some, None, slice_index_or, OnOk, OnErr};
ghost use Rattle.std.specs.Option.{option_copied};

use crate::blocks::Block;
use crate::value::Value;
use crate::writing::set_cell;
use std::alloc::Global;
use std::collections::BTreeMap;
use vf_base::Memory;

/// Blocks by their numbers. A number that comes in order has its place in `low`, where it is found in
/// one step; one that lies beyond the next place is a key of `beyond`, where it stays until it has no
/// block any more or gets one in `low`.
#[derive(Debug, Drop)]
pub struct Shelf {
    pub(crate) low: Vec<Option<Block>>,
    pub(crate) beyond: BTreeMap<u32, Block>,
}

impl Shelf {
    ghost use Rattle.vf_engine.specs.Memories.{IsSet};
    ghost use Rattle.vf_engine.specs.Shelves.{block_on, IsSameShelf, HasAt, IsChangedAt};

    /// No blocks.
    pub fn new(alloc: Global) -> Shelf
        ensures low { result.low.items ≡ [] }
        ensures beyond { result.beyond.entries ≡ [] }
    {
        Shelf {
            low: Vec::new(alloc),
            beyond: BTreeMap::new(alloc),
        }
    }

    /// The block of a number.
    pub fn get(&self, number: u32) -> Option<&Block>
        ensures { option_copied result ≡ block_on self.now number }
    {
        let index = number as usize;
        if index < self.low.len()
            && let Some(block) = &self.low[index]
        {
            return Some(block);
        }
        self.beyond.get(&number)
    }

    /// How many places there are: each block has one.
    pub fn places(&self) -> usize
        ensures places { result ≡ length self.now.low.items + length self.now.beyond.entries }
        ensures small { result < 2 ^ 64 - 1 }
    {
        self.low.len() + self.beyond.len()
    }

    /// Makes a place for a number that comes next, or next but one.
    fn reach(&mut self, number: u32) -> Result<(), Memory>
        ensures { IsSameShelf self.old self.new }
    {
        let index = number as usize;
        if index == self.low.len() + 1 {
            self.low.push(None)?;
        }
        if index == self.low.len() {
            self.low.push(None)?;
        }
        Ok(())
    }

    /// Puts a block at a number.
    pub fn put(&mut self, number: u32, block: Block) -> Result<(), Memory>
        ensures put { OnOk result (HasAt self.old self.new number (Some block)) }
        ensures unchanged { OnErr result (IsSameShelf self.old self.new) }
    {
        self.reach(number)?;
        let index = number as usize;
        if index < self.low.len() {
            self.low[index] = Some(block);
        } else {
            let _old = self.beyond.insert(number, block)?;
        }
        Ok(())
    }

    /// Takes the block of a number away.
    pub fn take(&mut self, number: u32)
        ensures { HasAt self.old self.new number None }
    {
        let index = number as usize;
        if index < self.low.len() {
            self.low[index] = None;
        }
        let _old = self.beyond.remove(&number);
    }

    /// Puts another block in the place of one.
    pub fn replace(&mut self, number: u32, block: Block)
        requires { IsSome (block_on self.old number) }
        ensures { HasAt self.old self.new number (Some block) }
    {
        let index = number as usize;
        if index < self.low.len() && self.low[index].is_some() {
            self.low[index] = Some(block);
        } else if let Some(old) = self.beyond.get_mut(&number) {
            *old = block;
        }
    }

    /// Whether the block of a number has its place in order.
    fn has_low(&self, number: u32) -> bool
        ensures { result ≡ is_some (slice_index_or self.now.low.items number None) }
    {
        let index = number as usize;
        index < self.low.len() && self.low[index].is_some()
    }

    /// Writes a cell, where it is there.
    pub fn write(&mut self, number: u32, index: usize, value: Value)
        ensures { IsChangedAt self.old self.new number (IsSet index value) }
    {
        if self.has_low(number) {
            if let Some(block) = &mut self.low[number as usize] {
                set_cell(block, index, value);
            }
        } else if let Some(block) = self.beyond.get_mut(&number) {
            set_cell(block, index, value);
        }
    }
}

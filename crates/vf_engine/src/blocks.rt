//! Blocks, by their numbers.

ghost use Rattle.std.specs.Prelude.{◌≡◌, ◌+◌, ◌*◌, ◌≤◌, ◌<◌, not, List, [], is_some, IsSome, IfSome, IfNone, IfOk, OnOk, OnErr};
ghost use Rattle.std.specs.Option.{option_map, option_copied};
ghost use Rattle.std.specs.FinMap as finite;
ghost use Rattle.std.specs.FinMap.{from_entries};
ghost use Rattle.std.specs.Ordering.{nat_cmp};
ghost use Rattle.vf_tree.specs.Core.{Identity};
ghost use Rattle.vf_model.specs.Memory.{block_at, pointed_at, written, granted_block};
ghost use Rattle.vf_engine.specs.Values.{value_of};
ghost use Rattle.vf_engine.specs.Shelves.{block_on, blocks_on};
ghost use Rattle.vf_engine.specs.Taken.{AreTaken, AreCounted, IsFirstFree};

use crate::groups::{GROUP, GROUPS, Groups};
use crate::shelf::Shelf;
use crate::value::Value;
use std::alloc::Global;
use vf_base::Memory;
use vf_core::Name;

/// A block.
#[derive(Debug, Drop)]
pub enum Block {
    /// A struct, with a cell for each field.
    Struct {
        structure: Name,
        cells: Vec<Option<Value>>,
    },
    /// An array of `int`.
    Ints(Vec<Option<Value>>),
    /// A mutex, and the thread that holds it.
    Mutex(Option<u32>),
    /// The handle of a thread that can be joined.
    Handle {
        thread: u32,
        run: Name,
        argument: Value,
    },
}

/// The allocated blocks, how many there are, how many numbers of each group are taken, and a number
/// below which none is free: where the search for the least free number begins.
#[derive(Debug, Drop)]
pub struct Blocks {
    pub(crate) shelf: Shelf,
    count: usize,
    groups: Groups,
    pub(crate) least: u32,
    ghost counted: { count ≡ finite.len (from_entries {R = nat_cmp} (blocks_on shelf)) },
    ghost grouped: { AreCounted (block_on shelf) groups.counts.items },
    ghost from_one: { 1 ≤ least },
    ghost taken: { AreTaken (block_on shelf) least },
}

impl Blocks {
    ghost use Rattle.vf_engine.specs.Memories.{block_of, memory_of};

    /// No blocks.
    pub fn new(alloc: Global) -> Blocks
        ensures { (names : List Identity) → memory_of names result ≡ finite.empty }
    {
        Blocks {
            shelf: Shelf::new(alloc),
            count: 0,
            groups: Groups::new(alloc),
            least: 1,
        }
    }

    /// The block of a number.
    pub fn get(&self, number: u32) -> Option<&Block>
        ensures { (names : List Identity) → option_map (block_of names) (option_copied result) ≡ block_at (memory_of names self.now) number }
    {
        self.shelf.get(number)
    }

    /// The block that a value points to the beginning of.
    pub fn pointed_at(&self, pointer: Value) -> Option<&Block>
        ensures { (names : List Identity) → option_map (block_of names) (option_copied result) ≡ pointed_at (memory_of names self.now) (value_of names pointer) }
    {
        match pointer {
            Value::Pointer { block, offset: 0 } => self.get(block),
            _ => None,
        }
    }

    /// Whether no block has the number.
    fn is_free(&self, number: u32) -> bool
        ensures { result ≡ not (is_some (block_on self.now.shelf number)) }
    {
        self.shelf.get(number).is_none()
    }

    /// Puts a block at a number.
    pub fn insert(&mut self, number: u32, block: Block) -> Result<(), Memory>
        ensures inserted { OnOk result ((names : List Identity) → memory_of names self.new ≡ finite.insert (memory_of names self.old) number (block_of names block)) }
        ensures unchanged { OnErr result ((names : List Identity) → memory_of names self.new ≡ memory_of names self.old) }
    {
        if !self.is_free(number) {
            self.shelf.replace(number, block);
            return Ok(());
        }
        // There are no more blocks than places, so that the count goes on.
        let _places = self.shelf.places();
        self.groups.reach(number)?;
        self.shelf.put(number, block)?;
        self.count += 1;
        self.groups.add(number);
        Ok(())
    }

    /// How many blocks there are.
    pub fn len(&self) -> usize
        ensures { (names : List Identity) → result ≡ finite.len (memory_of names self.now) }
    {
        self.count
    }

    /// The least free number of a group where all numbers below it are taken.
    fn free_in(&self, group: u32) -> Option<u32>
        requires below { AreTaken (block_on self.now.shelf) (512 * group) }
        requires counted { group < 2049 }
        ensures found { IfSome result (λ number. IsFirstFree (block_on self.now.shelf) number) }
        ensures full { IfNone result (AreTaken (block_on self.now.shelf) (512 * (group + 1))) }
    {
        if self.groups.is_full(group) {
            return None;
        }
        for number in self.least.max(group * GROUP)..(group + 1) * GROUP {
            if self.is_free(number) {
                return Some(number);
            }
        }
        None
    }

    /// The least free number from 1 on.
    fn least_free(&self) -> u32
        requires { (names : List Identity) → finite.len (memory_of names self.now) < 1048576 }
        ensures { IsFirstFree (block_on self.now.shelf) result }
    {
        for group in self.least / GROUP..GROUPS {
            if let Some(number) = self.free_in(group) {
                return number;
            }
        }
        unreachable!()
    }

    /// The number of the block that a grant other than 0 gives: the wanted one where it is free, else
    /// the least free from 1 on, where the next search begins.
    fn granted(&mut self, grant: u32) -> u32
        requires { (names : List Identity) → finite.len (memory_of names self.old) < 1048576 }
        ensures number { (names : List Identity) → result ≡ granted_block (memory_of names self.old) grant }
        ensures unchanged { (names : List Identity) → memory_of names self.new ≡ memory_of names self.old }
    {
        if self.is_free(grant) {
            return grant;
        }
        let number = self.least_free();
        self.least = number;
        number
    }

    /// Puts a block at the number that a grant other than 0 gives.
    pub fn allocate(&mut self, grant: u32, block: Block) -> Result<u32, Memory>
        requires { (names : List Identity) → finite.len (memory_of names self.old) < 1048576 }
        ensures number { IfOk result (λ number. (names : List Identity) → number ≡ granted_block (memory_of names self.old) grant) }
        ensures inserted { IfOk result (λ number. (names : List Identity) → memory_of names self.new ≡ finite.insert (memory_of names self.old) number (block_of names block)) }
        ensures unchanged { OnErr result ((names : List Identity) → memory_of names self.new ≡ memory_of names self.old) }
    {
        let number = self.granted(grant);
        self.insert(number, block)?;
        Ok(number)
    }

    /// Takes the block of a number away.
    pub fn remove(&mut self, number: u32)
        ensures { (names : List Identity) → memory_of names self.new ≡ finite.remove (memory_of names self.old) number }
    {
        if self.is_free(number) {
            return;
        }
        self.shelf.take(number);
        self.count -= 1;
        self.groups.subtract(number);
        self.least = self.least.min(number.max(1));
    }

    /// Puts another block in the place of one.
    pub fn replace(&mut self, number: u32, block: Block)
        requires { IsSome (finite.get (memory_of [] self.old) number) }
        ensures { (names : List Identity) → memory_of names self.new ≡ finite.insert (memory_of names self.old) number (block_of names block) }
    {
        self.shelf.replace(number, block);
    }

    /// Writes a cell, where it is there.
    pub fn write(&mut self, number: u32, index: usize, value: Value)
        ensures { (names : List Identity) → memory_of names self.new ≡ written (memory_of names self.old) (record { block = number; index = index }) (value_of names value) }
    {
        self.shelf.write(number, index, value);
    }
}

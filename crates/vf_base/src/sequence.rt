//! Lists that contracts see as lists.

ghost use Rattle.std.specs.Prelude.{◌≡◌, [], ◌∷◌, ◌++◌, ◌<◌, ◌↔◌, length, Contains, slice_get, slice_set, IfOk, IsTrue, OnOk, OnErr};
ghost use Rattle.std.specs.Option.{option_copied};

use crate::memory::Memory;
use std::alloc::Global;
use std::marker::Model;

/// A list that grows at its end, which contracts see as the list of its items.
#[derive(Debug, Drop)]
pub struct Sequence<T> {
    items: Vec<T>,
}

/// A list of numbers.
pub type NumberList = Sequence<u64>;

impl<T> Model for Sequence<T> {
    ghost use Rattle.std.specs.Prelude.{List};
    ghost use Rattle.std.specs.Coded.{coded_list};

    ghost Value = { List T };

    ghost coded = { coded_list T.code };

    ghost view = { λ s. s.items.items };
}

impl<T> Sequence<T> {
    /// The empty list, which takes no memory.
    pub fn new(alloc: Global) -> Sequence<T>
        ensures { result ≡ [] }
    {
        Sequence {
            items: Vec::new(alloc),
        }
    }

    /// How many items it has.
    pub fn len(&self) -> usize
        ensures { result ≡ length self.now }
    {
        self.items.len()
    }

    /// Whether it has no item.
    pub fn is_empty(&self) -> bool
        ensures { IsTrue result ↔ (self.now ≡ []) }
    {
        self.items.is_empty()
    }

    /// The item at an index, counted from 0.
    pub fn get(&self, at: usize) -> Option<&T>
        ensures { option_copied result ≡ slice_get self.now at }
    {
        self.items.get(at)
    }

    /// The items as a slice.
    pub fn as_slice(&self) -> &[T]
        ensures { result.now ≡ self.now }
    {
        self.items.as_slice()
    }
}

impl<T: Drop> Sequence<T> {
    /// Puts an item at the end. Where there is no memory for it the list stays as it was.
    pub fn push(&mut self, item: T) -> Result<(), Memory>
        ensures pushed { OnOk result (self.new ≡ self.old ++ item ∷ []) }
        ensures unchanged { OnErr result (self.new ≡ self.old) }
    {
        self.items.push(item)?;
        Ok(())
    }

    /// Writes an item in the place of another.
    pub fn set(&mut self, at: usize, item: T)
        requires { at < length self.old }
        ensures { self.new ≡ slice_set self.old at item }
    {
        self.items[at] = item;
    }
}

impl<T: Copy> Sequence<T> {
    /// The same list again.
    pub fn copy(&self) -> Result<Sequence<T>, Memory>
        ensures { IfOk result (λ s. s ≡ self.now) }
    {
        let alloc = *self.items.allocator();
        let items = Vec::from_slice(alloc, self.items.as_slice())?;
        Ok(Sequence { items })
    }
}

impl Sequence<u64> {
    /// Whether a number is one of its items.
    pub fn contains(&self, number: u64) -> bool
        ensures { IsTrue result ↔ Contains self.now number }
    {
        self.items.contains(&number)
    }
}

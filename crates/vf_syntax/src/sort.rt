// Written by tools/gen_syntax.py: change it there.
//! Sorts.

ghost use Rattle.std.specs.Prelude.{◌≡◌, [], ◌∷◌, ◌++◌, length, slice_get, OnOk};
ghost use Rattle.std.specs.Option.{option_copied};

use crate::written::CType;
use std::alloc::Global;
use std::marker::Model;
use vf_base::{Memory, Place, Text};

/// A sort of ghost text, and the place of its first token.
#[cycle(sort)]
#[derive(Drop)]
pub struct Sort {
    pub place: Place,
    pub node: SortNode,
}

#[cycle(sort)]
#[derive(Drop)]
pub enum SortNode {
    /// `real`
    Real,
    /// `any`
    Any,
    /// A type of C.
    Type(CType),
    /// A datatype with its arguments, or a type parameter.
    Name(Text, SortList),
    /// `predicate(..)`
    Predicate(SortList),
}

impl Model for Sort {
    ghost use Rattle.vf_syntax.specs.SortTree.{SortTree};
    ghost use Rattle.vf_syntax.specs.SortCodes.{coded_sort};

    ghost Value = { SortTree };

    ghost coded = { coded_sort };

    ghost use Rattle.vf_syntax.specs.SortTree.{sort_nodes};
    ghost use Rattle.vf_syntax.specs.SortShown.{sort_of};

    ghost view = { λ x. sort_of x.place x.node };

    ghost size = { sort_nodes };
}

/// A list of these: [`Sort`].
#[cycle(sort)]
#[derive(Drop)]
pub struct SortList {
    items: Vec<Sort>,
}

impl Model for SortList {
    ghost use Rattle.std.specs.Prelude.{List};
    ghost use Rattle.vf_syntax.specs.SortTree.{SortTree};
    ghost use Rattle.vf_syntax.specs.SortCodes.{coded_sort_list};

    ghost Value = { List SortTree };

    ghost coded = { coded_sort_list };

    ghost view = { λ l. l.items.items };

    ghost use Rattle.vf_syntax.specs.SortTree.{sort_nodes_all, sort_list};

    ghost size = { λ xs. sort_nodes_all (sort_list xs) };

    ghost use Rattle.std.proofs.Common.{arith};
    ghost use Rattle.vf_syntax.specs.SortTree.{most_le-sort_nodes_all};

    ghost size_decreases = { λ l h. Prim.omega (arith, most_le-sort_nodes_all l.items.items) };
}

impl SortList {
    /// The empty list, which takes no memory.
    pub fn new(alloc: Global) -> SortList
        ensures { result ≡ [] }
    {
        SortList {
            items: Vec::new(alloc),
        }
    }

    /// Puts an item at the end.
    pub fn push(&mut self, item: Sort) -> Result<(), Memory>
        ensures { OnOk result (self.new ≡ self.old ++ item ∷ []) }
    {
        self.items.push(item)?;
        Ok(())
    }

    /// How many items it has.
    pub fn len(&self) -> usize
        ensures { result ≡ length self.now }
    {
        self.items.len()
    }

    /// The item at an index, counted from 0.
    pub fn get(&self, at: usize) -> Option<&Sort>
        ensures { option_copied result ≡ slice_get self.now at }
    {
        self.items.get(at)
    }
}

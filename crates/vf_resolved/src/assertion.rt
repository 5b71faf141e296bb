// Written by tools/gen_syntax.py: change it there.
//! Assertions.

ghost use Rattle.std.specs.Prelude.{◌≡◌, [], ◌∷◌, ◌++◌, length, slice_get, OnOk};
ghost use Rattle.std.specs.Option.{option_copied};

use crate::head::{CellField, Head};
use crate::pattern::{Pattern, Share, Slot};
use crate::truth::Truth;
use std::alloc::Global;
use std::marker::Model;
use vf_base::{Memory, Place, Sequence, Text};
use vf_formula::Term;

/// A part of an assertion, and the place of its first token.
#[cycle(assertion)]
#[derive(Drop)]
pub struct Part {
    pub place: Place,
    pub node: PartNode,
}

#[cycle(assertion)]
#[derive(Drop)]
pub enum PartNode {
    /// A truth value.
    Pure(Truth),
    /// `emp`
    Empty,
    /// `(A)`
    Group(Assertion),
    /// `c ? A : B`
    Conditional(Truth, Assertion, Assertion),
    /// `switch (e) { .. }`
    Switch(Term, BranchList),
    /// `[s]e->f |-> v`
    Cell(Option<Share>, Term, CellField, Pattern),
    /// `[s]p(..)`
    Chunk(Option<Share>, Head, Sequence<Pattern>),
}

impl Model for Part {
    ghost use Rattle.vf_resolved.specs.AssertionTree.{PartTree};
    ghost use Rattle.vf_resolved.specs.AssertionCodes.{coded_part};

    ghost Value = { PartTree };

    ghost coded = { coded_part };

    ghost use Rattle.vf_resolved.specs.AssertionTree.{part_nodes};
    ghost use Rattle.vf_resolved.specs.AssertionShown.{part_of};

    ghost view = { λ x. part_of x.place x.node };

    ghost size = { part_nodes };
}

/// A case of a `switch`, and the place of its `case`: the identity of its constructor, the place of that among the constructors of the datatype, counted from 0, and the names of its arguments.
#[cycle(assertion)]
#[derive(Drop)]
pub struct Branch {
    pub place: Place,
    pub constructor: Text,
    pub number: usize,
    pub names: Sequence<Slot>,
    pub body: Assertion,
}

impl Model for Branch {
    ghost use Rattle.vf_resolved.specs.AssertionTree.{BranchTree};
    ghost use Rattle.vf_resolved.specs.AssertionCodes.{coded_branch};

    ghost Value = { BranchTree };

    ghost coded = { coded_branch };

    ghost use Rattle.vf_resolved.specs.AssertionTree.{branch_nodes};
    ghost use Rattle.vf_resolved.specs.AssertionTree as tree;
    ghost use Rattle.vf_resolved.specs.AssertionTree.{part_list};

    ghost view = { λ x. tree.branch x.place x.constructor x.number x.names (part_list x.body) };

    ghost size = { branch_nodes };
}

/// An assertion: its parts, which `&*&` joins.
#[cycle(assertion)]
#[derive(Drop)]
pub struct Assertion {
    items: Vec<Part>,
}

impl Model for Assertion {
    ghost use Rattle.std.specs.Prelude.{List};
    ghost use Rattle.vf_resolved.specs.AssertionTree.{PartTree};
    ghost use Rattle.vf_resolved.specs.AssertionCodes.{coded_part_list};

    ghost Value = { List PartTree };

    ghost coded = { coded_part_list };

    ghost view = { λ l. l.items.items };

    ghost use Rattle.vf_resolved.specs.AssertionTree.{part_nodes_all, part_list};

    ghost size = { λ xs. part_nodes_all (part_list xs) };

    ghost use Rattle.std.proofs.Common.{arith};
    ghost use Rattle.vf_resolved.specs.AssertionTree.{most_le-part_nodes_all};

    ghost size_decreases = { λ l h. Prim.omega (arith, most_le-part_nodes_all l.items.items) };
}

impl Assertion {
    /// The empty list, which takes no memory.
    pub fn new(alloc: Global) -> Assertion
        ensures { result ≡ [] }
    {
        Assertion {
            items: Vec::new(alloc),
        }
    }

    /// Puts an item at the end.
    pub fn push(&mut self, item: Part) -> Result<(), Memory>
        ensures { OnOk result (self.new ≡ self.old ++ item ∷ []) }
    {
        self.items.push(item)?;
        Ok(())
    }

    /// How many items it has.
    pub fn len(&self) -> usize
        ensures { result ≡ length self.now }
    {
        self.items.len()
    }

    /// The item at an index, counted from 0.
    pub fn get(&self, at: usize) -> Option<&Part>
        ensures { option_copied result ≡ slice_get self.now at }
    {
        self.items.get(at)
    }
}

/// A list of these: [`Branch`].
#[cycle(assertion)]
#[derive(Drop)]
pub struct BranchList {
    items: Vec<Branch>,
}

impl Model for BranchList {
    ghost use Rattle.std.specs.Prelude.{List};
    ghost use Rattle.vf_resolved.specs.AssertionTree.{BranchTree};
    ghost use Rattle.vf_resolved.specs.AssertionCodes.{coded_branch_list};

    ghost Value = { List BranchTree };

    ghost coded = { coded_branch_list };

    ghost view = { λ l. l.items.items };

    ghost use Rattle.vf_resolved.specs.AssertionTree.{branch_nodes_all, branch_list};

    ghost size = { λ xs. branch_nodes_all (branch_list xs) };

    ghost use Rattle.std.proofs.Common.{arith};
    ghost use Rattle.vf_resolved.specs.AssertionTree.{most_le-branch_nodes_all};

    ghost size_decreases = { λ l h. Prim.omega (arith, most_le-branch_nodes_all l.items.items) };
}

impl BranchList {
    /// The empty list, which takes no memory.
    pub fn new(alloc: Global) -> BranchList
        ensures { result ≡ [] }
    {
        BranchList {
            items: Vec::new(alloc),
        }
    }

    /// Puts an item at the end.
    pub fn push(&mut self, item: Branch) -> Result<(), Memory>
        ensures { OnOk result (self.new ≡ self.old ++ item ∷ []) }
    {
        self.items.push(item)?;
        Ok(())
    }

    /// How many items it has.
    pub fn len(&self) -> usize
        ensures { result ≡ length self.now }
    {
        self.items.len()
    }

    /// The item at an index, counted from 0.
    pub fn get(&self, at: usize) -> Option<&Branch>
        ensures { option_copied result ≡ slice_get self.now at }
    {
        self.items.get(at)
    }
}

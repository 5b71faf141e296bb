// Written by tools/gen_syntax.py: change it there.
//! Assertions.

ghost use Rattle.std.specs.Prelude.{◌≡◌, [], ◌∷◌, ◌++◌, length, slice_get, OnOk};
ghost use Rattle.std.specs.Option.{option_copied};

use crate::ghost_expr::GhostExpr;
use crate::pattern::{CasePattern, Pattern, Share};
use crate::written::Name;
use std::alloc::Global;
use std::marker::Model;
use vf_base::{Memory, Place, Sequence};

/// A part of an assertion, and the place of its first token.
#[cycle(assertion)]
#[derive(Drop)]
pub struct Part {
    pub place: Place,
    pub node: PartNode,
}

#[cycle(assertion)]
#[derive(Drop)]
pub enum PartNode {
    /// `c ? A : B`
    Conditional(GhostExpr, Assertion, Assertion),
    /// `switch (e) { .. }`
    Switch(GhostExpr, AssertionCaseList),
    /// `[s]e->f |-> v`
    Cell(Option<Share>, GhostExpr, Name, Pattern),
    /// `[s]p(..)` or `[s]p(..)(..)`
    Chunk(Option<Share>, Name, Sequence<Pattern>, Option<Sequence<Pattern>>),
    /// `emp`
    Empty,
    /// An expression that is no application.
    Pure(GhostExpr),
    /// `(A)`, where A is no expression.
    Group(Assertion),
}

impl Model for Part {
    ghost use Rattle.vf_syntax.specs.AssertionTree.{PartTree};
    ghost use Rattle.vf_syntax.specs.AssertionCodes.{coded_part};

    ghost Value = { PartTree };

    ghost coded = { coded_part };

    ghost use Rattle.vf_syntax.specs.AssertionTree.{part_nodes};
    ghost use Rattle.vf_syntax.specs.AssertionShown.{part_of};

    ghost view = { λ x. part_of x.place x.node };

    ghost size = { part_nodes };
}

/// A case of a `switch` in an assertion, and the place of its `case`.
#[cycle(assertion)]
#[derive(Drop)]
pub struct AssertionCase {
    pub place: Place,
    pub pattern: CasePattern,
    pub body: Assertion,
}

impl Model for AssertionCase {
    ghost use Rattle.vf_syntax.specs.AssertionTree.{AssertionCaseTree};
    ghost use Rattle.vf_syntax.specs.AssertionCodes.{coded_assertion_case};

    ghost Value = { AssertionCaseTree };

    ghost coded = { coded_assertion_case };

    ghost use Rattle.vf_syntax.specs.AssertionTree.{assertion_case_nodes};
    ghost use Rattle.vf_syntax.specs.AssertionTree as tree;
    ghost use Rattle.vf_syntax.specs.AssertionTree.{part_list};

    ghost view = { λ x. tree.assertion_case x.place x.pattern (part_list x.body) };

    ghost size = { assertion_case_nodes };
}

/// An assertion: its parts, which `&*&` joins.
#[cycle(assertion)]
#[derive(Drop)]
pub struct Assertion {
    items: Vec<Part>,
}

impl Model for Assertion {
    ghost use Rattle.std.specs.Prelude.{List};
    ghost use Rattle.vf_syntax.specs.AssertionTree.{PartTree};
    ghost use Rattle.vf_syntax.specs.AssertionCodes.{coded_part_list};

    ghost Value = { List PartTree };

    ghost coded = { coded_part_list };

    ghost view = { λ l. l.items.items };

    ghost use Rattle.vf_syntax.specs.AssertionTree.{part_nodes_all, part_list};

    ghost size = { λ xs. part_nodes_all (part_list xs) };

    ghost use Rattle.std.proofs.Common.{arith};
    ghost use Rattle.vf_syntax.specs.AssertionTree.{most_le-part_nodes_all};

    ghost size_decreases = { λ l h. Prim.omega (arith, most_le-part_nodes_all l.items.items) };
}

impl Assertion {
    /// The empty list, which takes no memory.
    pub fn new(alloc: Global) -> Assertion
        ensures { result ≡ [] }
    {
        Assertion {
            items: Vec::new(alloc),
        }
    }

    /// Puts an item at the end.
    pub fn push(&mut self, item: Part) -> Result<(), Memory>
        ensures { OnOk result (self.new ≡ self.old ++ item ∷ []) }
    {
        self.items.push(item)?;
        Ok(())
    }

    /// How many items it has.
    pub fn len(&self) -> usize
        ensures { result ≡ length self.now }
    {
        self.items.len()
    }

    /// The item at an index, counted from 0.
    pub fn get(&self, at: usize) -> Option<&Part>
        ensures { option_copied result ≡ slice_get self.now at }
    {
        self.items.get(at)
    }
}

/// A list of these: [`AssertionCase`].
#[cycle(assertion)]
#[derive(Drop)]
pub struct AssertionCaseList {
    items: Vec<AssertionCase>,
}

impl Model for AssertionCaseList {
    ghost use Rattle.std.specs.Prelude.{List};
    ghost use Rattle.vf_syntax.specs.AssertionTree.{AssertionCaseTree};
    ghost use Rattle.vf_syntax.specs.AssertionCodes.{coded_assertion_case_list};

    ghost Value = { List AssertionCaseTree };

    ghost coded = { coded_assertion_case_list };

    ghost view = { λ l. l.items.items };

    ghost use Rattle.vf_syntax.specs.AssertionTree.{assertion_case_nodes_all, assertion_case_list};

    ghost size = { λ xs. assertion_case_nodes_all (assertion_case_list xs) };

    ghost use Rattle.std.proofs.Common.{arith};
    ghost use Rattle.vf_syntax.specs.AssertionTree.{most_le-assertion_case_nodes_all};

    ghost size_decreases = { λ l h. Prim.omega (arith, most_le-assertion_case_nodes_all l.items.items) };
}

impl AssertionCaseList {
    /// The empty list, which takes no memory.
    pub fn new(alloc: Global) -> AssertionCaseList
        ensures { result ≡ [] }
    {
        AssertionCaseList {
            items: Vec::new(alloc),
        }
    }

    /// Puts an item at the end.
    pub fn push(&mut self, item: AssertionCase) -> Result<(), Memory>
        ensures { OnOk result (self.new ≡ self.old ++ item ∷ []) }
    {
        self.items.push(item)?;
        Ok(())
    }

    /// How many items it has.
    pub fn len(&self) -> usize
        ensures { result ≡ length self.now }
    {
        self.items.len()
    }

    /// The item at an index, counted from 0.
    pub fn get(&self, at: usize) -> Option<&AssertionCase>
        ensures { option_copied result ≡ slice_get self.now at }
    {
        self.items.get(at)
    }
}

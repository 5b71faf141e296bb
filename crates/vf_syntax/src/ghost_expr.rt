// Written by tools/gen_syntax.py: change it there.
//! Expressions of ghost text.

ghost use Rattle.std.specs.Prelude.{◌≡◌, [], ◌∷◌, ◌++◌, length, slice_get, OnOk};
ghost use Rattle.std.specs.Option.{option_copied};

use crate::operator::{BinaryOperator, Level, UnaryOperator};
use std::alloc::Global;
use std::marker::Model;
use vf_base::{IntType, Memory, Place, Text};

/// An expression of ghost text, and the place of its first token.
#[cycle(ghost_expr)]
#[derive(Drop)]
pub struct GhostExpr {
    pub place: Place,
    pub node: GhostExprNode,
}

#[cycle(ghost_expr)]
#[derive(Drop)]
pub enum GhostExprNode {
    /// A number and its type.
    Number(u64, IntType),
    /// `true`
    True,
    /// `false`
    False,
    /// `result`
    Result,
    /// `this`
    This,
    /// `currentThread`
    CurrentThread,
    /// A name.
    Name(Text),
    /// A name applied to arguments.
    Application(Text, GhostExprList),
    /// `( .. )`
    Parenthesized(Box<GhostExpr>),
    /// `(c ? a : b)`
    Conditional(Box<GhostExpr>, Box<GhostExpr>, Box<GhostExpr>),
    /// `-` or `!`
    Unary(UnaryOperator, Box<GhostExpr>),
    /// Operands joined by operators of one level, from left to right, with one operator at least.
    Chain(Level, Box<GhostExpr>, GhostLinkList),
}

impl Model for GhostExpr {
    ghost use Rattle.vf_syntax.specs.GhostExprTree.{GhostExprTree};
    ghost use Rattle.vf_syntax.specs.GhostExprCodes.{coded_ghost_expr};

    ghost Value = { GhostExprTree };

    ghost coded = { coded_ghost_expr };

    ghost use Rattle.vf_syntax.specs.GhostExprTree.{ghost_expr_nodes};
    ghost use Rattle.vf_syntax.specs.GhostExprShown.{ghost_expr_of};

    ghost view = { λ x. ghost_expr_of x.place x.node };

    ghost size = { ghost_expr_nodes };
}

/// An operator, its place, and the operand behind it.
#[cycle(ghost_expr)]
#[derive(Drop)]
pub struct GhostLink {
    pub place: Place,
    pub operator: BinaryOperator,
    pub operand: GhostExpr,
}

impl Model for GhostLink {
    ghost use Rattle.vf_syntax.specs.GhostExprTree.{GhostLinkTree};
    ghost use Rattle.vf_syntax.specs.GhostExprCodes.{coded_ghost_link};

    ghost Value = { GhostLinkTree };

    ghost coded = { coded_ghost_link };

    ghost use Rattle.vf_syntax.specs.GhostExprTree.{ghost_link_nodes};
    ghost use Rattle.vf_syntax.specs.GhostExprTree as tree;

    ghost view = { λ x. tree.ghost_link x.place x.operator x.operand };

    ghost size = { ghost_link_nodes };
}

/// A list of these: [`GhostExpr`].
#[cycle(ghost_expr)]
#[derive(Drop)]
pub struct GhostExprList {
    items: Vec<GhostExpr>,
}

impl Model for GhostExprList {
    ghost use Rattle.std.specs.Prelude.{List};
    ghost use Rattle.vf_syntax.specs.GhostExprTree.{GhostExprTree};
    ghost use Rattle.vf_syntax.specs.GhostExprCodes.{coded_ghost_expr_list};

    ghost Value = { List GhostExprTree };

    ghost coded = { coded_ghost_expr_list };

    ghost view = { λ l. l.items.items };

    ghost use Rattle.vf_syntax.specs.GhostExprTree.{ghost_expr_nodes_all, ghost_expr_list};

    ghost size = { λ xs. ghost_expr_nodes_all (ghost_expr_list xs) };

    ghost use Rattle.std.proofs.Common.{arith};
    ghost use Rattle.vf_syntax.specs.GhostExprTree.{most_le-ghost_expr_nodes_all};

    ghost size_decreases = { λ l h. Prim.omega (arith, most_le-ghost_expr_nodes_all l.items.items) };
}

impl GhostExprList {
    /// The empty list, which takes no memory.
    pub fn new(alloc: Global) -> GhostExprList
        ensures { result ≡ [] }
    {
        GhostExprList {
            items: Vec::new(alloc),
        }
    }

    /// Puts an item at the end.
    pub fn push(&mut self, item: GhostExpr) -> Result<(), Memory>
        ensures { OnOk result (self.new ≡ self.old ++ item ∷ []) }
    {
        self.items.push(item)?;
        Ok(())
    }

    /// How many items it has.
    pub fn len(&self) -> usize
        ensures { result ≡ length self.now }
    {
        self.items.len()
    }

    /// The item at an index, counted from 0.
    pub fn get(&self, at: usize) -> Option<&GhostExpr>
        ensures { option_copied result ≡ slice_get self.now at }
    {
        self.items.get(at)
    }
}

/// A list of these: [`GhostLink`].
#[cycle(ghost_expr)]
#[derive(Drop)]
pub struct GhostLinkList {
    items: Vec<GhostLink>,
}

impl Model for GhostLinkList {
    ghost use Rattle.std.specs.Prelude.{List};
    ghost use Rattle.vf_syntax.specs.GhostExprTree.{GhostLinkTree};
    ghost use Rattle.vf_syntax.specs.GhostExprCodes.{coded_ghost_link_list};

    ghost Value = { List GhostLinkTree };

    ghost coded = { coded_ghost_link_list };

    ghost view = { λ l. l.items.items };

    ghost use Rattle.vf_syntax.specs.GhostExprTree.{ghost_link_nodes_all, ghost_link_list};

    ghost size = { λ xs. ghost_link_nodes_all (ghost_link_list xs) };

    ghost use Rattle.std.proofs.Common.{arith};
    ghost use Rattle.vf_syntax.specs.GhostExprTree.{most_le-ghost_link_nodes_all};

    ghost size_decreases = { λ l h. Prim.omega (arith, most_le-ghost_link_nodes_all l.items.items) };
}

impl GhostLinkList {
    /// The empty list, which takes no memory.
    pub fn new(alloc: Global) -> GhostLinkList
        ensures { result ≡ [] }
    {
        GhostLinkList {
            items: Vec::new(alloc),
        }
    }

    /// Puts an item at the end.
    pub fn push(&mut self, item: GhostLink) -> Result<(), Memory>
        ensures { OnOk result (self.new ≡ self.old ++ item ∷ []) }
    {
        self.items.push(item)?;
        Ok(())
    }

    /// How many items it has.
    pub fn len(&self) -> usize
        ensures { result ≡ length self.now }
    {
        self.items.len()
    }

    /// The item at an index, counted from 0.
    pub fn get(&self, at: usize) -> Option<&GhostLink>
        ensures { option_copied result ≡ slice_get self.now at }
    {
        self.items.get(at)
    }
}

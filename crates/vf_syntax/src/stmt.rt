// Written by tools/gen_syntax.py: change it there.
//! Statements.

ghost use Rattle.std.specs.Prelude.{◌≡◌, [], ◌∷◌, ◌++◌, length, slice_get, OnOk};
ghost use Rattle.std.specs.Option.{option_copied};

use crate::contract::Invariant;
use crate::expr::Expr;
use crate::ghost_command::GhostCommand;
use crate::simple::{First, Simple};
use crate::written::{CType, Name};
use std::alloc::Global;
use std::marker::Model;
use vf_base::{Memory, Place};

/// A statement, and the place of its first token (C11 6.8).
#[cycle(stmt)]
#[derive(Drop)]
pub struct Stmt {
    pub place: Place,
    pub node: StmtNode,
}

#[cycle(stmt)]
#[derive(Drop)]
pub enum StmtNode {
    /// `type x;` or `type x = e;`, and the place of its `;`.
    Declaration(CType, Name, Option<Expr>, Place),
    /// An assignment or a call, and the place of its `;`.
    Simple(Simple, Place),
    /// `if (c) S`
    If(Expr, Box<Stmt>),
    /// `if (c) S else T`
    IfElse(Expr, Box<Stmt>, Box<Stmt>),
    /// `while (c) S`
    While(Expr, Option<Invariant>, Box<Stmt>),
    /// `for (..; ..; ..) S`
    For(Option<First>, Option<Expr>, Option<Simple>, Option<Invariant>, Box<Stmt>),
    /// `return;` or `return e;`, and the place of its `;`.
    Return(Option<Expr>, Place),
    /// `{ .. }`, and the place of its `}`.
    Block(StmtList, Place),
    /// `;`
    Empty,
    /// A ghost command, which stands in a block alone.
    Ghost(GhostCommand),
}

impl Model for Stmt {
    ghost use Rattle.vf_syntax.specs.StmtTree.{StmtTree};
    ghost use Rattle.vf_syntax.specs.StmtCodes.{coded_stmt};

    ghost Value = { StmtTree };

    ghost coded = { coded_stmt };

    ghost use Rattle.vf_syntax.specs.StmtTree.{stmt_nodes};
    ghost use Rattle.vf_syntax.specs.StmtShown.{stmt_of};

    ghost view = { λ x. stmt_of x.place x.node };

    ghost size = { stmt_nodes };
}

/// A list of these: [`Stmt`].
#[cycle(stmt)]
#[derive(Drop)]
pub struct StmtList {
    items: Vec<Stmt>,
}

impl Model for StmtList {
    ghost use Rattle.std.specs.Prelude.{List};
    ghost use Rattle.vf_syntax.specs.StmtTree.{StmtTree};
    ghost use Rattle.vf_syntax.specs.StmtCodes.{coded_stmt_list};

    ghost Value = { List StmtTree };

    ghost coded = { coded_stmt_list };

    ghost view = { λ l. l.items.items };

    ghost use Rattle.vf_syntax.specs.StmtTree.{stmt_nodes_all, stmt_list};

    ghost size = { λ xs. stmt_nodes_all (stmt_list xs) };

    ghost use Rattle.std.proofs.Common.{arith};
    ghost use Rattle.vf_syntax.specs.StmtTree.{most_le-stmt_nodes_all};

    ghost size_decreases = { λ l h. Prim.omega (arith, most_le-stmt_nodes_all l.items.items) };
}

impl StmtList {
    /// The empty list, which takes no memory.
    pub fn new(alloc: Global) -> StmtList
        ensures { result ≡ [] }
    {
        StmtList {
            items: Vec::new(alloc),
        }
    }

    /// Puts an item at the end.
    pub fn push(&mut self, item: Stmt) -> Result<(), Memory>
        ensures { OnOk result (self.new ≡ self.old ++ item ∷ []) }
    {
        self.items.push(item)?;
        Ok(())
    }

    /// How many items it has.
    pub fn len(&self) -> usize
        ensures { result ≡ length self.now }
    {
        self.items.len()
    }

    /// The item at an index, counted from 0.
    pub fn get(&self, at: usize) -> Option<&Stmt>
        ensures { option_copied result ≡ slice_get self.now at }
    {
        self.items.get(at)
    }
}

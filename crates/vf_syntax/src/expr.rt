// Written by tools/gen_syntax.py: change it there.
//! Expressions of real text.

ghost use Rattle.std.specs.Prelude.{◌≡◌, [], ◌∷◌, ◌++◌, length, slice_get, OnOk};
ghost use Rattle.std.specs.Option.{option_copied};

use crate::operator::{BinaryOperator, Level, UnaryOperator};
use crate::written::{CType, Name};
use std::alloc::Global;
use std::marker::Model;
use vf_base::{IntType, Memory, Place, Text};

/// An expression of real text, and the place of its first token (C11 6.5).
#[cycle(expr)]
#[derive(Drop)]
pub struct Expr {
    pub place: Place,
    pub node: ExprNode,
}

#[cycle(expr)]
#[derive(Drop)]
pub enum ExprNode {
    /// A number and its type.
    Number(u64, IntType),
    /// A character constant, by the value of its byte.
    Character(u8),
    /// `true`
    True,
    /// `false`
    False,
    /// A local or a function.
    Name(Text),
    /// `( .. )`
    Parenthesized(Box<Expr>),
    /// `malloc(sizeof(struct S))`
    Malloc(Name),
    /// `malloc(n * sizeof(int))`: n and the place of the `*`.
    MallocInts(Box<Expr>, Place),
    /// A primary expression and what stands behind it: field reads, array reads and calls, one at least.
    Postfix(Box<Expr>, PostfixList),
    /// `-` or `!`
    Unary(UnaryOperator, Box<Expr>),
    /// `(type)`
    Cast(CType, Box<Expr>),
    /// Operands joined by operators of one level, from left to right, with one operator at least.
    Chain(Level, Box<Expr>, LinkList),
    /// `c ? a : b`
    Conditional(Box<Expr>, Box<Expr>, Box<Expr>),
}

impl Model for Expr {
    ghost use Rattle.vf_syntax.specs.ExprTree.{ExprTree};
    ghost use Rattle.vf_syntax.specs.ExprCodes.{coded_expr};

    ghost Value = { ExprTree };

    ghost coded = { coded_expr };

    ghost use Rattle.vf_syntax.specs.ExprTree.{expr_nodes};
    ghost use Rattle.vf_syntax.specs.ExprShown.{expr_of};

    ghost view = { λ x. expr_of x.place x.node };

    ghost size = { expr_nodes };
}

/// An operator, its place, and the operand behind it.
#[cycle(expr)]
#[derive(Drop)]
pub struct Link {
    pub place: Place,
    pub operator: BinaryOperator,
    pub operand: Expr,
}

impl Model for Link {
    ghost use Rattle.vf_syntax.specs.ExprTree.{LinkTree};
    ghost use Rattle.vf_syntax.specs.ExprCodes.{coded_link};

    ghost Value = { LinkTree };

    ghost coded = { coded_link };

    ghost use Rattle.vf_syntax.specs.ExprTree.{link_nodes};
    ghost use Rattle.vf_syntax.specs.ExprTree as tree;

    ghost view = { λ x. tree.link x.place x.operator x.operand };

    ghost size = { link_nodes };
}

/// What stands behind an operand, and the place of its `->`, `[` or `(`.
#[cycle(expr)]
#[derive(Drop)]
pub struct Postfix {
    pub place: Place,
    pub node: PostfixNode,
}

#[cycle(expr)]
#[derive(Drop)]
pub enum PostfixNode {
    /// A field read, `->` and the name.
    Field(Name),
    /// An array read, `[ .. ]`.
    Index(Expr),
    /// A call, `( .. )`.
    Call(ExprList),
}

impl Model for Postfix {
    ghost use Rattle.vf_syntax.specs.ExprTree.{PostfixTree};
    ghost use Rattle.vf_syntax.specs.ExprCodes.{coded_postfix};

    ghost Value = { PostfixTree };

    ghost coded = { coded_postfix };

    ghost use Rattle.vf_syntax.specs.ExprTree.{postfix_nodes};
    ghost use Rattle.vf_syntax.specs.ExprShown.{postfix_of};

    ghost view = { λ x. postfix_of x.place x.node };

    ghost size = { postfix_nodes };
}

/// A list of these: [`Expr`].
#[cycle(expr)]
#[derive(Drop)]
pub struct ExprList {
    items: Vec<Expr>,
}

impl Model for ExprList {
    ghost use Rattle.std.specs.Prelude.{List};
    ghost use Rattle.vf_syntax.specs.ExprTree.{ExprTree};
    ghost use Rattle.vf_syntax.specs.ExprCodes.{coded_expr_list};

    ghost Value = { List ExprTree };

    ghost coded = { coded_expr_list };

    ghost view = { λ l. l.items.items };

    ghost use Rattle.vf_syntax.specs.ExprTree.{expr_nodes_all, expr_list};

    ghost size = { λ xs. expr_nodes_all (expr_list xs) };

    ghost use Rattle.std.proofs.Common.{arith};
    ghost use Rattle.vf_syntax.specs.ExprTree.{most_le-expr_nodes_all};

    ghost size_decreases = { λ l h. Prim.omega (arith, most_le-expr_nodes_all l.items.items) };
}

impl ExprList {
    /// The empty list, which takes no memory.
    pub fn new(alloc: Global) -> ExprList
        ensures { result ≡ [] }
    {
        ExprList {
            items: Vec::new(alloc),
        }
    }

    /// Puts an item at the end.
    pub fn push(&mut self, item: Expr) -> Result<(), Memory>
        ensures { OnOk result (self.new ≡ self.old ++ item ∷ []) }
    {
        self.items.push(item)?;
        Ok(())
    }

    /// How many items it has.
    pub fn len(&self) -> usize
        ensures { result ≡ length self.now }
    {
        self.items.len()
    }

    /// The item at an index, counted from 0.
    pub fn get(&self, at: usize) -> Option<&Expr>
        ensures { option_copied result ≡ slice_get self.now at }
    {
        self.items.get(at)
    }
}

/// A list of these: [`Link`].
#[cycle(expr)]
#[derive(Drop)]
pub struct LinkList {
    items: Vec<Link>,
}

impl Model for LinkList {
    ghost use Rattle.std.specs.Prelude.{List};
    ghost use Rattle.vf_syntax.specs.ExprTree.{LinkTree};
    ghost use Rattle.vf_syntax.specs.ExprCodes.{coded_link_list};

    ghost Value = { List LinkTree };

    ghost coded = { coded_link_list };

    ghost view = { λ l. l.items.items };

    ghost use Rattle.vf_syntax.specs.ExprTree.{link_nodes_all, link_list};

    ghost size = { λ xs. link_nodes_all (link_list xs) };

    ghost use Rattle.std.proofs.Common.{arith};
    ghost use Rattle.vf_syntax.specs.ExprTree.{most_le-link_nodes_all};

    ghost size_decreases = { λ l h. Prim.omega (arith, most_le-link_nodes_all l.items.items) };
}

impl LinkList {
    /// The empty list, which takes no memory.
    pub fn new(alloc: Global) -> LinkList
        ensures { result ≡ [] }
    {
        LinkList {
            items: Vec::new(alloc),
        }
    }

    /// Puts an item at the end.
    pub fn push(&mut self, item: Link) -> Result<(), Memory>
        ensures { OnOk result (self.new ≡ self.old ++ item ∷ []) }
    {
        self.items.push(item)?;
        Ok(())
    }

    /// How many items it has.
    pub fn len(&self) -> usize
        ensures { result ≡ length self.now }
    {
        self.items.len()
    }

    /// The item at an index, counted from 0.
    pub fn get(&self, at: usize) -> Option<&Link>
        ensures { option_copied result ≡ slice_get self.now at }
    {
        self.items.get(at)
    }
}

/// A list of these: [`Postfix`].
#[cycle(expr)]
#[derive(Drop)]
pub struct PostfixList {
    items: Vec<Postfix>,
}

impl Model for PostfixList {
    ghost use Rattle.std.specs.Prelude.{List};
    ghost use Rattle.vf_syntax.specs.ExprTree.{PostfixTree};
    ghost use Rattle.vf_syntax.specs.ExprCodes.{coded_postfix_list};

    ghost Value = { List PostfixTree };

    ghost coded = { coded_postfix_list };

    ghost view = { λ l. l.items.items };

    ghost use Rattle.vf_syntax.specs.ExprTree.{postfix_nodes_all, postfix_list};

    ghost size = { λ xs. postfix_nodes_all (postfix_list xs) };

    ghost use Rattle.std.proofs.Common.{arith};
    ghost use Rattle.vf_syntax.specs.ExprTree.{most_le-postfix_nodes_all};

    ghost size_decreases = { λ l h. Prim.omega (arith, most_le-postfix_nodes_all l.items.items) };
}

impl PostfixList {
    /// The empty list, which takes no memory.
    pub fn new(alloc: Global) -> PostfixList
        ensures { result ≡ [] }
    {
        PostfixList {
            items: Vec::new(alloc),
        }
    }

    /// Puts an item at the end.
    pub fn push(&mut self, item: Postfix) -> Result<(), Memory>
        ensures { OnOk result (self.new ≡ self.old ++ item ∷ []) }
    {
        self.items.push(item)?;
        Ok(())
    }

    /// How many items it has.
    pub fn len(&self) -> usize
        ensures { result ≡ length self.now }
    {
        self.items.len()
    }

    /// The item at an index, counted from 0.
    pub fn get(&self, at: usize) -> Option<&Postfix>
        ensures { option_copied result ≡ slice_get self.now at }
    {
        self.items.get(at)
    }
}

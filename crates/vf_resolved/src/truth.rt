// Written by tools/gen_syntax.py: change it there.
//! Truth values.

use std::marker::Model;
use vf_core::Comparison;
use vf_formula::Term;

/// A truth value, whose connectives and comparisons are told apart.
#[cycle(truth)]
#[derive(Drop)]
pub struct Truth {
    pub node: TruthNode,
}

#[cycle(truth)]
#[derive(Drop)]
pub enum TruthNode {
    /// A value, which is no more told apart.
    Value(Term),
    /// A comparison, and whether both sides are truth values; each side is a value or a comparison.
    Comparison(Comparison, bool, Box<Truth>, Box<Truth>),
    /// `!a`
    Not(Box<Truth>),
    /// `a && b`
    And(Box<Truth>, Box<Truth>),
    /// `a || b`
    Or(Box<Truth>, Box<Truth>),
    /// `(c ? a : b)`
    Choice(Box<Truth>, Box<Truth>, Box<Truth>),
}

impl Model for Truth {
    ghost use Rattle.vf_resolved.specs.TruthTree.{TruthTree};
    ghost use Rattle.vf_resolved.specs.TruthCodes.{coded_truth};

    ghost Value = { TruthTree };

    ghost coded = { coded_truth };

    ghost use Rattle.vf_resolved.specs.TruthTree.{truth_nodes};
    ghost use Rattle.vf_resolved.specs.TruthShown.{truth_of};

    ghost view = { λ x. truth_of x.node };

    ghost size = { truth_nodes };
}

//! A function with its body in steps.

use vf_base::{Place, Sequence};
use vf_declared::ctype::CType;
use vf_steps::Node;
use vf_syntax::contract::Contract;
use vf_syntax::written::Name;

/// A function with its body in steps, its annotations among them.
#[derive(Drop)]
pub struct Core<'a> {
    /// Its name, where its body stands.
    pub name: &'a Name,
    /// Its contract, where it has one of its own.
    pub contract: &'a Option<Contract>,
    /// The types of its locals by their numbers, the parameters first.
    pub locals: Sequence<CType>,
    /// What its body does.
    pub nodes: Vec<Node<'a>>,
    /// The place of the closing brace.
    pub closing: Place,
}

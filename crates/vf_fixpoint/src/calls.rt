//! Calls of a fixpoint in its own equations.

ghost use Rattle.std.specs.Prelude.{◌≡◌, IsTrue, ◌↔◌, None};
ghost use Rattle.std.specs.List.{list_any};
ghost use Rattle.std.specs.Str.{bytes_eq};
ghost use Rattle.vf_syntax.specs.GhostExprTree.{ghost_expr_list, ghost_link_list};
ghost use Rattle.vf_fixpoint.specs.Calls.{first_stray, first_stray_behind, first_stray_in, first_stray_of, is_component, passes, strays};
ghost use Rattle.vf_fixpoint.specs.Kept.{recursion_of};

use vf_base::{Place, Text};
use vf_syntax::ghost_expr::{GhostExpr, GhostExprList, GhostExprNode, GhostLink, GhostLinkList};
use vf_syntax::written::Name;

/// What the calls of a fixpoint are held to.
#[derive(Drop)]
pub struct Recursion<'a> {
    /// The fixpoint's name.
    pub name: &'a Text,
    /// Which of its parameters it goes by, counted from 0, if it does.
    pub parameter: Option<usize>,
    /// The names of the components in the case that is looked at.
    pub components: &'a [Name],
}

/// Whether a name is one of some.
fn is_among(name: &Text, names: &[Name]) -> bool
    ensures { result ≡ list_any (λ n. bytes_eq name.now n.text) names.now }
{
    for other in names {
        if name.as_bytes() == other.text.as_bytes() {
            return true;
        }
    }
    false
}

/// Whether an expression is a component, as it is or in parentheses.
#[cycle(component)]
fn is_component(components: &[Name], argument: &GhostExpr) -> bool
    ensures { result ≡ is_component components.now argument.now }
{
    match &argument.node {
        GhostExprNode::Name(name) => is_among(name, components),
        GhostExprNode::Parenthesized(inner) => is_component(components, inner),
        _ => false,
    }
}

impl<'a> Recursion<'a> {
    /// Whether arguments have a component where the parameter stands by which the fixpoint goes.
    #[tactic(auto, using(crate::proofs::Loops::component_there, crate::proofs::Loops::no_component_there))]
    fn passes(&self, arguments: &GhostExprList) -> bool
        ensures { result ≡ passes self.now.components.now self.now.parameter (ghost_expr_list arguments.now) }
    {
        let Some(parameter) = self.parameter else {
            return false;
        };
        match arguments.get(parameter) {
            Some(argument) => is_component(self.components, argument),
            None => false,
        }
    }

    /// Whether an application is a call of the fixpoint that does not pass a component.
    fn strays(&self, name: &Text, arguments: &GhostExprList) -> bool
        ensures { result ≡ strays (recursion_of self.now) name.now (ghost_expr_list arguments.now) }
    {
        if name.as_bytes() == self.name.as_bytes() {
            return !self.passes(arguments);
        }
        false
    }
}

/// The first call in an expression that does not pass a component, those inside of a call before it.
#[cycle(stray)]
pub fn first_stray(recursion: &Recursion, expr: &GhostExpr) -> Option<Place>
    ensures { result ≡ first_stray (recursion_of recursion.now) expr.now }
{
    match &expr.node {
        GhostExprNode::Application(name, arguments) => {
            if let Some(place) = stray_of(recursion, arguments) {
                return Some(place);
            }
            if recursion.strays(name, arguments) {
                return Some(expr.place);
            }
            None
        }
        GhostExprNode::Parenthesized(inner) => first_stray(recursion, inner),
        GhostExprNode::Conditional(test, yes, no) => {
            if let Some(place) = first_stray(recursion, test) {
                return Some(place);
            }
            if let Some(place) = first_stray(recursion, yes) {
                return Some(place);
            }
            first_stray(recursion, no)
        }
        GhostExprNode::Unary(_, operand) => first_stray(recursion, operand),
        GhostExprNode::Chain(_, start, links) => {
            if let Some(place) = first_stray(recursion, start) {
                return Some(place);
            }
            stray_in(recursion, links)
        }
        _ => None,
    }
}

/// The same of arguments.
#[cycle(stray)]
#[tactic(auto, using(crate::proofs::Lists::expr_smaller))]
fn stray_of(recursion: &Recursion, arguments: &GhostExprList) -> Option<Place>
    ensures { result ≡ first_stray_of (recursion_of recursion.now) (ghost_expr_list arguments.now) }
{
    for at in 0..arguments.len() {
        let Some(argument) = arguments.get(at) else {
            return None;
        };
        if let Some(place) = first_stray(recursion, argument) {
            return Some(place);
        }
    }
    None
}

/// The same of an operator's right operand.
#[cycle(stray)]
fn stray_behind(recursion: &Recursion, link: &GhostLink) -> Option<Place>
    ensures { result ≡ first_stray_behind (recursion_of recursion.now) link.now }
{
    first_stray(recursion, &link.operand)
}

/// The same of operands behind another.
#[cycle(stray)]
#[tactic(auto, using(crate::proofs::Lists::link_smaller))]
fn stray_in(recursion: &Recursion, links: &GhostLinkList) -> Option<Place>
    ensures { result ≡ first_stray_in (recursion_of recursion.now) (ghost_link_list links.now) }
{
    for at in 0..links.len() {
        let Some(link) = links.get(at) else {
            return None;
        };
        if let Some(place) = stray_behind(recursion, link) {
            return Some(place);
        }
    }
    None
}

//! Whether steps are such as explanations start from.

ghost use Rattle.std.specs.Prelude.{◌≡◌, ◌↔◌, IsTrue};
ghost use Rattle.vf_refute.specs.declared.steps.Derived.TheVariants.{AreWithin};
ghost use Rattle.vf_refute.specs.Refutations.{HasDerived};
ghost use Rattle.vf_explain.specs.Reached.{AreReasons};

use vf_arith::Edge;
use vf_refute::Derived;

/// Whether two bounds are one.
fn is_bound(edge: Edge, x: u32, y: u32, most: i128) -> bool
    ensures { IsTrue result ↔ (AreWithin edge.from edge.to edge.most ≡ AreWithin x y most) }
{
    edge.from == x && edge.to == y && edge.most == most
}

/// Whether a step derived a bound.
fn has_derived(known: &[Derived], step: u32, edge: Edge) -> bool
    ensures { IsTrue result ↔ HasDerived known.now step (AreWithin edge.from edge.to edge.most) }
{
    match known.get(step as usize) {
        Some(Derived::AreWithin(x, y, most)) => is_bound(edge, *x, *y, *most),
        _ => false,
    }
}

/// Whether each bound was derived by the step that stands at its place.
pub fn are_reasons(known: &[Derived], edges: &[Edge], reasons: &[u32]) -> bool
    ensures { IsTrue result ↔ AreReasons known.now edges.now reasons.now }
{
    if reasons.len() != edges.len() {
        return false;
    }
    for i in 0..edges.len() {
        if !has_derived(known, reasons[i], edges[i]) {
            return false;
        }
    }
    true
}

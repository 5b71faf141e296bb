//! The verdict on the facts.

ghost use Rattle.std.specs.Prelude.{◌≡◌, ◌↔◌, length, All, Contains, IsTrue, MatchBool};
ghost use Rattle.vf_arith.specs.Paths.{HasNegativeCycle};
ghost use Rattle.vf_ground.specs.Held.{IsFine, IsContradicted};

use vf_arith::Bounds;
use vf_ground::is_near;
use vf_growing::GrowingClasses;
use vf_refute::Fact;

/// Whether classes and bounds contradict a fact.
fn contradicts(classes: &GrowingClasses, bounds: &Bounds, fact: Fact) -> bool
    requires conflict { HasNegativeCycle bounds.now.edges → ⊥ }
    requires size { bounds.now.size ≡ length classes.now.nodes }
    requires fine { IsFine classes.now.nodes fact }
    ensures { IsTrue result ↔ IsContradicted classes.now.nodes classes.now.merged bounds.now.edges fact }
{
    match fact {
        Fact::NotEqual(a, b) => classes.same(a, b),
        Fact::NotDifference(x, y, by) => is_near(bounds, x, y, by) && is_near(bounds, y, x, -by),
        Fact::False => true,
        _ => false,
    }
}

/// Whether classes and bounds contradict one of the facts.
pub fn contradict_one(classes: &GrowingClasses, bounds: &Bounds, facts: &[Fact]) -> bool
    requires conflict { HasNegativeCycle bounds.now.edges → ⊥ }
    requires size { bounds.now.size ≡ length classes.now.nodes }
    requires fine { All (IsFine classes.now.nodes) facts.now }
    ensures { MatchBool result ((l : Fact) × Contains facts.now l × IsContradicted classes.now.nodes classes.now.merged bounds.now.edges l) ((l : Fact) → Contains facts.now l → IsContradicted classes.now.nodes classes.now.merged bounds.now.edges l → ⊥) }
{
    for fact in facts {
        if contradicts(classes, bounds, *fact) {
            return true;
        }
    }
    false
}

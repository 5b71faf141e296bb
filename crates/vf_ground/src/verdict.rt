//! What shows a conflict.

ghost use Rattle.std.specs.Prelude.{◌≡◌, ◌<◌, ◌↔◌, length, IsTrue};
ghost use Rattle.vf_arith.specs.Paths.{HasNegativeCycle};
ghost use Rattle.vf_ground.specs.Held.{IsFine, IsContradicted, Clash};

use crate::exchange::is_near;
use vf_arith::Bounds;
use vf_congruence::Classes;
use vf_refute::Fact;
use vf_table::have_clashing_heads;

/// Whether two terms are in one class and their heads clash.
pub fn is_clash(classes: &Classes, x: u32, y: u32) -> bool
    requires left { x < length classes.now.nodes }
    requires right { y < length classes.now.nodes }
    ensures { IsTrue result ↔ Clash classes.now.nodes classes.now.merged x y }
{
    have_clashing_heads(classes.nodes(), x, y) && classes.same(x, y)
}

/// Whether classes and bounds contradict a fact.
pub fn contradicts(classes: &Classes, bounds: &Bounds, fact: Fact) -> bool
    requires conflict { HasNegativeCycle bounds.now.edges → ⊥ }
    requires size { bounds.now.size ≡ length classes.now.nodes }
    requires fine { IsFine classes.now.nodes fact }
    ensures { IsTrue result ↔ IsContradicted classes.now.nodes classes.now.merged bounds.now.edges fact }
{
    match fact {
        Fact::NotEqual(a, b) => classes.same(a, b),
        Fact::NotDifference(x, y, by) => is_near(bounds, x, y, by) && is_near(bounds, y, x, -by),
        Fact::False => true,
        _ => false,
    }
}

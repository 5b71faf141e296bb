//! The exchange of equalities and bounds.

ghost use Rattle.std.specs.Prelude.{◌≡◌, ◌<◌, ◌↔◌, pos, length, IsTrue};
ghost use Rattle.vf_table.specs.Tables.{IsInteger};
ghost use Rattle.vf_arith.specs.Paths.{HasNegativeCycle};
ghost use Rattle.vf_ground.specs.Held.{IsNear, Lacks};

use vf_arith::Bounds;
use vf_congruence::Classes;
use vf_table::{Node, is_integer};

/// Whether a term less another is at most a number.
pub fn is_near(bounds: &Bounds, x: u32, y: u32, most: i128) -> bool
    requires fine { HasNegativeCycle bounds.now.edges → ⊥ }
    requires left { x < bounds.now.size }
    requires right { y < bounds.now.size }
    ensures { IsTrue result ↔ IsNear bounds.now.edges x y most }
{
    match bounds.bound(x, y) {
        Some(distance) => distance <= most,
        None => false,
    }
}

/// What classes and bounds lack at two terms.
#[derive(Clone, Copy, Debug)]
pub enum Lack {
    Nothing,
    /// The terms are in one class, and not within 0.
    OfBound,
    /// The terms are within 0 both ways, and in two classes.
    OfEquality,
}

/// Whether both terms are integer terms.
pub fn are_integers(nodes: &[Node], x: u32, y: u32) -> bool
    ensures { IsTrue result ↔ IsInteger nodes.now x × IsInteger nodes.now y }
{
    is_integer(nodes, x) && is_integer(nodes, y)
}

/// Whether two terms are within 0 both ways.
pub fn are_level(bounds: &Bounds, x: u32, y: u32) -> bool
    requires fine { HasNegativeCycle bounds.now.edges → ⊥ }
    requires left { x < bounds.now.size }
    requires right { y < bounds.now.size }
    ensures { IsTrue result ↔ IsNear bounds.now.edges x y (pos 0) × IsNear bounds.now.edges y x (pos 0) }
{
    is_near(bounds, x, y, 0) && is_near(bounds, y, x, 0)
}

/// What classes and bounds lack at two terms.
pub fn lack_at(classes: &Classes, bounds: &Bounds, x: u32, y: u32) -> Lack
    requires fine { HasNegativeCycle bounds.now.edges → ⊥ }
    requires size { bounds.now.size ≡ length classes.now.nodes }
    requires left { x < length classes.now.nodes }
    requires right { y < length classes.now.nodes }
    ensures { Lacks classes.now.nodes classes.now.merged bounds.now.edges x y result }
{
    if !are_integers(classes.nodes(), x, y) {
        return Lack::Nothing;
    }
    if classes.same(x, y) {
        if is_near(bounds, x, y, 0) {
            return Lack::Nothing;
        }
        return Lack::OfBound;
    }
    if are_level(bounds, x, y) {
        return Lack::OfEquality;
    }
    Lack::Nothing
}

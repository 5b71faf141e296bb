//! The trail.

ghost use Rattle.std.specs.Prelude.{◌≡◌, [], ◌∷◌, ◌++◌, ◌+◌, ◌-◌, ◌<◌, ◌≤◌, ◌↔◌, length, IfOk, IsErrOf, OnErr, OnOk, Some, option_map, slice_get};
ghost use Rattle.vf_trail.specs.Trail.{PathsStay, PathsStep, path_of};
ghost use Rattle.vf_trail.specs.Falls.{ParentsFall};

use crate::node::Node;
use std::alloc::{AllocError, AllocFailed, Global};
use std::marker::Model;

/// The most facts that a trail holds.
pub const MOST_FACTS: usize = 4_194_304;

/// Why a fact is not taken, or no room is made.
#[derive(Clone, Copy, Debug, PartialEq, Eq)]
pub enum TrailFault {
    /// The trail would hold more than [`MOST_FACTS`] facts.
    Full,
    Memory,
}

impl From<AllocError> for TrailFault {
    ghost use Rattle.std.specs.Prelude.{◌≡◌};
    ghost use Rattle.vf_trail.specs.declared.trail.TrailFault.TheVariants.{Memory};

    ghost from_gives = { λ _ e. e ≡ Memory };

    fn from(_: AllocError) -> TrailFault {
        TrailFault::Memory
    }
}

impl<T: Drop> From<AllocFailed<T>> for TrailFault {
    ghost use Rattle.std.specs.Prelude.{◌≡◌};
    ghost use Rattle.vf_trail.specs.declared.trail.TrailFault.TheVariants.{Memory};

    ghost from_gives = { λ _ e. e ≡ Memory };

    fn from(_: AllocFailed<T>) -> TrailFault {
        TrailFault::Memory
    }
}

/// A tree of facts, which contracts see as [`Facts`](specs/Trail.antt): the list of the facts with the
/// numbers of their parents, in the order of their pushes, and the room for more.
#[derive(Debug, Drop)]
pub struct Trail<L> {
    rows: Vec<(u32, L)>,
}

impl<L> Model for Trail<L> {
    ghost use Rattle.vf_trail.specs.Facts.{Facts, facts_code};

    ghost Value = { Facts L };

    ghost coded = { facts_code L.code };

    ghost use Rattle.std.specs.Prelude.{◌-◌, ◌≤◌, length};
    ghost use Rattle.std.specs.Vec.{vec_capacity, vec_len};
    ghost use Rattle.vf_trail.specs.Falls.{ParentsFall};
    ghost use Rattle.vf_trail.specs.declared.trail.TheConstants.{MOST_FACTS};

    ghost view = { λ t. record { facts = t.rows.items; spare = vec_capacity t.rows - vec_len t.rows } };

    ghost invariant = { λ t. ParentsFall t.rows.items × (length t.rows.items ≤ MOST_FACTS) };
}

impl<L> Trail<L> {
    /// The trail of the root alone, which takes no memory.
    pub fn new(alloc: Global) -> Trail<L>
        ensures { result.facts ≡ [] }
    {
        Trail {
            rows: Vec::new(alloc),
        }
    }

    /// How many facts the trail holds, which is the number of the newest node.
    pub fn len(&self) -> usize
        ensures count { result ≡ length self.now.facts }
        ensures few { length self.now.facts ≤ MOST_FACTS }
        ensures parents_fall { ParentsFall self.now.facts }
    {
        self.rows.len()
    }

    /// The allocator that the trail grows by. Contracts say nothing of allocators.
    pub fn allocator(&self) -> Global {
        *self.rows.allocator()
    }

    /// Makes room for `n` more facts, so that the next `n` pushes take no memory.
    pub fn reserve(&mut self, n: u32) -> Result<(), TrailFault>
        ensures unchanged { self.new.facts ≡ self.old.facts }
        ensures room { OnOk result (n ≤ self.new.spare) }
        ensures full { IsErrOf result TrailFault.Full ↔ (MOST_FACTS < length self.old.facts + n) }
        ensures memory { IsErrOf result TrailFault.Memory → self.old.spare < n }
        ensures kept { self.old.spare ≤ self.new.spare }
    {
        if MOST_FACTS - self.rows.len() < n as usize {
            return Err(TrailFault::Full);
        }
        self.rows.reserve(n as usize)?;
        Ok(())
    }

    /// The fact at a node.
    pub fn get(&self, node: Node) -> &L
        requires other_than_root { 0 < node.number }
        requires there { node.number ≤ length self.now.facts }
        ensures { option_map (λ row. row.1) (slice_get self.now.facts (node.number - 1)) ≡ Some result.now }
    {
        &self.row(node).1
    }

    /// The node that a node hangs on.
    pub fn parent(&self, node: Node) -> Node
        requires other_than_root { 0 < node.number }
        requires there { node.number ≤ length self.now.facts }
        ensures parent { option_map (λ row. row.0) (slice_get self.now.facts (node.number - 1)) ≡ Some result.number }
        ensures falls { result.number < node.number }
        ensures path { (fact : L)
            → option_map (λ row. row.1) (slice_get self.now.facts (node.number - 1)) ≡ Some fact
            → path_of self.now.facts node.number ≡ path_of self.now.facts result.number ++ fact ∷ [] }
    {
        Node {
            number: self.row(node).0,
        }
    }

    fn row(&self, node: Node) -> &(u32, L)
        requires other_than_root { 0 < node.number }
        requires there { node.number ≤ length self.now.facts }
        ensures row { slice_get self.now.facts (node.number - 1) ≡ Some result.now }
        ensures parents_fall { ParentsFall self.now.facts }
    {
        &self.rows[node.number as usize - 1]
    }
}

impl<L: Drop> Trail<L> {
    /// Hangs a fact on a node. Where it is not taken the facts stay as they were.
    pub fn push(&mut self, parent: Node, fact: L) -> Result<Node, TrailFault>
        requires { parent.number ≤ length self.old.facts }
        ensures pushed { OnOk result (self.new.facts ≡ self.old.facts ++ (parent.number, fact) ∷ []) }
        ensures node { IfOk result (λ node. node.number ≡ length self.old.facts + 1) }
        ensures unchanged { OnErr result (self.new.facts ≡ self.old.facts) }
        ensures full { IsErrOf result TrailFault.Full ↔ (MOST_FACTS ≤ length self.old.facts) }
        ensures memory { IsErrOf result TrailFault.Memory → self.old.spare ≡ 0 }
        ensures spare { self.old.spare ≤ self.new.spare + 1 }
        ensures kept { OnErr result (self.old.spare ≤ self.new.spare) }
    {
        let count = self.rows.len();
        if count >= MOST_FACTS {
            return Err(TrailFault::Full);
        }
        self.rows.push((parent.number, fact))?;
        Ok(Node {
            number: count as u32 + 1,
        })
    }
}

/// Paths only grow at their ends: more facts leave the path of every node that was there, and a new
/// node's path is its parent's with the new fact at the end.
pub fn paths_stay<L>()
    ensures { PathsStay L }
{}

/// A path is its parent's path with one more fact.
pub fn paths_step<L>()
    ensures { PathsStep L }
{}

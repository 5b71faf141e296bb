//! Questions at two leaves of one trail in turn.

ghost use Rattle.std.specs.Prelude.{◌<◌, length};
ghost use Rattle.vf_asking.specs.Journal.{HasNode, Grew};

use crate::asked::{hang, is_proved};
use crate::relations::{Relation, Side, at_most, difference};
use std::alloc::Global;
use std::test::Fail;
use vf_asking::{Asker, Journal};
use vf_base::RuleFault;
use vf_definitions::Definitions;
use vf_prover::Prover;
use vf_trail::Node;

/// A fact, a fact that hangs on it at each of two leaves, and a goal.
#[derive(Clone, Copy)]
struct Fork {
    trunk: Relation,
    left: Relation,
    right: Relation,
    goal: Relation,
}

/// Whether a goal is proved at the first node, at the second, and at the first again.
#[tactic(auto, using(vf_asking::proofs::Seeing::grown))]
fn in_turn(
    alloc: Global,
    prover: &mut Prover,
    left: Node,
    right: Node,
    goal: Relation,
) -> Result<[bool; 3], RuleFault>
    requires begun { 0 < length prover.old.journal.units }
    requires left { HasNode prover.old.journal left }
    requires right { HasNode prover.old.journal right }
{
    let first = is_proved(alloc, prover, left, goal)?;
    let second = is_proved(alloc, prover, right, goal)?;
    let again = is_proved(alloc, prover, left, goal)?;
    Ok([first, second, again])
}

/// Hangs the trunk on the root and the two leaves on its end, and asks at them in turn.
#[tactic(auto, using(vf_asking::proofs::Seeing::grown))]
fn on_trail(
    alloc: Global,
    prover: &mut Prover,
    root: Node,
    fork: Fork,
) -> Result<[bool; 3], RuleFault>
    requires begun { 0 < length prover.old.journal.units }
    requires there { HasNode prover.old.journal root }
{
    let trunk = hang(alloc, prover, root, fork.trunk)?;
    let left = hang(alloc, prover, trunk, fork.left)?;
    let right = hang(alloc, prover, trunk, fork.right)?;
    in_turn(alloc, prover, left, right, fork.goal)
}

/// The same, of a new prover.
#[tactic(auto, using(vf_asking::proofs::Seeing::beginning))]
fn answers(alloc: Global, fork: Fork) -> Result<[bool; 3], RuleFault> {
    let mut prover = Prover::new(Journal::new(alloc));
    match prover.begin(&Definitions::new(alloc)) {
        Ok(root) => on_trail(alloc, &mut prover, root, fork),
        Err(_) => Err(RuleFault::Memory),
    }
}

/// Behind `x <= y` hang `y <= x` and `y < z`. Each row has a goal, and whether it is proved at each of the two leaves.
#[test]
fn leaves_are_told_apart(rt: HostRuntime) -> Result<(), Fail> {
    let x = Side::Integer(0);
    let y = Side::Integer(1);
    let z = Side::Integer(2);
    for (goal, left, right) in [
        (difference(x, y, 0), true, false),
        (at_most(x, z, -1), false, true),
    ] {
        let fork = Fork {
            trunk: at_most(x, y, 0),
            left: at_most(y, x, 0),
            right: at_most(y, z, -1),
            goal,
        };
        assert_eq!(rt; answers(rt.alloc(), fork)?, [left, right, left]);
    }
    Ok(())
}

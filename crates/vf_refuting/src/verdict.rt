//! The verdict on a question, with a refutation.

ghost use Rattle.std.specs.Prelude.{◌≡◌, ◌<◌, ◌≤◌, ◌^◌, ℕ, Some, slice_get, length, All, Contains, IfOk, MatchOption};
ghost use Rattle.vf_table.specs.Tables.{PartsAreBelow};
ghost use Rattle.vf_arith.specs.Paths.{HasNegativeCycle};
ghost use Rattle.vf_refute.specs.Closure.{Conflict};
ghost use Rattle.vf_refute.specs.Refutations.{IsConflict, IsRefutation};
ghost use Rattle.vf_ground.specs.Held.{AreComplete, IsFine, HasSmallNumber, IsContradicted, Clash};
ghost use Rattle.vf_refuting.specs.Runs.{IsRun, GoesOn};

use crate::exchange::{derive_both, derive_equal, exchange};
use crate::gather::{add_facts, add_terms, fact_at};
use crate::run::Run;
use std::alloc::Global;
use vf_arith::{Bounds, MOST_POINTS};
use vf_base::Memory;
use vf_congruence::Classes;
use vf_explain::why_conflict;
use vf_ground::{contradicts, is_clash};
use vf_log::{Log, copy_table};
use vf_refute::{Fact, Step};
use vf_table::Node;

/// The most facts of a question: the number of each has 32 bits.
const MOST_FACTS: usize = u32::MAX as usize;

/// Two terms.
#[derive(Clone, Copy, Debug)]
struct Pair {
    left: u32,
    right: u32,
}

/// A term of one class with another, whose heads clash.
fn clash_beside(classes: &Classes, x: u32) -> Option<u32>
    requires term { x < length classes.now.nodes }
    ensures { MatchOption result ((y : ℕ) → y < length classes.now.nodes → Clash classes.now.nodes classes.now.merged x y → ⊥) (λ y. (y < length classes.now.nodes) × Clash classes.now.nodes classes.now.merged x y) }
{
    for y in 0..classes.size() {
        if is_clash(classes, x, y) {
            return Some(y);
        }
    }
    None
}

/// Two terms of one class whose heads clash.
fn find_clash(classes: &Classes) -> Option<Pair>
    ensures { MatchOption result ((x y : ℕ) → x < length classes.now.nodes → y < length classes.now.nodes → Clash classes.now.nodes classes.now.merged x y → ⊥) (λ p. (p.left < length classes.now.nodes) × (p.right < length classes.now.nodes) × Clash classes.now.nodes classes.now.merged p.left p.right) }
{
    for x in 0..classes.size() {
        if let Some(y) = clash_beside(classes, x) {
            return Some(Pair { left: x, right: y });
        }
    }
    None
}

/// The number of a fact that classes and bounds contradict.
fn find_contradicted(classes: &Classes, bounds: &Bounds, log: &Log, count: u32) -> Option<u32>
    requires conflict { HasNegativeCycle bounds.now.edges → ⊥ }
    requires size { bounds.now.size ≡ length classes.now.nodes }
    requires fine { All (IsFine classes.now.nodes) log.now.facts }
    requires count { count ≡ length log.now.facts }
    ensures { MatchOption result ((l : Fact) → Contains log.now.facts l → IsContradicted classes.now.nodes classes.now.merged bounds.now.edges l → ⊥) (λ i. (l : Fact) × (slice_get log.now.facts i ≡ Some l) × IsContradicted classes.now.nodes classes.now.merged bounds.now.edges l) }
{
    for i in 0..count {
        let fact = fact_at(log, i);
        if contradicts(classes, bounds, fact) {
            return Some(i);
        }
    }
    None
}

/// The last step where bounds lead from a point to itself below 0.
fn end_at_cycle(alloc: Global, run: &mut Run) -> Result<Step, Memory>
    requires run { IsRun run.old }
    requires cycle { HasNegativeCycle run.old.bounds.edges }
    ensures goes { IfOk result (λ _. GoesOn run.old run.new) }
    ensures ends { IfOk result (λ s. IsConflict run.new.log.nodes run.new.log.facts run.new.log.known s) }
{
    match why_conflict(alloc, &mut run.log, &run.bounds, &run.within)? {
        Some(step) => Ok(Step::Conflict(step)),
        None => unreachable!(),
    }
}

/// The last step where two terms of one class clash.
fn end_at_clash(alloc: Global, run: &mut Run, pair: Pair) -> Result<Step, Memory>
    requires run { IsRun run.old }
    requires left { pair.left < length run.old.classes.nodes }
    requires right { pair.right < length run.old.classes.nodes }
    requires clash { Clash run.old.classes.nodes run.old.classes.merged pair.left pair.right }
    ensures goes { IfOk result (λ _. GoesOn run.old run.new) }
    ensures ends { IfOk result (λ s. IsConflict run.new.log.nodes run.new.log.facts run.new.log.known s) }
{
    let step = derive_equal(alloc, run, pair.left, pair.right)?;
    Ok(Step::Conflict(step))
}

/// The last step where an equality is denied.
fn end_at_equality(alloc: Global, run: &mut Run, i: u32, a: u32, b: u32) -> Result<Step, Memory>
    requires run { IsRun run.old }
    requires fact { slice_get run.old.log.facts i ≡ Some (Fact.NotEqual a b) }
    requires fine { IsFine run.old.classes.nodes (Fact.NotEqual a b) }
    requires contradicted { IsContradicted run.old.classes.nodes run.old.classes.merged run.old.bounds.edges (Fact.NotEqual a b) }
    ensures goes { IfOk result (λ _. GoesOn run.old run.new) }
    ensures ends { IfOk result (λ s. IsConflict run.new.log.nodes run.new.log.facts run.new.log.known s) }
{
    let step = derive_equal(alloc, run, a, b)?;
    Ok(Step::Conflict(step))
}

/// The last step where a difference is denied.
fn end_at_difference(
    alloc: Global,
    run: &mut Run,
    i: u32,
    x: u32,
    y: u32,
    by: i128,
) -> Result<Step, Memory>
    requires run { IsRun run.old }
    requires cycle { HasNegativeCycle run.old.bounds.edges → ⊥ }
    requires fact { slice_get run.old.log.facts i ≡ Some (Fact.NotDifference x y by) }
    requires fine { IsFine run.old.classes.nodes (Fact.NotDifference x y by) }
    requires contradicted { IsContradicted run.old.classes.nodes run.old.classes.merged run.old.bounds.edges (Fact.NotDifference x y by) }
    ensures goes { IfOk result (λ _. GoesOn run.old run.new) }
    ensures ends { IfOk result (λ s. IsConflict run.new.log.nodes run.new.log.facts run.new.log.known s) }
{
    let both = derive_both(alloc, &mut run.log, &run.bounds, &run.within, x, y)?;
    Ok(Step::DeniedDifference(both.above, both.below))
}

/// The last step where a fact is contradicted.
fn end_at_fact(alloc: Global, run: &mut Run, i: u32, fact: Fact) -> Result<Step, Memory>
    requires run { IsRun run.old }
    requires cycle { HasNegativeCycle run.old.bounds.edges → ⊥ }
    requires fact { slice_get run.old.log.facts i ≡ Some fact }
    requires fine { IsFine run.old.classes.nodes fact }
    requires contradicted { IsContradicted run.old.classes.nodes run.old.classes.merged run.old.bounds.edges fact }
    ensures goes { IfOk result (λ _. GoesOn run.old run.new) }
    ensures ends { IfOk result (λ s. IsConflict run.new.log.nodes run.new.log.facts run.new.log.known s) }
{
    match fact {
        Fact::NotEqual(a, b) => {
            let step = end_at_equality(alloc, run, i, a, b)?;
            Ok(step)
        }
        Fact::NotDifference(x, y, by) => {
            let step = end_at_difference(alloc, run, i, x, y, by)?;
            Ok(step)
        }
        Fact::False => Ok(Step::Falsehood(i)),
        Fact::Equal(_, _) => unreachable!(),
        Fact::AtMost(_, _, _) => unreachable!(),
        Fact::Difference(_, _, _) => unreachable!(),
    }
}

/// The last step, where classes and bounds that hold the closure show a conflict.
fn end(alloc: Global, run: &mut Run, count: u32) -> Result<Option<Step>, Memory>
    requires run { IsRun run.old }
    requires count { count ≡ length run.old.log.facts }
    requires fine { All (IsFine run.old.classes.nodes) run.old.log.facts }
    requires complete { (HasNegativeCycle run.old.bounds.edges → ⊥) → AreComplete run.old.classes.nodes run.old.log.facts run.old.classes.merged run.old.bounds.edges }
    ensures goes { IfOk result (λ _. GoesOn run.old run.new) }
    ensures ends { IfOk result (λ o. MatchOption o (Conflict run.old.classes.nodes run.old.log.facts → ⊥) (λ s. IsConflict run.new.log.nodes run.new.log.facts run.new.log.known s)) }
{
    if run.bounds.conflict() {
        let step = end_at_cycle(alloc, run)?;
        return Ok(Some(step));
    }
    if let Some(pair) = find_clash(&run.classes) {
        let step = end_at_clash(alloc, run, pair)?;
        return Ok(Some(step));
    }
    match find_contradicted(&run.classes, &run.bounds, &run.log, count) {
        Some(i) => {
            let fact = fact_at(&run.log, i);
            let step = end_at_fact(alloc, run, i, fact)?;
            Ok(Some(step))
        }
        None => Ok(None),
    }
}

/// Classes and bounds that were given nothing, beside an empty log.
fn begin(alloc: Global, nodes: Vec<Node>, facts: Vec<Fact>) -> Result<Run, Memory>
    requires few { length nodes.items ≤ MOST_POINTS }
    requires parts { PartsAreBelow nodes.items (length nodes.items) }
    ensures run { IfOk result (λ r. IsRun r) }
    ensures nodes { IfOk result (λ r. r.log.nodes ≡ nodes.items) }
    ensures facts { IfOk result (λ r. r.log.facts ≡ facts.items) }
{
    let copies = copy_table(alloc, &nodes)?;
    let bounds = Bounds::new(alloc, copies.len() as u32)?;
    let classes = Classes::new(alloc, copies)?;
    Ok(Run {
        log: Log::new(alloc, nodes, facts),
        classes,
        bounds,
        equal: Vec::new(alloc),
        within: Vec::new(alloc),
    })
}

/// Gives classes and bounds all that the closure holds, or a cycle below 0.
fn close(alloc: Global, run: &mut Run, count: u32) -> Result<(), Memory>
    requires run { IsRun run.old }
    requires count { count ≡ length run.old.log.facts }
    requires fine { All (IsFine run.old.log.nodes) run.old.log.facts }
    requires small { All HasSmallNumber run.old.log.nodes }
    requires parts { PartsAreBelow run.old.log.nodes (length run.old.log.nodes) }
    ensures goes { IfOk result (λ _. GoesOn run.old run.new) }
    ensures complete { IfOk result (λ _. (HasNegativeCycle run.new.bounds.edges → ⊥) → AreComplete run.new.classes.nodes run.new.log.facts run.new.classes.merged run.new.bounds.edges) }
{
    add_facts(alloc, run, count)?;
    add_terms(alloc, run)?;
    exchange(alloc, run)?;
    Ok(())
}

/// The steps of a refutation of the facts over a table; none exactly where their closure has no conflict.
pub fn refutation(
    alloc: Global,
    nodes: Vec<Node>,
    facts: Vec<Fact>,
) -> Result<Option<Vec<Step>>, Memory>
    requires parts { PartsAreBelow nodes.items (length nodes.items) }
    requires small { All HasSmallNumber nodes.items }
    requires fine { All (IsFine nodes.items) facts.items }
    ensures { IfOk result (λ o. MatchOption o (Conflict nodes.items facts.items → ⊥) (λ steps. IsRefutation nodes.items facts.items steps.items)) }
{
    if nodes.len() > MOST_POINTS as usize {
        return Err(Memory);
    }
    if facts.len() > MOST_FACTS {
        return Err(Memory);
    }
    let count = facts.len() as u32;
    let mut run = begin(alloc, nodes, facts)?;
    close(alloc, &mut run, count)?;
    match end(alloc, &mut run, count)? {
        Some(step) => {
            let steps = run.log.refutation(step)?;
            Ok(Some(steps))
        }
        None => Ok(None),
    }
}

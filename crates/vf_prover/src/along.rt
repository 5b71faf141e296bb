//! A path that goes from node to node.

ghost use Rattle.std.specs.Vec.{vec_len, vec_capacity};
ghost use Rattle.std.specs.Prelude.{◌≡◌, ◌≤◌, ◌<◌, ◌+◌, ◌++◌, ◌∷◌, [], ℕ, List, length, take, IsTrue, ◌↔◌, IfOk, OnOk, OnErr, All, map, slice_index};
ghost use Rattle.vf_closure.specs.Closure.{Unfoldings};
ghost use Rattle.vf_formula.specs.declared.literal.Literal as declared;
ghost use Rattle.vf_definitions.specs.Unfolded.{unfoldings_of};
ghost use Rattle.vf_asking.specs.Journal.{path_to};
ghost use Rattle.vf_asking.specs.Whole.{ArePlainFacts};
ghost use Rattle.vf_question.specs.Numbered.{terms_of};
ghost use Rattle.vf_unfolding.specs.Rounds.{AreEnough};
ghost use Rattle.vf_trail.specs.declared.node.Node.{Node};
ghost use Rattle.vf_prover.specs.Along.{from_root, IsChild, LeadTo, IsAlong, StandBy, HasCome};

use crate::line::{line_to, shared};
use std::alloc::Global;
use vf_base::Memory;
use vf_definitions::Definitions;
use vf_formula::Literal;
use vf_question::MOST_TERMS;
use vf_trail::{Node, Trail};
use vf_unfolding::Path;

/// Takes nodes back until so many are left.
fn step_back(path: &mut Path, nodes: &mut Vec<Node>, keep: usize)
    requires long { length path.old.levels ≡ length nodes.old.items }
    requires few { keep ≤ length nodes.old.items }
    ensures nodes { nodes.new.items ≡ take keep nodes.old.items }
    ensures along { (u : Unfoldings) (facts : List (ℕ × declared.Literal)) → IsAlong u facts nodes.old.items path.old → IsAlong u facts nodes.new.items path.new }
{
    'back: while nodes.len() > keep {
        nodes.pop();
        path.pop();
    }
}

/// Goes on to a node that hangs on the one where the path stands. Where there is no memory it stays there.
fn step_to(
    trail: &Trail<Literal>,
    definitions: &Definitions,
    path: &mut Path,
    nodes: &mut Vec<Node>,
    node: Node,
) -> Result<(), Memory>
    requires plain { ArePlainFacts trail.now.facts }
    requires child { IsChild trail.now.facts (slice_index (from_root nodes.old.items) (length nodes.old.items)) node.number }
    requires along { IsAlong (unfoldings_of definitions.now) trail.now.facts nodes.old.items path.old }
    ensures along { IsAlong (unfoldings_of definitions.now) trail.now.facts nodes.new.items path.new }
    ensures nodes { OnOk result (nodes.new.items ≡ nodes.old.items ++ node ∷ []) }
{
    nodes.reserve(1)?;
    path.push(trail.allocator(), definitions, trail.get(node))?;
    nodes.push_reserved(node);
    Ok(())
}

/// Goes on along a line of nodes, at the first of which the path stands, to its end or to the first node
/// whose facts have more terms than a question may have.
fn descend(
    trail: &Trail<Literal>,
    definitions: &Definitions,
    path: &mut Path,
    nodes: &mut Vec<Node>,
    line: &[Node],
) -> Result<(), Memory>
    requires plain { ArePlainFacts trail.now.facts }
    requires linked { (k : ℕ) → k < length line.now → IsChild trail.now.facts (slice_index (from_root line.now) k) (slice_index (from_root line.now) (k + 1)) }
    requires few { length nodes.old.items ≤ length line.now }
    requires front { nodes.old.items ≡ take (length nodes.old.items) line.now }
    requires along { IsAlong (unfoldings_of definitions.now) trail.now.facts nodes.old.items path.old }
    ensures along { IsAlong (unfoldings_of definitions.now) trail.now.facts nodes.new.items path.new }
    ensures come { OnOk result (HasCome line.now nodes.new.items path.new) }
{
    for i in nodes.len()..line.len() {
        if path.count() > MOST_TERMS {
            return Ok(());
        }
        step_to(trail, definitions, path, nodes, line[i])?;
    }
    Ok(())
}

/// Goes to a node, back to where the ways part and on from there, or to the first node on the way whose
/// facts have more terms than a question may have. Answers whether the facts of the node's path have no
/// more.
pub(crate) fn go_to(
    trail: &Trail<Literal>,
    definitions: &Definitions,
    path: &mut Path,
    nodes: &mut Vec<Node>,
    at: Node,
) -> Result<bool, Memory>
    requires plain { ArePlainFacts trail.now.facts }
    requires there { at.number ≤ length trail.now.facts }
    requires along { IsAlong (unfoldings_of definitions.now) trail.now.facts nodes.old.items path.old }
    ensures along { IsAlong (unfoldings_of definitions.now) trail.now.facts nodes.new.items path.new }
    ensures few { IfOk result (λ few. IsTrue few ↔ length (terms_of (path_to trail.now.facts at.number)) ≤ MOST_TERMS) }
    ensures facts { IfOk result (λ few. IsTrue few → path.new.now.facts ≡ path_to trail.now.facts at.number) }
    ensures enough { OnOk result (AreEnough (unfoldings_of definitions.now) path.new.now.facts path.new.now.made) }
{
    let line = line_to(trail, at)?;
    let keep = shared(nodes, &line);
    step_back(path, nodes, keep);
    descend(trail, definitions, path, nodes, &line)?;
    Ok(path.count() <= MOST_TERMS)
}

/// Takes the path that is kept, or makes one that stands at the root.
pub(crate) fn take_path(
    trail: &Trail<Literal>,
    definitions: &Definitions,
    paths: &mut Vec<Path>,
) -> Result<Path, Memory>
    ensures along { IfOk result (λ w. (facts : List (ℕ × declared.Literal)) (nodes : List Node) → StandBy (unfoldings_of definitions.now) facts paths.old.items nodes → IsAlong (unfoldings_of definitions.now) facts nodes w) }
    ensures taken { length paths.old.items ≤ 1 → paths.new.items ≡ [] }
    ensures none { OnErr result (paths.old.items ≡ []) }
    ensures fewer { vec_len paths.new ≤ vec_len paths.old }
    ensures room { vec_capacity paths.new ≡ vec_capacity paths.old }
{
    match paths.pop() {
        Some(path) => Ok(path),
        None => {
            let path = Path::new(trail.allocator(), definitions)?;
            Ok(path)
        }
    }
}

//! Right answers, with refutations that have passed the check.

ghost use Rattle.std.specs.Prelude.{◌≡◌, ◌<◌, ◌≤◌, length, All, IfOk};
ghost use Rattle.vf_formula.specs.Literals.{shown_literal};
ghost use Rattle.vf_question.specs.Plain.{IsPlainLiteral};
ghost use Rattle.vf_unfolding.specs.Rounds.{AreEnough};
ghost use Rattle.vf_definitions.specs.Unfolded.{unfoldings_of};
ghost use Rattle.vf_asking.specs.Plain.{CanBeAsked};
ghost use Rattle.vf_asking.specs.Whole.{ArePlainFacts};
ghost use Rattle.vf_asking.specs.Journal.{HasNode, path_at, path_to};
ghost use Rattle.vf_prover.specs.Along.{IsAlong, StandBy, IsStanding};
ghost use Rattle.vf_prover.specs.Held.{last_definitions};
ghost use Rattle.vf_prover.specs.Explained.{IsExplained};

use crate::along::{go_to, take_path};
use vf_answer::{Answer, answered_along};
use vf_asking::Journal;
use vf_base::Memory;
use vf_definitions::Definitions;
use vf_formula::Literal;
use vf_reasons::refutation_along;
use vf_recheck::{Refutation, Tables};
use vf_trail::{Node, Trail};
use vf_unfolding::Path;

/// An answer, with a refutation where it is Proved.
#[derive(Drop)]
pub(crate) enum Explained {
    Proved(Refutation),
    Unknown,
    Terms,
}

/// The answer to a question, explained by a path that stands where it is asked.
fn explain_here(
    trail: &Trail<Literal>,
    definitions: &Definitions,
    tables: &mut Tables,
    path: &mut Path,
    goal: &Literal,
) -> Result<Explained, Memory>
    requires facts { All IsPlainLiteral path.old.now.facts }
    requires plain { CanBeAsked (shown_literal goal.now) }
    requires enough { AreEnough (unfoldings_of definitions.now) path.old.now.facts path.old.now.made }
    ensures stays { path.new ≡ path.old }
    ensures explained { IfOk result (IsExplained (unfoldings_of definitions.now) path.old.now.facts (shown_literal goal.now)) }
{
    match answered_along(trail.allocator(), definitions, path, goal)? {
        Answer::Proved => {
            let steps = refutation_along(trail.allocator(), definitions, tables, path, goal)?;
            Ok(Explained::Proved(Refutation { steps }))
        }
        Answer::Unknown => Ok(Explained::Unknown),
        Answer::Terms => Ok(Explained::Terms),
    }
}

/// The answer to the question of the goal under the facts of a node's path, to which the path goes where
/// they have no more terms than a question may have, explained.
fn explain_along(
    trail: &Trail<Literal>,
    definitions: &Definitions,
    tables: &mut Tables,
    path: &mut Path,
    nodes: &mut Vec<Node>,
    at: Node,
    goal: &Literal,
) -> Result<Explained, Memory>
    requires facts { ArePlainFacts trail.now.facts }
    requires there { at.number ≤ length trail.now.facts }
    requires plain { CanBeAsked (shown_literal goal.now) }
    requires along { IsAlong (unfoldings_of definitions.now) trail.now.facts nodes.old.items path.old }
    ensures along { IsAlong (unfoldings_of definitions.now) trail.now.facts nodes.new.items path.new }
    ensures explained { IfOk result (IsExplained (unfoldings_of definitions.now) (path_to trail.now.facts at.number) (shown_literal goal.now)) }
{
    let few = go_to(trail, definitions, path, nodes, at)?;
    if few {
        let explained = explain_here(trail, definitions, tables, path, goal)?;
        Ok(explained)
    } else {
        Ok(Explained::Terms)
    }
}

/// The same, with the path that is kept, if there is one.
fn explain_from(
    trail: &Trail<Literal>,
    definitions: &Definitions,
    tables: &mut Tables,
    paths: &mut Vec<Path>,
    nodes: &mut Vec<Node>,
    at: Node,
    goal: &Literal,
) -> Result<Explained, Memory>
    requires facts { ArePlainFacts trail.now.facts }
    requires there { at.number ≤ length trail.now.facts }
    requires plain { CanBeAsked (shown_literal goal.now) }
    requires standing { StandBy (unfoldings_of definitions.now) trail.now.facts paths.old.items nodes.old.items }
    ensures standing { StandBy (unfoldings_of definitions.now) trail.now.facts paths.new.items nodes.new.items }
    ensures explained { IfOk result (IsExplained (unfoldings_of definitions.now) (path_to trail.now.facts at.number) (shown_literal goal.now)) }
{
    paths.reserve(1)?;
    let mut path = take_path(trail, definitions, paths)?;
    let explained = explain_along(trail, definitions, tables, &mut path, nodes, at, goal);
    paths.push_reserved(path);
    explained
}

/// The right answer to the question of the goal under the facts of a node's path, the fixpoints of the
/// unit begun last being unfolded, with a refutation where it is Proved.
pub(crate) fn explain(
    journal: &Journal,
    tables: &mut Tables,
    paths: &mut Vec<Path>,
    nodes: &mut Vec<Node>,
    at: Node,
    goal: &Literal,
) -> Result<Explained, Memory>
    requires begun { 0 < length journal.now.units }
    requires there { HasNode journal.now at }
    requires plain { CanBeAsked (shown_literal goal.now) }
    requires standing { IsStanding journal.now.units journal.now.trail.facts paths.old.items nodes.old.items }
    ensures standing { IsStanding journal.now.units journal.now.trail.facts paths.new.items nodes.new.items }
    ensures explained { IfOk result (IsExplained (unfoldings_of (last_definitions journal.now.units)) (path_at journal.now at) (shown_literal goal.now)) }
{
    let definitions = &journal.units.as_slice()[journal.units.len() - 1];
    explain_from(&journal.trail, definitions, tables, paths, nodes, at, goal)
}

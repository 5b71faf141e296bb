//! Assertions.

ghost use Rattle.std.specs.Prelude.{◌≡◌, ◌+◌, ◌<◌, ◌^◌, length, IfOk};
ghost use Rattle.vf_syntax.specs.AssertionTree as written;
ghost use Rattle.vf_syntax.specs.AssertionTree.{assertion_case_list, part_list};
ghost use Rattle.vf_resolving.specs.Standings.{around_of, standing_of};
ghost use Rattle.vf_resolving.specs.Assertions.{case_resolved, cases_resolved, enclosed, part_resolved, parts_resolved};
ghost use Rattle.vf_asserting.specs.Leaving.{count};

use crate::cases::{Switched, case_names, constructor_identity, constructor_place, switch_over};
use crate::reading::{cell_at, chunk_at, read_at, truth_at};
use crate::standing::{Around, Standing, leave, put_behind, slots_for};
use vf_base::{Memory, Place, Sequence};
use vf_resolved::assertion::{
    Assertion as Resolved, Branch, BranchList, Part as ResolvedPart, PartNode as Node,
};
use vf_resolved_parts::Progress;
use vf_resolved_parts::parts::beginning;
use vf_syntax::assertion::{Assertion, AssertionCase, AssertionCaseList, Part, PartNode};
use vf_syntax::ghost_expr::GhostExpr;
use vf_syntax::pattern::{CasePattern, Pattern, Share};
use vf_syntax::written::Name;
use vf_terms::arguments::behind;

/// A chunk at a place.
fn chunk_resolved(
    around: &Around<'_>,
    standing: &mut Standing,
    place: Place,
    share: &Option<Share>,
    name: &Name,
    first: &Sequence<Pattern>,
    second: &Option<Sequence<Pattern>>,
) -> Result<ResolvedPart, Memory>
    ensures { IfOk result (λ x. part_resolved (around_of around.now) (standing_of standing.old) (written.chunk place share.now name.now first.now second.now) ≡ record { part = x; standing = standing_of standing.new }) }
{
    let mut progress = beginning(around.alloc, standing.next);
    let part = chunk_at(
        around,
        standing,
        &mut progress,
        place,
        share,
        name,
        first,
        second,
    )?;
    put_behind(around, standing, &progress)?;
    Ok(part)
}

/// A cell at a place.
fn cell_resolved(
    around: &Around<'_>,
    standing: &mut Standing,
    place: Place,
    share: &Option<Share>,
    pointer: &GhostExpr,
    field: &Name,
    content: &Pattern,
) -> Result<ResolvedPart, Memory>
    ensures { IfOk result (λ x. part_resolved (around_of around.now) (standing_of standing.old) (written.cell place share.now pointer.now field.now content.now) ≡ record { part = x; standing = standing_of standing.new }) }
{
    let mut progress = beginning(around.alloc, standing.next);
    let part = cell_at(
        around,
        standing,
        &mut progress,
        place,
        share,
        pointer,
        field,
        content,
    )?;
    put_behind(around, standing, &progress)?;
    Ok(part)
}

/// A truth value at a place.
fn pure_resolved(
    around: &Around<'_>,
    standing: &mut Standing,
    place: Place,
    expr: &GhostExpr,
) -> Result<ResolvedPart, Memory>
    ensures { IfOk result (λ x. part_resolved (around_of around.now) (standing_of standing.old) (written.pure place expr.now) ≡ record { part = x; standing = standing_of standing.new }) }
{
    let reading = truth_at(around, standing, expr)?;
    standing.next = reading.next;
    Ok(ResolvedPart {
        place,
        node: Node::Pure(reading.truth),
    })
}

/// A part.
#[cycle(assertion)]
pub fn part_resolved(
    around: &Around<'_>,
    standing: &mut Standing,
    part: &Part,
) -> Result<ResolvedPart, Memory>
    ensures { IfOk result (λ x. part_resolved (around_of around.now) (standing_of standing.old) part.now ≡ record { part = x; standing = standing_of standing.new }) }
{
    let place = part.place;
    match &part.node {
        PartNode::Conditional(test, yes, no) => {
            conditional_resolved(around, standing, place, test, yes, no)
        }
        PartNode::Switch(value, cases) => switch_resolved(around, standing, place, value, cases),
        PartNode::Cell(share, pointer, field, content) => {
            cell_resolved(around, standing, place, share, pointer, field, content)
        }
        PartNode::Chunk(share, name, first, second) => {
            chunk_resolved(around, standing, place, share, name, first, second)
        }
        PartNode::Empty => Ok(ResolvedPart {
            place,
            node: Node::Empty,
        }),
        PartNode::Pure(expr) => pure_resolved(around, standing, place, expr),
        PartNode::Group(inner) => group_resolved(around, standing, place, inner),
    }
}

/// An assertion in parentheses at a place.
#[cycle(assertion)]
fn group_resolved(
    around: &Around<'_>,
    standing: &mut Standing,
    place: Place,
    inner: &Assertion,
) -> Result<ResolvedPart, Memory>
    ensures { IfOk result (λ x. part_resolved (around_of around.now) (standing_of standing.old) (written.group place (part_list inner.now)) ≡ record { part = x; standing = standing_of standing.new }) }
{
    let parts = assertion_resolved(around, standing, inner)?;
    Ok(ResolvedPart {
        place,
        node: Node::Group(parts),
    })
}

/// The assertion of a branch: what it declares is gone behind it.
#[cycle(assertion)]
fn branch_resolved(
    around: &Around<'_>,
    standing: &mut Standing,
    assertion: &Assertion,
) -> Result<Resolved, Memory>
    ensures { IfOk result (λ x. enclosed (count standing.old.scope) (parts_resolved (around_of around.now) (standing_of standing.old) (part_list assertion.now)) ≡ record { parts = x; standing = standing_of standing.new }) }
{
    let many = standing.scope.locals.names.len();
    let parts = assertion_resolved(around, standing, assertion)?;
    leave(standing, many);
    Ok(parts)
}

/// A conditional at a place.
#[cycle(assertion)]
fn conditional_resolved(
    around: &Around<'_>,
    standing: &mut Standing,
    place: Place,
    test: &GhostExpr,
    yes: &Assertion,
    no: &Assertion,
) -> Result<ResolvedPart, Memory>
    ensures { IfOk result (λ x. part_resolved (around_of around.now) (standing_of standing.old) (written.conditional place test.now (part_list yes.now) (part_list no.now)) ≡ record { part = x; standing = standing_of standing.new }) }
{
    let test = truth_at(around, standing, test)?;
    standing.next = test.next;
    let yes = branch_resolved(around, standing, yes)?;
    let no = branch_resolved(around, standing, no)?;
    Ok(ResolvedPart {
        place,
        node: Node::Conditional(test.truth, yes, no),
    })
}

/// A `switch` at a place.
#[cycle(assertion)]
fn switch_resolved(
    around: &Around<'_>,
    standing: &mut Standing,
    place: Place,
    value: &GhostExpr,
    cases: &AssertionCaseList,
) -> Result<ResolvedPart, Memory>
    ensures { IfOk result (λ x. part_resolved (around_of around.now) (standing_of standing.old) (written.switch_ place value.now (assertion_case_list cases.now)) ≡ record { part = x; standing = standing_of standing.new }) }
{
    let reading = read_at(around, standing, value)?;
    let over = switch_over(&standing.scope, &reading);
    standing.next = behind(over.first, over.count)?;
    let branches = cases_resolved(around, over, standing, cases)?;
    Ok(ResolvedPart {
        place,
        node: Node::Switch(reading.term, branches),
    })
}

/// A case at a place.
#[cycle(assertion)]
fn body_resolved(
    around: &Around<'_>,
    over: Switched,
    standing: &mut Standing,
    place: Place,
    pattern: &CasePattern,
    body: &Assertion,
) -> Result<Branch, Memory>
    requires { over.first + over.count < 2 ^ 64 }
    ensures { IfOk result (λ x. case_resolved (around_of around.now) over (standing_of standing.old) (written.assertion_case place pattern.now (part_list body.now)) ≡ record { branch = x; standing = standing_of standing.new }) }
{
    let alloc = around.alloc;
    let many = standing.scope.locals.names.len();
    let constructor = constructor_identity(
        alloc,
        &standing.scope,
        around.paths,
        &pattern.constructor,
    )?;
    let number = constructor_place(&standing.scope, over.datatype, &pattern.constructor);
    let bound = case_names(alloc, &standing.scope, around.unknowns, over, pattern)?;
    let names = slots_for(around, standing.sorts.len(), &bound.sorts)?;
    let progress = Progress {
        bound,
        next: standing.next,
    };
    put_behind(around, standing, &progress)?;
    let body = assertion_resolved(around, standing, body)?;
    leave(standing, many);
    Ok(Branch {
        place,
        constructor,
        number,
        names,
        body,
    })
}

/// The same of a case.
#[cycle(assertion)]
fn case_resolved(
    around: &Around<'_>,
    over: Switched,
    standing: &mut Standing,
    case: &AssertionCase,
) -> Result<Branch, Memory>
    requires { over.first + over.count < 2 ^ 64 }
    ensures { IfOk result (λ x. case_resolved (around_of around.now) over (standing_of standing.old) case.now ≡ record { branch = x; standing = standing_of standing.new }) }
{
    body_resolved(
        around,
        over,
        standing,
        case.place,
        &case.pattern,
        &case.body,
    )
}

/// Cases, from the first to the last.
#[cycle(assertion)]
#[tactic(auto, using(vf_asserting::proofs::Lists::case_smaller))]
fn cases_resolved(
    around: &Around<'_>,
    over: Switched,
    standing: &mut Standing,
    cases: &AssertionCaseList,
) -> Result<BranchList, Memory>
    requires { over.first + over.count < 2 ^ 64 }
    ensures { IfOk result (λ xs. cases_resolved (around_of around.now) over (standing_of standing.old) (assertion_case_list cases.now) ≡ record { branches = xs; standing = standing_of standing.new }) }
{
    let mut all = BranchList::new(around.alloc);
    for at in 0..cases.len() {
        let Some(case) = cases.get(at) else {
            return Ok(all);
        };
        let branch = case_resolved(around, over, standing, case)?;
        all.push(branch)?;
    }
    Ok(all)
}

/// An assertion: its parts from left to right.
#[cycle(assertion)]
#[tactic(auto, using(vf_asserting::proofs::Lists::part_smaller))]
pub fn assertion_resolved(
    around: &Around<'_>,
    standing: &mut Standing,
    assertion: &Assertion,
) -> Result<Resolved, Memory>
    ensures { IfOk result (λ xs. parts_resolved (around_of around.now) (standing_of standing.old) (part_list assertion.now) ≡ record { parts = xs; standing = standing_of standing.new }) }
{
    let mut all = Resolved::new(around.alloc);
    for at in 0..assertion.len() {
        let Some(part) = assertion.get(at) else {
            return Ok(all);
        };
        let part = part_resolved(around, standing, part)?;
        all.push(part)?;
    }
    Ok(all)
}

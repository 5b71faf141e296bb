//! Truth values with their connectives, comparisons and choices told apart.

ghost use Rattle.std.specs.Prelude.{◌≡◌, false, IfOk};
ghost use Rattle.vf_syntax.specs.GhostExprTree as tree;
ghost use Rattle.vf_syntax.specs.GhostExprTree.{ghost_link_list};
ghost use Rattle.vf_terms.specs.Settings.{setting_of};
ghost use Rattle.vf_terms.specs.Readings.{read};
ghost use Rattle.vf_resolved_parts.specs.Truths.{all_true, any_true, both_link, either_link, relation, side, side_link, sides, truth};

use crate::comparing::{
    as_side, both, choice, compared, denied, either, of_side, related, whole, whole_side,
};
use crate::truth_reading::{Side, TruthReading};
use vf_base::{Memory, Place};
use vf_syntax::ghost_expr::{GhostExpr, GhostExprNode, GhostLink, GhostLinkList};
use vf_syntax::operator::{Level, UnaryOperator};
use vf_terms::{Reading, Setting, is_null, read};

/// A number beside the first of some operators `<`, `<=`, `>` and `>=`.
#[tactic(auto, using(crate::proofs::Links::relation_none, crate::proofs::Links::relation_one))]
fn relation(
    setting: &Setting<'_>,
    start: Reading,
    links: &GhostLinkList,
) -> Result<TruthReading, Memory>
    ensures { IfOk result (λ x. x ≡ relation (setting_of setting.now) start (ghost_link_list links.now)) }
{
    let Some(link) = links.get(0) else {
        return Ok(whole(start));
    };
    let right = read(setting, false, start.next, &link.operand)?;
    related(setting.alloc, link.operator, start, right)
}

/// A truth value.
#[cycle(truth)]
pub fn truth(setting: &Setting<'_>, next: usize, expr: &GhostExpr) -> Result<TruthReading, Memory>
    ensures { IfOk result (λ x. x ≡ truth (setting_of setting.now) next expr.now) }
{
    match &expr.node {
        GhostExprNode::Parenthesized(inner) => truth(setting, next, inner),
        GhostExprNode::Conditional(test, yes, no) => {
            chosen(setting, next, expr.place, test, yes, no)
        }
        GhostExprNode::Unary(UnaryOperator::Not, operand) => {
            let operand = truth(setting, next, operand)?;
            denied(setting.alloc, operand)
        }
        GhostExprNode::Chain(Level::And, start, links) => {
            let start = truth(setting, next, start)?;
            all_true(setting, start, links)
        }
        GhostExprNode::Chain(Level::Or, start, links) => {
            let start = truth(setting, next, start)?;
            any_true(setting, start, links)
        }
        GhostExprNode::Chain(Level::Equality, start, links) => {
            let is_start_null = is_null(start);
            let start = side(setting, next, start)?;
            let side = sides(setting, is_start_null, start, links)?;
            Ok(of_side(side))
        }
        GhostExprNode::Chain(Level::Relational, start, links) => {
            let start = read(setting, false, next, start)?;
            relation(setting, start, links)
        }
        _ => {
            let reading = read(setting, false, next, expr)?;
            Ok(whole(reading))
        }
    }
}

/// A choice at a place.
#[cycle(truth)]
fn chosen(
    setting: &Setting<'_>,
    next: usize,
    place: Place,
    test: &GhostExpr,
    yes: &GhostExpr,
    no: &GhostExpr,
) -> Result<TruthReading, Memory>
    ensures { IfOk result (λ x. x ≡ truth (setting_of setting.now) next (tree.conditional place test.now yes.now no.now)) }
{
    let test = truth(setting, next, test)?;
    let first = truth(setting, test.next, yes)?;
    let second = truth(setting, first.next, no)?;
    choice(setting.alloc, test, first, second)
}

/// A side of `==` or `!=`.
#[cycle(side)]
fn side(setting: &Setting<'_>, next: usize, expr: &GhostExpr) -> Result<Side, Memory>
    ensures { IfOk result (λ x. x ≡ side (setting_of setting.now) next expr.now) }
{
    match &expr.node {
        GhostExprNode::Parenthesized(inner) => side(setting, next, inner),
        GhostExprNode::Chain(Level::Equality, start, links) => {
            let is_start_null = is_null(start);
            let start = side(setting, next, start)?;
            sides(setting, is_start_null, start, links)
        }
        GhostExprNode::Chain(Level::Relational, start, links) => {
            let start = read(setting, false, next, start)?;
            let truth = relation(setting, start, links)?;
            Ok(as_side(setting.alloc, truth))
        }
        _ => {
            let reading = read(setting, false, next, expr)?;
            Ok(whole_side(reading))
        }
    }
}

/// One side behind a left one, which is or is not a `0`.
#[cycle(side)]
fn side_link(
    setting: &Setting<'_>,
    is_left_null: bool,
    left: Side,
    link: &GhostLink,
) -> Result<Side, Memory>
    ensures { IfOk result (λ x. x ≡ side_link (setting_of setting.now) is_left_null left link.now) }
{
    let right = side(setting, left.next, &link.operand)?;
    compared(
        setting.alloc,
        link.operator,
        is_null(&link.operand),
        is_left_null,
        left,
        right,
    )
}

/// Sides behind a left one, which is or is not a `0`, from left to right.
#[cycle(side)]
#[tactic(auto, using(vf_sorting::proofs::Lists::link_smaller))]
fn sides(
    setting: &Setting<'_>,
    is_start_null: bool,
    start: Side,
    links: &GhostLinkList,
) -> Result<Side, Memory>
    ensures { IfOk result (λ x. x ≡ sides (setting_of setting.now) is_start_null start (ghost_link_list links.now)) }
{
    let mut is_left_null = is_start_null;
    let mut left = start;
    for at in 0..links.len() {
        let Some(link) = links.get(at) else {
            return Ok(left);
        };
        left = side_link(setting, is_left_null, left, link)?;
        is_left_null = false;
    }
    Ok(left)
}

/// A truth value and one more, joined by `&&`.
#[cycle(truth)]
fn both_link(
    setting: &Setting<'_>,
    left: TruthReading,
    link: &GhostLink,
) -> Result<TruthReading, Memory>
    ensures { IfOk result (λ x. x ≡ both_link (setting_of setting.now) left link.now) }
{
    let right = truth(setting, left.next, &link.operand)?;
    both(setting.alloc, left, right)
}

/// Truth values joined by `&&`, from left to right.
#[cycle(truth)]
#[tactic(auto, using(vf_sorting::proofs::Lists::link_smaller))]
fn all_true(
    setting: &Setting<'_>,
    start: TruthReading,
    links: &GhostLinkList,
) -> Result<TruthReading, Memory>
    ensures { IfOk result (λ x. x ≡ all_true (setting_of setting.now) start (ghost_link_list links.now)) }
{
    let mut left = start;
    for at in 0..links.len() {
        let Some(link) = links.get(at) else {
            return Ok(left);
        };
        left = both_link(setting, left, link)?;
    }
    Ok(left)
}

/// A truth value and one more, joined by `||`.
#[cycle(truth)]
fn either_link(
    setting: &Setting<'_>,
    left: TruthReading,
    link: &GhostLink,
) -> Result<TruthReading, Memory>
    ensures { IfOk result (λ x. x ≡ either_link (setting_of setting.now) left link.now) }
{
    let right = truth(setting, left.next, &link.operand)?;
    either(setting.alloc, left, right)
}

/// Truth values joined by `||`, from left to right.
#[cycle(truth)]
#[tactic(auto, using(vf_sorting::proofs::Lists::link_smaller))]
fn any_true(
    setting: &Setting<'_>,
    start: TruthReading,
    links: &GhostLinkList,
) -> Result<TruthReading, Memory>
    ensures { IfOk result (λ x. x ≡ any_true (setting_of setting.now) start (ghost_link_list links.now)) }
{
    let mut left = start;
    for at in 0..links.len() {
        let Some(link) = links.get(at) else {
            return Ok(left);
        };
        left = either_link(setting, left, link)?;
    }
    Ok(left)
}

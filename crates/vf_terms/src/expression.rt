//! Ghost expressions as terms.

ghost use Rattle.std.specs.Prelude.{◌≡◌, ◌+◌, ◌<◌, ◌^◌, false, true, IfOk};
ghost use Rattle.vf_syntax.specs.GhostExprTree as tree;
ghost use Rattle.vf_syntax.specs.GhostExprTree.{ghost_expr_list, ghost_link_list};
ghost use Rattle.vf_sorting.specs.Schemes as schemes;
ghost use Rattle.vf_terms.specs.Named.{scheme_or_int};
ghost use Rattle.vf_terms.specs.Readings.{number_reading, read, read_all, read_link, read_links, reading, sort_or_int};
ghost use Rattle.vf_terms.specs.Settings.{setting_of, settled};
ghost use Rattle.vf_closure.specs.Terms.{Truth, term, no_terms};
ghost use Rattle.vf_sorting.specs.Kinds.{bool_sort};

use crate::arguments::{applied, behind, named, scheme_of_application, settled_instance};
use crate::forms::is_null;
use crate::operated::{beside, chosen, chosen_pointer, linked, null_term, prefixed};
use crate::reading::{Reading, Row};
use crate::setting::{Setting, settled};
use std::alloc::Global;
use vf_base::{Memory, Place, Text};
use vf_formula::{Head, Term, TermList};
use vf_sorting::Scheme;
use vf_sorting::kinds::{bool_sort, int_sort, is_pointer, pointer_sort};
use vf_syntax::ghost_expr::{GhostExpr, GhostExprList, GhostExprNode, GhostLink, GhostLinkList};

/// A number, or the null pointer where a pointer is wanted and it is 0.
fn number_reading(alloc: Global, wants_pointer: bool, number: u64, next: usize) -> Reading
    ensures { result ≡ number_reading wants_pointer number next }
{
    if wants_pointer && number == 0 {
        return Reading {
            sort: pointer_sort(alloc),
            term: null_term(alloc),
            next,
        };
    }
    Reading {
        sort: int_sort(alloc),
        term: Term::of_number(alloc, number as i128),
        next,
    }
}

/// A truth value.
fn truth_reading(alloc: Global, truth: bool, next: usize) -> Reading
    ensures { result ≡ reading bool_sort (term (Truth truth) no_terms) next }
{
    Reading {
        sort: bool_sort(alloc),
        term: Term::leaf(alloc, Head::Truth(truth)),
        next,
    }
}

/// `result`
fn result_reading(setting: &Setting<'_>, next: usize) -> Result<Reading, Memory>
    ensures { IfOk result (λ r. r ≡ reading (settled (setting_of setting.now) (sort_or_int (setting_of setting.now).context.result)) (setting_of setting.now).result next) }
{
    let term = setting.result.copy(setting.alloc)?;
    let sort = match &setting.context.result {
        Some(sort) => settled(setting, sort)?,
        None => settled(setting, &int_sort(setting.alloc))?,
    };
    Ok(Reading { sort, term, next })
}

/// An expression as a term, where a pointer is or is not wanted. Names that may not stand there are read as
/// the number 0; an expression that is sorted has none.
#[cycle(read)]
pub fn read(
    setting: &Setting<'_>,
    wants_pointer: bool,
    next: usize,
    expr: &GhostExpr,
) -> Result<Reading, Memory>
    ensures { IfOk result (λ r. r ≡ read (setting_of setting.now) wants_pointer next expr.now) }
{
    let alloc = setting.alloc;
    match &expr.node {
        GhostExprNode::Number(number, _) => {
            Ok(number_reading(alloc, wants_pointer, *number, next))
        }
        GhostExprNode::True => Ok(truth_reading(alloc, true, next)),
        GhostExprNode::False => Ok(truth_reading(alloc, false, next)),
        GhostExprNode::Result => result_reading(setting, next),
        GhostExprNode::This => Ok(Reading {
            sort: pointer_sort(alloc),
            term: setting.this_value.copy(alloc)?,
            next,
        }),
        GhostExprNode::CurrentThread => Ok(Reading {
            sort: int_sort(alloc),
            term: setting.thread.copy(alloc)?,
            next,
        }),
        GhostExprNode::Name(name) => named(setting, next, expr.place, name),
        GhostExprNode::Application(name, arguments) => {
            application(setting, next, expr.place, name, arguments)
        }
        GhostExprNode::Parenthesized(inner) => read(setting, wants_pointer, next, inner),
        GhostExprNode::Conditional(test, yes, no) => {
            if wants_pointer {
                choice_of_pointers(setting, next, expr.place, test, yes, no)
            } else {
                choice(setting, next, expr.place, test, yes, no)
            }
        }
        GhostExprNode::Unary(operator, operand) => {
            let operand = read(setting, false, next, operand)?;
            prefixed(alloc, *operator, operand)
        }
        GhostExprNode::Chain(_, start, links) => {
            let is_start_null = is_null(start);
            let start = read(setting, false, next, start)?;
            all_linked(setting, is_start_null, start, links)
        }
    }
}

/// A choice where a pointer is wanted.
#[cycle(read)]
fn choice_of_pointers(
    setting: &Setting<'_>,
    next: usize,
    place: Place,
    test: &GhostExpr,
    yes: &GhostExpr,
    no: &GhostExpr,
) -> Result<Reading, Memory>
    ensures { IfOk result (λ r. r ≡ read (setting_of setting.now) true next (tree.conditional place test.now yes.now no.now)) }
{
    let test = read(setting, false, next, test)?;
    let first = read(setting, true, test.next, yes)?;
    let second = read(setting, true, first.next, no)?;
    chosen_pointer(setting.alloc, test, first, second)
}

/// A choice where no pointer is wanted.
#[cycle(read)]
fn choice(
    setting: &Setting<'_>,
    next: usize,
    place: Place,
    test: &GhostExpr,
    yes: &GhostExpr,
    no: &GhostExpr,
) -> Result<Reading, Memory>
    ensures { IfOk result (λ r. r ≡ read (setting_of setting.now) false next (tree.conditional place test.now yes.now no.now)) }
{
    let test = read(setting, false, next, test)?;
    let first = read(setting, false, test.next, yes)?;
    let second = read(setting, false, first.next, no)?;
    let pair = beside(setting.alloc, is_null(no), is_null(yes), first, second);
    chosen(setting.alloc, test, pair)
}

/// An operator and its operand behind a left operand, which is or is not a `0`.
#[cycle(read)]
fn one_linked(
    setting: &Setting<'_>,
    is_left_null: bool,
    left: Reading,
    link: &GhostLink,
) -> Result<Reading, Memory>
    ensures { IfOk result (λ r. r ≡ read_link (setting_of setting.now) is_left_null left link.now) }
{
    let right = read(setting, false, left.next, &link.operand)?;
    linked(
        setting.alloc,
        link.operator,
        is_null(&link.operand),
        is_left_null,
        left,
        right,
    )
}

/// Operators and operands behind a left operand, which is or is not a `0`, from left to right.
#[cycle(read)]
#[tactic(auto, using(vf_sorting::proofs::Lists::link_smaller))]
fn all_linked(
    setting: &Setting<'_>,
    is_start_null: bool,
    start: Reading,
    links: &GhostLinkList,
) -> Result<Reading, Memory>
    ensures { IfOk result (λ r. r ≡ read_links (setting_of setting.now) is_start_null start (ghost_link_list links.now)) }
{
    let mut is_left_null = is_start_null;
    let mut left = start;
    for at in 0..links.len() {
        let Some(link) = links.get(at) else {
            return Ok(left);
        };
        left = one_linked(setting, is_left_null, left, link)?;
        is_left_null = false;
    }
    Ok(left)
}

/// Arguments for the parameters of a scheme, where unknown sorts from the first on stand for its type
/// parameters.
#[cycle(read)]
#[tactic(auto, using(vf_sorting::proofs::Lists::expr_smaller))]
fn all_read(
    setting: &Setting<'_>,
    first: usize,
    scheme: &Scheme,
    next: usize,
    arguments: &GhostExprList,
) -> Result<Row, Memory>
    requires { first + scheme.now.parameters < 2 ^ 64 }
    ensures { IfOk result (λ r. r ≡ read_all (setting_of setting.now) first scheme.now.parameters scheme.now.arguments next (ghost_expr_list arguments.now)) }
{
    let mut row = Row {
        terms: TermList::new(setting.alloc),
        next,
    };
    for at in 0..arguments.len().min(scheme.arguments.len()) {
        let Some(parameter) = scheme.arguments.get(at) else {
            return Ok(row);
        };
        let Some(argument) = arguments.get(at) else {
            return Ok(row);
        };
        let wanted = settled_instance(setting, first, scheme.parameters, parameter)?;
        let argument = read(setting, is_pointer(&wanted), row.next, argument)?;
        row.terms.push(argument.term)?;
        row.next = argument.next;
    }
    Ok(row)
}

/// A name at a place in front of arguments.
#[cycle(read)]
fn application(
    setting: &Setting<'_>,
    next: usize,
    place: Place,
    name: &Text,
    arguments: &GhostExprList,
) -> Result<Reading, Memory>
    ensures { IfOk result (λ r. r ≡ read (setting_of setting.now) false next (tree.application place name.now (ghost_expr_list arguments.now))) }
{
    let scheme = scheme_of_application(setting, place, name)?;
    let behind = behind(next, scheme.parameters)?;
    let row = all_read(setting, next, &scheme, behind, arguments)?;
    applied(setting, &scheme, name, place.file, next, row)
}

//! A number as a term.

use std::alloc::Global;
use vf_base::{IntType, Memory, Place};
use vf_declared::scope::Scope;
use vf_formula::Term;
use vf_sorting::Context;
use vf_sorts::Unknowns;
use vf_syntax::ghost_expr::{GhostExpr, GhostExprNode};
use vf_terms::{Setting, read};

/// A number.
fn number(number: u64) -> GhostExpr {
    GhostExpr {
        place: Place {
            file: 0,
            line: 1,
            column: 1,
        },
        node: GhostExprNode::Number(number, IntType::Int),
    }
}

/// Whether an expression is a term.
fn is_read(setting: &Setting<'_>, value: &GhostExpr, term: &Term) -> Result<bool, Memory> {
    match read(setting, false, 0, value) {
        Ok(reading) => Ok(reading.term.same(term)),
        Err(memory) => Err(memory),
    }
}

/// Whether an expression is a number as a term, where nothing is declared and no words and no locals stand.
fn is_number(alloc: Global, value: &GhostExpr, number: i128) -> Result<bool, Memory> {
    let scope = Scope::new(alloc, 0);
    let unknowns = Unknowns::new(alloc);
    let term = Term::of_number(alloc, number);
    let context = Context {
        result: None,
        has_this: false,
        has_thread: false,
        own: None,
    };
    let setting = Setting {
        alloc,
        scope: &scope,
        context: &context,
        unknowns: &unknowns,
        paths: &[],
        locals: &[],
        result: &term,
        this_value: &term,
        thread: &term,
    };
    is_read(&setting, value, &term)
}

/// A number is itself.
#[test]
fn numbers(rt: HostRuntime) {
    let seven = number(7);
    assert_eq!(rt; is_number(rt.alloc(), &seven, 7), Ok(true));
}

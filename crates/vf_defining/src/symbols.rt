//! Symbols for locals, and expressions read with these.

ghost use Rattle.std.specs.Prelude.{◌≡◌, IfOk};
ghost use Rattle.vf_defining.specs.Symbols.{symbol_of, symbols_from, value_read};

use std::alloc::Global;
use vf_base::{Memory, Text};
use vf_declared::locals::Local;
use vf_declared::scope::Scope;
use vf_declared::stack::Stack;
use vf_formula::{Head, Kind, Name, Term};
use vf_sorting::Context;
use vf_sorting::kinds::is_pointer;
use vf_sorting::names::sort_of_local;
use vf_sorts::{Head as SortHead, Sort, Unknowns};
use vf_syntax::ghost_expr::GhostExpr;
use vf_terms::{Reading, Setting, read};

/// The symbol of a local with a number.
fn symbol_of(
    alloc: Global,
    unknowns: &Unknowns,
    number: usize,
    local: &Local,
) -> Result<Term, Memory>
    ensures { IfOk result (λ t. t ≡ symbol_of unknowns.now number local.now) }
{
    let sort = sort_of_local(alloc, local)?;
    let sort = unknowns.settle(&sort)?;
    let kind = match sort.head {
        SortHead::Int => Kind::Integer,
        _ => Kind::Other,
    };
    Ok(Term::leaf(alloc, Head::Symbol(kind, Name::Numbered(number as u64))))
}

/// The symbols of locals, numbered from 0 on.
fn symbols(alloc: Global, unknowns: &Unknowns, locals: &Stack<Local>) -> Result<Vec<Term>, Memory>
    ensures { IfOk result (λ ts. ts.items ≡ symbols_from unknowns.now 0 locals.now) }
{
    let mut all = Vec::new(alloc);
    for at in 0..locals.len() {
        let Some(local) = locals.get(at) else {
            return Ok(all);
        };
        all.push(symbol_of(alloc, unknowns, at, local)?)?;
    }
    Ok(all)
}

/// An expression that passes for a sort, read with symbols for the locals.
pub(crate) fn value_read(
    alloc: Global,
    scope: &Scope,
    context: &Context,
    unknowns: &Unknowns,
    paths: &[Text],
    sort: &Sort,
    next: usize,
    value: &GhostExpr,
) -> Result<Reading, Memory>
    ensures { IfOk result (λ r. r ≡ value_read scope.now context.now unknowns.now paths.now sort.now next value.now) }
{
    let locals = symbols(alloc, unknowns, &scope.locals.meanings)?;
    let nought = Term::of_number(alloc, 0);
    let wanted = unknowns.settle(sort)?;
    let setting = Setting {
        alloc,
        scope,
        context,
        unknowns,
        paths,
        locals: &locals,
        result: &nought,
        this_value: &nought,
        thread: &nought,
    };
    read(&setting, is_pointer(&wanted), next, value)
}

//! What is declared and numbered where a text begins.

ghost use Rattle.std.specs.Prelude.{◌≡◌, map, IfOk};
ghost use Rattle.vf_sorting.specs.Schemes.{sort_of_local};
ghost use Rattle.vf_resolving.specs.Standings.{around_of, standing_of};
ghost use Rattle.vf_asserting.specs.Leaving.{count};
ghost use Rattle.vf_resolved_contracts.specs.Reading.{names_of, starting};

use std::alloc::Global;
use vf_base::Memory;
use vf_declared::locals::Local;
use vf_declared::scope::Scope;
use vf_declared::stack::Stack;
use vf_resolved::contract::Names;
use vf_resolving::standing::put_sorts;
use vf_resolving::{Around, Standing};
use vf_sorting::names::sort_of_local;
use vf_sorts::SortList;

/// The sorts of locals.
fn sorts_of(alloc: Global, locals: &Stack<Local>) -> Result<SortList, Memory>
    ensures { IfOk result (λ ts. ts ≡ map sort_of_local locals.now) }
{
    let mut all = SortList::new(alloc);
    for at in 0..locals.len() {
        let Some(local) = locals.get(at) else {
            return Ok(all);
        };
        let sort = sort_of_local(alloc, local)?;
        all.push(sort)?;
    }
    Ok(all)
}

/// What is declared and numbered where a text begins: the locals are its parameters.
pub fn starting(around: &Around<'_>, scope: Scope) -> Result<Standing, Memory>
    ensures { IfOk result (λ s. standing_of s ≡ starting (around_of around.now) scope) }
{
    let sorts = sorts_of(around.alloc, &scope.locals.meanings)?;
    let mut standing = Standing {
        scope,
        terms: Vec::new(around.alloc),
        sorts: SortList::new(around.alloc),
        next: 0,
    };
    put_sorts(around, &mut standing, &sorts)?;
    Ok(standing)
}

/// How many locals are visible.
pub fn count_of(scope: &Scope) -> usize
    ensures { result ≡ count scope.now }
{
    scope.locals.names.len()
}

/// How many locals are visible where something is declared and numbered.
pub fn visible(standing: &Standing) -> usize
    ensures { result ≡ count (standing_of standing.now).scope }
{
    standing.scope.locals.names.len()
}

/// The names of a text with so many parameters.
pub fn names_of(alloc: Global, standing: &Standing, parameters: usize) -> Result<Names, Memory>
    ensures { IfOk result (λ n. n ≡ names_of parameters (standing_of standing.now)) }
{
    let sorts = standing.sorts.copy(alloc)?;
    Ok(Names { sorts, parameters })
}

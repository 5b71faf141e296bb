//! Bodies of predicates.

ghost use Rattle.std.specs.Prelude.{◌≡◌, IfOk};
ghost use Rattle.vf_syntax.specs.AssertionTree.{part_list};
ghost use Rattle.vf_asserting.specs.Leaving.{count};
ghost use Rattle.vf_resolving.specs.Standings.{around_of};
ghost use Rattle.vf_resolving.specs.Assertions.{parts_resolved};
ghost use Rattle.vf_resolved_contracts.specs.Reading.{body_of, body_read, body_read_of, starting};
ghost use Rattle.vf_resolved_contracts.specs.Resolves.{IsBodyKnown, IsBodyResolved};

use crate::starts::{count_of, names_of, starting};
use crate::words::{result_symbol, this_symbol, thread_symbol};
use std::alloc::Global;
use vf_asserting::assertion_given;
use vf_base::{Memory, RuleFault, Text};
use vf_declared::scope::Scope;
use vf_resolved::contract::Body;
use vf_resolving::{Around, Standing, assertion_resolved};
use vf_sorting::Context;
use vf_sorts::Unknowns;
use vf_syntax::assertion::Assertion;

/// The body of a predicate, or an invariant, and what is declared and numbered behind it.
#[derive(Drop)]
pub struct BodyRead {
    pub body: Body,
    pub standing: Standing,
}

/// What is known of unknown sorts behind the body of a predicate, whose names are gone; or its refusal.
#[tactic(auto, using(crate::proofs::Steps::body_fails, crate::proofs::Steps::body_known))]
fn body_known(
    alloc: Global,
    scope: &mut Scope,
    context: &Context,
    body: &Assertion,
) -> Result<Unknowns, RuleFault>
    ensures { IsBodyKnown context.now body.now scope.old result scope.new }
{
    let count = scope.locals.names.len();
    let mut unknowns = Unknowns::new(alloc);
    assertion_given(alloc, scope, context, &mut unknowns, body)?;
    scope.locals.leave(count);
    Ok(unknowns)
}

/// The body of a predicate behind its parameters, with what stands around it.
fn assertion_read(around: &Around<'_>, scope: Scope, body: &Assertion) -> Result<BodyRead, Memory>
    ensures { IfOk result (λ x. body_read_of x ≡ body_of (count scope) (parts_resolved (around_of around.now) (starting (around_of around.now) scope) (part_list body.now))) }
{
    let parameters = count_of(&scope);
    let mut standing = starting(around, scope)?;
    let assertion = assertion_resolved(around, &mut standing, body)?;
    let names = names_of(around.alloc, &standing, parameters)?;
    Ok(BodyRead {
        body: Body { names, assertion },
        standing,
    })
}

/// The body of a predicate behind its parameters, with what is known of unknown sorts in the end.
fn body_read(
    alloc: Global,
    scope: Scope,
    unknowns: &Unknowns,
    paths: &[Text],
    context: &Context,
    body: &Assertion,
) -> Result<BodyRead, Memory>
    ensures { IfOk result (λ x. body_read_of x ≡ body_read context.now unknowns.now paths.now body.now scope) }
{
    let result = result_symbol(alloc, context);
    let this_value = this_symbol(alloc);
    let thread = thread_symbol(alloc);
    let around = Around {
        alloc,
        context,
        unknowns,
        paths,
        result: &result,
        this_value: &this_value,
        thread: &thread,
    };
    assertion_read(&around, scope, body)
}

/// The body of a predicate behind its parameters, which are the locals, with what stands around it. So is an invariant.
///
/// # Errors
///
/// Refused where its sorting refuses it.
#[tactic(auto, using(crate::proofs::Steps::memory_of_body, crate::proofs::Steps::body_stops, crate::proofs::Steps::body_resolves))]
pub fn body_resolved(
    alloc: Global,
    scope: Scope,
    paths: &[Text],
    context: &Context,
    body: &Assertion,
) -> Result<BodyRead, RuleFault>
    ensures { IsBodyResolved context.now paths.now body.now scope result }
{
    let mut around = scope;
    let unknowns = body_known(alloc, &mut around, context, body)?;
    let read = body_read(alloc, around, &unknowns, paths, context, body)?;
    Ok(read)
}

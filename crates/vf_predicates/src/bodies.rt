//! Bodies of predicates.

ghost use Rattle.std.specs.Prelude.{◌≡◌};
ghost use Rattle.vf_syntax.specs.AssertionTree.{part_list};
ghost use Rattle.vf_walk.specs.Walking.{Follows};
ghost use Rattle.vf_predicates.specs.Bodies.{BodyComes, around_body};

use std::alloc::Global;
use vf_asserting::assertion_given;
use vf_base::RuleFault;
use vf_declared::scope::Scope;
use vf_sorting::Context;
use vf_sorts::Unknowns;
use vf_syntax::assertion::Assertion;

/// What stands around a body.
fn around_body() -> Context
    ensures { result ≡ around_body }
{
    Context {
        result: None,
        has_this: false,
        has_thread: false,
        own: None,
    }
}

/// Goes over a body, behind which as many locals as a count says are left.
#[tactic(auto, using(crate::proofs::Coming::body_fails, crate::proofs::Coming::body_gives))]
pub fn body_given(
    alloc: Global,
    scope: &mut Scope,
    count: usize,
    body: &Assertion,
) -> Result<(), RuleFault>
    ensures { Follows (BodyComes count (part_list body.now) scope.old) result scope.new }
{
    let around = around_body();
    let mut unknowns = Unknowns::new(alloc);
    assertion_given(alloc, scope, &around, &mut unknowns, body)?;
    scope.locals.leave(count);
    Ok(())
}

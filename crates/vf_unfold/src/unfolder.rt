//! Who says what applications are unfolded to.

use std::alloc::Global;
use vf_base::Memory;
use vf_formula::Term;

/// Says what the definitions of a unit give to applications of fixpoints. What it gives to plain terms is
/// plain.
pub trait Unfolder {
    ghost use Rattle.std.specs.Prelude.{◌≡◌, Some, IfOk};
    ghost use Rattle.std.specs.Option.{option_copied};
    ghost use Rattle.vf_closure.specs.Terms as pure;
    ghost use Rattle.vf_closure.specs.Closure.{Unfoldings};
    ghost use Rattle.vf_question.specs.Plain.{IsPlain};

    // what it says
    ghost unfoldings: { Self → Unfoldings };

    /// The body of an application of a fixpoint without a switch, at its arguments.
    fn body(&self, alloc: Global, application: &Term) -> Result<Option<Term>, Memory>
        requires { IsPlain application.now }
        ensures is { IfOk result (λ o. o ≡ (unfoldings self.now).body application.now) }
        ensures plain { IfOk result (λ o. (b : pure.Term) → o ≡ Some b → IsPlain b) };

    /// The argument that an application of a fixpoint with a switch goes by.
    fn switched<'a>(&self, application: &'a Term) -> Option<&'a Term>
        ensures { option_copied result ≡ (unfoldings self.now).switched application.now };

    /// What an application of a fixpoint with a switch is unfolded to where the argument that it goes by
    /// is a term of a constructor.
    fn case(&self, alloc: Global, application: &Term, by: &Term) -> Result<Option<Term>, Memory>
        requires application { IsPlain application.now }
        requires by { IsPlain by.now }
        ensures is { IfOk result (λ o. o ≡ (unfoldings self.now).case application.now by.now) }
        ensures plain { IfOk result (λ o. (b : pure.Term) → o ≡ Some b → IsPlain b) };
}

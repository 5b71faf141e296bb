//! What annotations declare.

use vf_base::RuleFault;
use vf_declared::ctype::CType;
use vf_declared::scope::Scope;
use vf_syntax::contract::{Contract, Invariant};
use vf_syntax::ghost_command::GhostCommand;
use vf_syntax::item::GhostItem;

/// Whose contract one is: the file in which its name stands, what it gives, and whether it is a function type in place
/// of a function.
#[derive(Clone, Copy, Debug, PartialEq, Eq)]
pub struct Owner {
    pub file: u32,
    pub given: CType,
    pub is_type: bool,
}

/// Walks over annotations inside C text.
///
/// Each call leaves something declared that its meaning relates to what was declared before, or answers a refusal that
/// this relates to it.
pub trait Annotations {
    ghost use Rattle.vf_walk.specs.Meanings.{Meanings};
    ghost use Rattle.vf_walk.specs.Walking.{Follows};
    ghost use Rattle.std.specs.Prelude.{◌≡◌};

    // what annotations may leave declared behind them
    ghost meanings: { Self → Meanings };

    /// Whether a function with its body that has no contract takes that of its prototype.
    fn takes_contracts(&self) -> bool
        ensures { result ≡ (meanings self.now).takes };

    /// A contract, behind the parameters of its owner; what it leaves behind is visible in a body.
    fn contract(
        &self,
        scope: &mut Scope,
        owner: Owner,
        contract: &Contract,
    ) -> Result<(), RuleFault>
        ensures { Follows ((meanings self.now).contract owner contract.now scope.old) result scope.new };

    /// An invariant of a loop that stands in a file.
    fn invariant(
        &self,
        scope: &mut Scope,
        file: u32,
        invariant: &Invariant,
    ) -> Result<(), RuleFault>
        ensures { Follows ((meanings self.now).invariant file invariant.now scope.old) result scope.new };

    /// A ghost command.
    fn command(&self, scope: &mut Scope, command: &GhostCommand) -> Result<(), RuleFault>
        ensures { Follows ((meanings self.now).command command.now scope.old) result scope.new };

    /// A ghost item.
    fn item(&self, scope: &mut Scope, item: &GhostItem) -> Result<(), RuleFault>
        ensures { Follows ((meanings self.now).item item.now scope.old) result scope.new };
}

/// Annotations that declare nothing, as where the grammar without them was read.
#[derive(Clone, Copy, Debug)]
pub struct NoAnnotations;

impl Annotations for NoAnnotations {
    ghost use Rattle.vf_walk.specs.Meanings.{no_meanings};

    ghost meanings = { λ a. no_meanings };

    fn takes_contracts(&self) -> bool {
        false
    }

    #[tactic(auto, using(crate::proofs::Steps::stays))]
    fn contract(
        &self,
        _scope: &mut Scope,
        _owner: Owner,
        _contract: &Contract,
    ) -> Result<(), RuleFault> {
        Ok(())
    }

    #[tactic(auto, using(crate::proofs::Steps::stays))]
    fn invariant(
        &self,
        _scope: &mut Scope,
        _file: u32,
        _invariant: &Invariant,
    ) -> Result<(), RuleFault> {
        Ok(())
    }

    #[tactic(auto, using(crate::proofs::Steps::stays))]
    fn command(&self, _scope: &mut Scope, _command: &GhostCommand) -> Result<(), RuleFault> {
        Ok(())
    }

    #[tactic(auto, using(crate::proofs::Steps::stays))]
    fn item(&self, _scope: &mut Scope, _item: &GhostItem) -> Result<(), RuleFault> {
        Ok(())
    }
}

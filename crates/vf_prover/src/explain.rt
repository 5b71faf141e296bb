//! Who hands over refutations.

use vf_asking::Asker;
use vf_recheck::Refutation;

/// Hands over the refutation of the question that was answered last.
pub trait Explain: Asker {
    ghost use Rattle.std.specs.Prelude.{◌≡◌, length};
    ghost use Rattle.vf_asking.specs.Journal.{seen};
    ghost use Rattle.vf_prover.specs.Explained.{IsHandedOver};

    /// The refutation of the last question, to which the check says yes; none exactly where that question was not
    /// answered Proved, or its refutation was handed over before. It takes no memory and leaves the journal as it
    /// was.
    fn last(&mut self) -> Option<Refutation>
        ensures told { IsHandedOver (seen (Self.journal self.old)).entries (Self.handed self.old) result }
        ensures handed { Self.handed self.new ≡ length (seen (Self.journal self.old)).entries }
        ensures journal { Self.journal self.new ≡ Self.journal self.old }
        ensures origin { Self.origin self.new ≡ Self.origin self.old };
}

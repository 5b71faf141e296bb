//! Laws of the literals of truth values. Each function does nothing; its contract is the law.

ghost use Rattle.vf_truths.specs.Laws.{TruthLiteralsMeanIt};

/// Whatever is declared, where a term without its negations and the truth values that it is compared
/// with has a truth value, a valuation meets its literal exactly where it has the wanted truth value.
pub fn truth_literals_mean_it()
    ensures { TruthLiteralsMeanIt }
{}

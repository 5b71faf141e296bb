//! Laws of differences and quotients. Each function does nothing; its contract is the law.

ghost use Rattle.vf_fractions.specs.Laws.{DifferencesAddUp, QuotientsMultiplyBack};

/// What is taken off a fraction and what is left make the fraction.
pub fn differences_add_up()
    ensures { DifferencesAddUp }
{}

/// A fraction is the quotient of two just where the divisor times it is the other.
pub fn quotients_multiply_back()
    ensures { QuotientsMultiplyBack }
{}

//! Examples. Each function does nothing; its contract is the example.

ghost use Rattle.vf_rule_laws.specs.Example.{HalfIsTyped, OptionsAreCovered, ValuedRowIsSeen};

/// A function that halves a number: its states are typed, and only the divisor is asked.
pub fn half_is_typed()
    ensures { HalfIsTyped }
{}

/// A switch over an option covers it in a program of two units.
pub fn options_are_covered()
    ensures { OptionsAreCovered }
{}

/// A chunk of a predicate value that is known to be `ints` tells that its length is not negative.
pub fn valued_row_is_seen()
    ensures { ValuedRowIsSeen }
{}

//! A law about what is spelled. The function does nothing; its contract is the law.

ghost use Rattle.vf_grammar_read.specs.supported.Laws.{SpelledUnitsAreSupported};

/// No token of a spelled unit is refused by name.
pub fn spelled_units_are_supported()
    ensures { SpelledUnitsAreSupported }
{}

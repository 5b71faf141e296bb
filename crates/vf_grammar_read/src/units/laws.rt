//! Laws of the parsers on lists. Each function does nothing; its contract is the law.

ghost use Rattle.vf_grammar_read.specs.units.Laws.{ItemsAreRead, PlainUnitsAreRead, PlainUnitsHaveOneReading, SpelledUnitsAreAnswered, UnitsAreRead};

/// An item that tokens spell is read from them.
pub fn items_are_read()
    ensures { ItemsAreRead }
{}

/// A unit that tokens spell is read from them.
pub fn units_are_read()
    ensures { UnitsAreRead }
{}

/// A unit without annotations that tokens spell is read from them.
pub fn plain_units_are_read()
    ensures { PlainUnitsAreRead }
{}

/// Two units without annotations that the same tokens spell have the same items.
pub fn plain_units_have_one_reading()
    ensures { PlainUnitsHaveOneReading }
{}

/// Where tokens spell a unit without annotations within 128 levels, the parser's answer is its items, unless
/// memory ran out.
pub fn spelled_units_are_answered()
    ensures { SpelledUnitsAreAnswered }
{}

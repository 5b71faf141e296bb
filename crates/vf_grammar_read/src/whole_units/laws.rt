//! Laws of the parser of the whole language. Each function does nothing; its contract is the law.

ghost use Rattle.vf_grammar_read.specs.whole_units.Laws.{AnnotationsAreRead, PlainUnitsAreAnswered, SpelledUnitsAreAnswered, UnitsAreRead, UnitsHaveOneReading};

/// Whatever annotations hold and tokens spell is read from them.
pub fn annotations_are_read()
    ensures { AnnotationsAreRead }
{}

/// A unit that tokens spell is read from them.
pub fn units_are_read()
    ensures { UnitsAreRead }
{}

/// Two units that the same tokens spell have the same items.
pub fn units_have_one_reading()
    ensures { UnitsHaveOneReading }
{}

/// Where tokens spell a unit within 128 levels, the parser's answer is its items, unless memory ran out.
pub fn spelled_units_are_answered()
    ensures { SpelledUnitsAreAnswered }
{}

/// The same of the parser of real text alone.
pub fn plain_units_are_answered()
    ensures { PlainUnitsAreAnswered }
{}

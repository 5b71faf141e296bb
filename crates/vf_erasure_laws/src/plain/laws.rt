//! Laws about units without their annotations. Each function does nothing; its contract is the law.

ghost use Rattle.vf_erasure_laws.specs.plain.Laws.{WholesArePlain, PlainUnitsStay, PlainReadingsAreStripped, PlainAnswersAreStripped};

/// A unit without its annotations is spelled by the tokens of real text.
pub fn wholes_are_plain()
    ensures { WholesArePlain }
{}

/// A unit without annotations stays as it is where annotations are left out.
pub fn plain_units_stay()
    ensures { PlainUnitsStay }
{}

/// Where tokens are read as items, those of real text are read as the same items without their annotations.
pub fn plain_readings_are_stripped()
    ensures { PlainReadingsAreStripped }
{}

/// Where the parser of the whole language answers with a unit, the parser of real text alone answers with that unit
/// without its annotations, unless memory ran out.
pub fn plain_answers_are_stripped()
    ensures { PlainAnswersAreStripped }
{}

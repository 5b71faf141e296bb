//! Laws of the answers of `parse_ghost`. Each function does nothing; its contract is the law.

ghost use Rattle.vf_part.specs.Laws.{PartsAreTaken, SpelledPartsAreAnswered, RefusedPartsDoNotBegin, PartsAreSupported, TooDeepPartsGoOn};

/// A part that is answered is spelled by the tokens from the first index up to the one that is answered.
pub fn parts_are_taken()
    ensures { PartsAreTaken }
{}

/// Where tokens spell a part within 128 levels, the answer is that part and the index behind it, unless memory ran
/// out.
pub fn spelled_parts_are_answered()
    ensures { SpelledPartsAreAnswered }
{}

/// Where a place is refused, no part of the kind begins with the tokens up to there.
pub fn refused_parts_do_not_begin()
    ensures { RefusedPartsDoNotBegin }
{}

/// No token is refused by name.
pub fn parts_are_supported()
    ensures { PartsAreSupported }
{}

/// Where a place is answered as too deep, a part in which two more may nest is read past it.
pub fn too_deep_parts_go_on()
    ensures { TooDeepPartsGoOn }
{}

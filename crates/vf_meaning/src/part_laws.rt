//! Laws of parts of memory. Each function does nothing; its contract is the law.

ghost use Rattle.vf_meaning.specs.PartLaws.{TellsLocations, TellsContents, PartsAdd, SumsTurn, SumsRegroup, NothingIsNeutral, SumsAreConsistent, SinglesHaveJustThat, SinglesAdd, FittingIsConsistent, FittingIsAtMostWhole, WholeIsAlone, NothingFitsEmpty};

/// Two locations are one where the test on them says so.
pub fn tells_locations()
    ensures { TellsLocations }
{}

/// Two contents are one where the test on them says so.
pub fn tells_contents()
    ensures { TellsContents }
{}

/// Adding parts is the same from both sides and however it is grouped, and nothing adds nothing.
pub fn parts_add()
    ensures { PartsAdd }
{}

/// A sum is one from both sides.
pub fn sums_turn()
    ensures { SumsTurn }
{}

/// A sum of three parts can be grouped the other way.
pub fn sums_regroup()
    ensures { SumsRegroup }
{}

/// Every part is the sum of nothing and itself.
pub fn nothing_is_neutral()
    ensures { NothingIsNeutral }
{}

/// A sum of parts that have one content at each location has one.
pub fn sums_are_consistent()
    ensures { SumsAreConsistent }
{}

/// A part of one location has just that location, with one content.
pub fn singles_have_just_that()
    ensures { SinglesHaveJustThat }
{}

/// Two fractions of one location with one content add to the sum of both.
pub fn singles_add()
    ensures { SinglesAdd }
{}

/// A part that fits has one content at each location.
pub fn fitting_is_consistent()
    ensures { FittingIsConsistent }
{}

/// No more than the whole of a location is owned in a part that fits.
pub fn fitting_is_at_most_whole()
    ensures { FittingIsAtMostWhole }
{}

/// Who owns the whole of a location owns it alone.
pub fn whole_is_alone()
    ensures { WholeIsAlone }
{}

/// Nothing is all of the empty memory.
pub fn nothing_fits_empty()
    ensures { NothingFitsEmpty }
{}

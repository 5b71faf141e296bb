//! Laws of sums over lists of parts, and of share-outs. Each function does nothing; its contract is the law.

ghost use Rattle.vf_meaning.specs.ShareOutLaws.{SumsOpen, SumsClose, MembersAreApart, ShareOutsExcludeRaces};

/// A sum over a list of parts opens at any of them.
pub fn sums_open()
    ensures { SumsOpen }
{}

/// A part joins a sum over others, wherever it stands in their list.
pub fn sums_close()
    ensures { SumsClose }
{}

/// Two members of a list are owned apart in a sum over it.
pub fn members_are_apart()
    ensures { MembersAreApart }
{}

/// A state that has a share-out has no race.
pub fn share_outs_exclude_races()
    ensures { ShareOutsExcludeRaces }
{}

//! The laws: each is the contract of a public function with an empty body.

ghost use Rattle.vf_header_laws.specs.ghost_names.Example.{OneGhostHeaderOfTwoUnits};
ghost use Rattle.vf_header_laws.specs.ghost_names.Items.{FormsInsideShowTheSame, GhostsElsewhereAreUnseen};
ghost use Rattle.vf_header_laws.specs.ghost_names.Later.{LaterPredicatesAgree, PredicatesAreForeseen, PredicatesStayForeseen};
ghost use Rattle.vf_header_laws.specs.ghost_names.LaterExample.{OneLaterPredicateOfTwoUnits, RefusedUnitsForeseeOtherSorts};
ghost use Rattle.vf_header_laws.specs.ghost_names.LaterSorts.{LaterSortsAgree, SortsAreForeseen, SortsStayForeseen};
ghost use Rattle.vf_header_laws.specs.ghost_names.Own.{HeadersSeeTheirOwnGhosts};
ghost use Rattle.vf_header_laws.specs.ghost_names.Units.{HeadersMeanTheSameGhosts, UnitsShowTheSameGhosts};

/// What a header sees of annotations stands in one of the files of which it consists.
#[tactic(auto, using(crate::proofs::ghost_names::Own::headers_see_their_own_ghosts))]
pub fn headers_see_their_own_ghosts()
    ensures { HeadersSeeTheirOwnGhosts }
{}

/// An item whose names of annotations stand elsewhere, as of each item of C, changes nothing that a header sees of them.
pub fn ghosts_elsewhere_are_unseen()
    ensures { GhostsElsewhereAreUnseen }
{}

/// Where a header shows the same names of annotations in two units, it shows the same behind a form of annotations that
/// stands in it.
#[tactic(auto, using(crate::proofs::ghost_names::Inside::forms_inside_show_the_same))]
pub fn forms_inside_show_the_same()
    ensures { FormsInsideShowTheSame }
{}

/// Names of annotations mean the same in a header in every unit in which the same items of annotations stand in it.
#[tactic(auto, using(crate::proofs::ghost_names::Units::headers_mean_the_same_ghosts))]
pub fn headers_mean_the_same_ghosts()
    ensures { HeadersMeanTheSameGhosts }
{}

/// A header shows the same names of annotations in two whole units in which the same items of annotations stand in it.
#[tactic(auto, using(crate::proofs::ghost_names::Units::units_show_the_same_ghosts))]
pub fn units_show_the_same_ghosts()
    ensures { UnitsShowTheSameGhosts }
{}

/// One header shows the same names of annotations in two units in which its datatype and its predicate have two numbers.
#[tactic(auto, using(crate::proofs::ghost_names::Example::one_ghost_header_of_two_units))]
pub fn one_ghost_header_of_two_units()
    ensures { OneGhostHeaderOfTwoUnits }
{}

/// A header in which the same items of annotations stand in two units foresees the same predicates in both.
#[tactic(auto, using(crate::proofs::ghost_names::Later::predicates_are_foreseen))]
pub fn predicates_are_foreseen()
    ensures { PredicatesAreForeseen }
{}

/// It foresees the same predicates behind any items that are accepted.
#[tactic(auto, using(crate::proofs::ghost_names::Later::predicates_stay_foreseen))]
pub fn predicates_stay_foreseen()
    ensures { PredicatesStayForeseen }
{}

/// Where a header foresees the same predicates in two units, a name that is declared so far in both or in neither is that
/// of a predicate that stands later in both or in neither.
#[tactic(auto, using(crate::proofs::ghost_names::Later::later_predicates_agree))]
pub fn later_predicates_agree()
    ensures { LaterPredicatesAgree }
{}

/// A header in which the same items of annotations stand in two units that are accepted foresees predicates over the same
/// sorts in both.
#[tactic(auto, using(crate::proofs::ghost_names::LaterSorts::sorts_are_foreseen))]
pub fn sorts_are_foreseen()
    ensures { SortsAreForeseen }
{}

/// It foresees predicates over the same sorts behind any items that are accepted.
#[tactic(auto, using(crate::proofs::ghost_names::LaterSorts::sorts_stay_foreseen))]
pub fn sorts_stay_foreseen()
    ensures { SortsStayForeseen }
{}

/// Where a header foresees predicates over the same sorts in two units, a name that is declared so far in both or in
/// neither is that of a predicate that stands later in both, over the same sorts, or in neither.
#[tactic(auto, using(crate::proofs::ghost_names::LaterSorts::later_sorts_agree))]
pub fn later_sorts_agree()
    ensures { LaterSortsAgree }
{}

/// A predicate that stands later in one header of two units is over the same sorts, though its datatype has two numbers.
#[tactic(auto, using(crate::proofs::ghost_names::LaterExample::one_later_predicate_of_two_units))]
pub fn one_later_predicate_of_two_units()
    ensures { OneLaterPredicateOfTwoUnits }
{}

/// Where one of two units is refused, a header may foresee a predicate over other sorts in it than in the other.
#[tactic(auto, using(crate::proofs::ghost_names::LaterExample::refused_units_foresee_other_sorts))]
pub fn refused_units_foresee_other_sorts()
    ensures { RefusedUnitsForeseeOtherSorts }
{}

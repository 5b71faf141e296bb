//! A header means the same in every unit.
//!
//! A name that stands in a header means a declaration in that header or in one that it includes. `specs/c_names/Parts.antt` has
//! what of a unit that is, and `specs/c_names/Lookups.antt` that a header sees this part alone. `specs/c_names/Same.antt` has when a header
//! shows the same in two units, and `specs/c_names/Types.antt` that types which are written in it are then the same;
//! `specs/c_names/Items.antt`, `specs/c_names/Units.antt` and `specs/c_names/Clashes.antt` go on to items and whole units, and
//! `specs/c_names/Example.antt` has two units. Each law is the contract of a public function with an empty body.
//!
//! In `specs/`: of which files a header consists and what of a unit stands in them, when a type of one unit is a type
//! of another, when a header shows the same in two units, and where an item stands. Laws: `headers_see_their_own` and
//! `lookups_are_in_the_part` (what is looked up from a header stands in its files, and nothing else has a part in
//! it); `parts_show_the_same`; `written_types_are_one` (a type that is written in a header is one type in two units
//! in which the header shows the same, or is refused in both); `items_elsewhere_are_unseen` (an item of C that stands
//! elsewhere changes nothing that a header sees); `items_inside_show_the_same`, `headers_mean_the_same` and
//! `units_show_the_same` (a header in which the same items of C stand shows the same in two units that are accepted);
//! `items_inside_clash_alone` (an item of C of a header that one unit accepts is refused in another by the rule of
//! names alone); `one_header_of_two_units` is an example in which numbers differ. What annotations declare is all the
//! same here.

ghost use Rattle.vf_header_laws.specs.c_names.Items.{HeadersMeanTheSame, ItemsElsewhereAreUnseen, ItemsInsideShowTheSame};
ghost use Rattle.vf_header_laws.specs.c_names.Lookups.{HeadersSeeTheirOwn, LookupsAreInThePart};
ghost use Rattle.vf_header_laws.specs.c_names.Clashes.{ItemsInsideClashAlone};
ghost use Rattle.vf_header_laws.specs.c_names.Example.{OneHeaderOfTwoUnits};
ghost use Rattle.vf_header_laws.specs.c_names.Same.{PartsShowTheSame};
ghost use Rattle.vf_header_laws.specs.c_names.Types.{WrittenTypesAreOne};
ghost use Rattle.vf_header_laws.specs.c_names.Units.{UnitsShowTheSame};

/// What means something in a header stands in one of the files of which the header consists.
#[tactic(auto, using(crate::proofs::c_names::Lookups::headers_see_their_own))]
pub fn headers_see_their_own()
    ensures { HeadersSeeTheirOwn }
{}

/// What is looked up from a header is looked up in the part of the unit that stands in its files.
#[tactic(auto, using(crate::proofs::c_names::Lookups::lookups_are_in_the_part))]
pub fn lookups_are_in_the_part()
    ensures { LookupsAreInThePart }
{}

/// A header shows the same in two units just where it does so in the parts of them that stand in its files.
pub fn parts_show_the_same()
    ensures { PartsShowTheSame }
{}

/// Where a header shows the same in two units, a type that is written in it is the same type in both.
#[tactic(auto, using(crate::proofs::c_names::Types::written_types_are_one))]
pub fn written_types_are_one()
    ensures { WrittenTypesAreOne }
{}

/// An item of C that stands elsewhere changes nothing that a header sees.
pub fn items_elsewhere_are_unseen()
    ensures { ItemsElsewhereAreUnseen }
{}

/// Where a header shows the same in two units, it shows the same behind an item of C that stands in it.
pub fn items_inside_show_the_same()
    ensures { ItemsInsideShowTheSame }
{}

/// An item of C of a header that one unit accepts is refused in another for a name alone.
pub fn items_inside_clash_alone()
    ensures { ItemsInsideClashAlone }
{}

/// A header means the same in every unit in which the same items of C stand in it.
pub fn headers_mean_the_same()
    ensures { HeadersMeanTheSame }
{}

/// A header shows the same in two whole units in which the same items of C stand in it.
pub fn units_show_the_same()
    ensures { UnitsShowTheSame }
{}

/// One header shows the same in two units in which its struct has two numbers.
pub fn one_header_of_two_units()
    ensures { OneHeaderOfTwoUnits }
{}

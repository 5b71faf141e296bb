//! What names of annotations mean in a header is the same in every unit.
//!
//! A name of annotations that stands in a header means what is declared in that header or in one that it includes.
//! `specs/ghost_names/Same.antt` has when a header shows the same names of annotations in two units: the numbers by which the units
//! know datatypes, constructors, fixpoints, predicates and lemmas may differ. `specs/ghost_names/Own.antt` has that a header sees its
//! own files alone; `specs/ghost_names/Items.antt` and `specs/ghost_names/Units.antt` go on to items and whole units, and `specs/ghost_names/Later.antt` to
//! predicates that stand later in a unit, with their sorts in `specs/ghost_names/LaterSorts.antt`.
//!
//! In `specs/`: what a name means of annotations in a file, when a sort, a declaration and all names of annotations
//! of a header are the same in two units, where an item of annotations stands, and when a header foresees the same
//! predicates over the same sorts. Laws: `headers_see_their_own_ghosts` (what a header sees of annotations stands in
//! its files); `ghosts_elsewhere_are_unseen` (an item of C, and an item of annotations that declares its names
//! elsewhere, changes nothing that a header sees of annotations); `forms_inside_show_the_same`,
//! `headers_mean_the_same_ghosts` and `units_show_the_same_ghosts` (a header in which the same items of annotations
//! stand shows the same datatypes, constructors, fixpoints, predicates, families, predicate constructors and lemmas
//! in two units that are accepted); `one_ghost_header_of_two_units` is an example in which numbers differ;
//! `predicates_are_foreseen`, `predicates_stay_foreseen` and `later_predicates_agree` (from such a header, of the
//! names that are declared so far in both units or in neither, the same are those of predicates that stand later);
//! `sorts_are_foreseen`, `sorts_stay_foreseen` and `later_sorts_agree` (and in units that are accepted these are told
//! over sorts that mean the same behind all items, as far as each predicate is declared over the sorts that are told
//! of it); `one_later_predicate_of_two_units` is an example in which the datatype of such a predicate has two
//! numbers, and `refused_units_foresee_other_sorts` two units, one of them refused, in which a predicate of one
//! header is told over a datatype and over any value.

pub mod laws;

//! What a unit declares are the names of its items: each once, in the order of their first declarations, so that the
//! number of a name tells it from all others, and each name has a first item that declares it. Each law is the contract
//! of a public function with an empty body.
//!
//! In `specs/`: the names that items declare, each once, and when a list begins with the first item that declares a
//! name. Laws `names_are_declared` (an accepted unit declares the names and the tags of its items, each once, in the
//! order of their first declarations), `names_stand_once` (where a name stands is its number), `only_names_of_items`
//! (a name is among them just where an item declares it), `trees_stand_beside_names` (where an accepted unit is
//! described, there is one list for each name and tag, beside it: that of the items that declare it),
//! `each_name_has_trees` (no such list is empty, and each begins with the first item that declares its name).
#![tactic(auto)]

ghost use Rattle.vf_env_laws.specs.Laws.{EachNameHasTrees, NamesAreDeclared, NamesStandOnce, OnlyNamesOfItems, TreesStandBesideNames};

/// The names and tags that an accepted unit declares are those of its items, each once.
pub fn names_are_declared()
    ensures { NamesAreDeclared }
{}

/// Each name of items has its place for a number.
pub fn names_stand_once()
    ensures { NamesStandOnce }
{}

/// A name is among those of items just where an item declares it.
pub fn only_names_of_items()
    ensures { OnlyNamesOfItems }
{}

/// Each name and each tag that an accepted unit declares has its trees, of which the first is the first declaration.
pub fn each_name_has_trees()
    ensures { EachNameHasTrees }
{}

/// Beside each name and each tag that an accepted unit declares stands one list, that of the items that declare it.
pub fn trees_stand_beside_names()
    ensures { TreesStandBesideNames }
{}

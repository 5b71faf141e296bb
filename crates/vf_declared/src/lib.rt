//! What is declared at a place of a unit: types of C, what names and tags mean, and from which files they are seen.
//!
//! A [`Scope`] is what a walk of the unit's text keeps. Its look-ups take logarithmic time in the number of names, and
//! no memory.
//!
//! `Scope`'s look-ups (`local`, `declaration`, `is_later_predicate`, `tag`, `has_fields`, `field`, `signature`,
//! `function_type`) give what its definition says, in logarithmic time in the number of names and without memory; a
//! declaration is seen from the unit's own file, from its own files, and from each that includes one of them,
//! directly or through others. `Scope::new` is a unit in which nothing is declared. `declare_ghost`,
//! `declare_ghost_prototype`, `declare_ghost_body` and `declare_instance` keep what annotations declare, and beside
//! it what a predicate, a lemma or a family is declared with so far. Locals are a stack: `Locals::declare` puts one
//! on it, `leave` keeps the first ones, `remove` takes one out from between, `copy` gives the same again. What is
//! declared at file level is added by `declare_name`, `declare_name_again`, `declare_struct`, `declare_struct_again`,
//! `declare_fields`, `declare_function`, `declare_prototype` and `declare_body`, each with its exact effect on the
//! scope (`specs/Writing`).
#![tactic(auto)]

pub mod ctype;
pub mod declaration;
pub mod locals;
pub mod lookup;
pub mod scope;
pub mod stack;
pub mod writing;

//! What is told of a body so far.

ghost use Rattle.std.specs.Prelude.{◌≡◌, OnOk};
ghost use Rattle.vf_resolved_bodies.specs.Telling.{leaving, telling_of, with_real, without_real};

use crate::annotation::Annotation;
use std::alloc::Global;
use vf_base::{Memory, Sequence};
use vf_declared::ctype::CType;
use vf_declared::locals::Local;
use vf_resolving::Standing;
use vf_resolving::standing::{leave, put_name};
use vf_sorting::names::sort_of_type;
use vf_syntax::written::Name;

/// The annotations of a body so far, and what is declared and numbered behind them.
#[derive(Drop)]
pub struct Telling {
    /// What is declared and numbered. The locals of C are names too.
    pub standing: Standing,
    /// The numbers of the names that are locals of C, in the order in which these are declared.
    pub reals: Sequence<usize>,
    /// The annotations, in the order of the text.
    pub told: Sequence<Annotation>,
}

/// Declares a local of C of a type, which is one name more.
pub fn put_real(
    alloc: Global,
    telling: &mut Telling,
    name: &Name,
    ctype: CType,
) -> Result<(), Memory>
    ensures { OnOk result (telling_of telling.new ≡ with_real name.now.text ctype (telling_of telling.old)) }
{
    let standing = &mut telling.standing;
    standing.scope.locals.names.push(name.text.as_bytes())?;
    standing.scope.locals.meanings.push(Local::Real(ctype))?;
    telling.reals.push(standing.sorts.len())?;
    put_name(alloc, standing, sort_of_type(alloc, ctype))?;
    Ok(())
}

/// Keeps the first locals, as many as a count says; the others keep their numbers.
pub fn leave_from(telling: &mut Telling, count: usize)
    ensures { telling_of telling.new ≡ leaving count (telling_of telling.old) }
{
    leave(&mut telling.standing, count);
}

/// Takes the local at an index away, which keeps its number; those declared behind it stay.
pub fn take_away(telling: &mut Telling, at: usize) -> Result<(), Memory>
    ensures { OnOk result (telling_of telling.new ≡ without_real at (telling_of telling.old)) }
{
    telling.standing.scope.locals.remove(at)?;
    if at < telling.standing.terms.len() {
        let _term = telling.standing.terms.remove(at);
    }
    Ok(())
}

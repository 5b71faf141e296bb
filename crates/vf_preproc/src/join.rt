//! What a header leaves to its includer.

ghost use Rattle.std.specs.Prelude.{◌≡◌, ◌&&◌, not, fold, drop, is_some, length, map, IfOk, IfSome, OnOk, IsTrue};
ghost use Rattle.std.specs.List.{list_any};
ghost use Rattle.vf_names.specs.Names.{put};
ghost use Rattle.vf_preproc.specs.Macros.{body_of};
ghost use Rattle.vf_preproc.specs.UnitText.{joined, clashes, with_header};
ghost use Rattle.vf_preproc.specs.Kept.{table_of};
ghost use Rattle.vf_preproc.specs.Scopes.{header_of, scope_of};
ghost use Rattle.vf_preproc.specs.Answers.{Gives};
ghost use Rattle.vf_preproc.specs.Joins.{AreApart, IsEven, IsJoined, is_foreign, serves};

use crate::fault::ExpandFault;
use crate::macros::Macros;
use crate::name_table::NameTable;
use crate::scope::{Header, Scope, define_as};
use std::rc::Rc;
use vf_base::Place;

/// Whether a name of a header is a macro of its includer and none of its own.
///
/// Of the includer's macros the first ones, so many of them, are known to be none.
fn clashes(known: usize, names: &NameTable, macros: &Macros, header: &Header) -> bool
    requires { AreApart known names.now (table_of macros.now) (header_of header.now) }
    ensures { result ≡ clashes names.now (table_of macros.now) (header_of header.now) }
{
    let defined = macros.names.as_slice();
    for at in known..defined.len() {
        if is_foreign(names, header, defined[at].as_bytes()) {
            return true;
        }
    }
    false
}

/// Whether a name would clash with a header as a macro of its includer.
fn is_foreign(names: &NameTable, header: &Header, name: &[u8]) -> bool
    ensures { result ≡ is_foreign names.now (header_of header.now) name.now }
{
    names.stands(name, &header.files) && !header.macros.has(name)
}

/// Puts the macros of a header to those of its includer.
fn join_macros(hash: Place, macros: &mut Macros, others: &Macros) -> Result<(), ExpandFault>
    ensures { Gives (λ _. table_of macros.new) result (joined hash (table_of macros.old) others.now.names (table_of others.now).bodies) }
{
    for (at, name) in others.names.as_slice().iter().enumerate() {
        let Some(body) = others.bodies.get(at) else {
            return Ok(());
        };
        define_as(macros, hash, name.as_bytes(), body.clone()?)?;
    }
    Ok(())
}

/// What is remembered of a header that a file has joined.
#[derive(Clone, Copy, Debug)]
pub struct Join {
    /// How many macros the file had then.
    pub known: usize,
    /// Whether its include was ghost text, so that its macros are not the file's.
    pub is_ghost: bool,
}

/// Whether what is remembered of a header's include serves for a further one.
fn serves(join: Join, is_ghost: bool) -> bool
    ensures { result ≡ serves join is_ghost }
{
    is_ghost || !join.is_ghost
}

/// Goes on behind a further include of a header that a file has joined, which changes nothing.
///
/// Only the macros that were defined since are looked at.
fn join_again(
    is_ghost: bool,
    hash: Place,
    join: Join,
    names: &NameTable,
    header: &Header,
    scope: &Scope,
) -> Result<(), ExpandFault>
    requires joined { IsJoined join names.now (header_of header.now) (scope_of scope.now) }
    requires serves { IsTrue (serves join is_ghost) }
    ensures { Gives (λ _. scope_of scope.now) result (with_header is_ghost hash names.now (header_of header.now) (scope_of scope.now)) }
{
    if clashes(join.known, names, &scope.macros, header) {
        return Err(ExpandFault::directive(hash));
    }
    Ok(())
}

/// Goes on behind the include of a header, by the names that stand in each file.
pub fn with_header(
    is_ghost: bool,
    hash: Place,
    names: &NameTable,
    header: &Header,
    scope: &mut Scope,
) -> Result<(), ExpandFault>
    ensures { Gives (λ _. scope_of scope.new) result (with_header is_ghost hash names.now (header_of header.now) (scope_of scope.old)) }
{
    if clashes(0, names, &scope.macros, header) {
        return Err(ExpandFault::directive(hash));
    }
    if !is_ghost {
        join_macros(hash, &mut scope.macros, &header.macros)?;
    }
    scope.files.join(&header.files)?;
    Ok(())
}

/// Goes on behind the include of a header, by the names that stand in each file. It may be known how the header
/// has joined the file before; then only the macros that were defined since are looked at. Gives what is to be remembered of it.
///
/// # Errors
///
/// Refused by rule 3 at the include where a name of the header is a macro of the file and none of its own,
/// or where both define a macro differently.
pub fn join_header(
    is_ghost: bool,
    hash: Place,
    names: &NameTable,
    header: &Header,
    scope: &mut Scope,
    known: Option<Join>,
) -> Result<Join, ExpandFault>
    requires even { IsEven (table_of scope.old.macros) }
    requires joined { IfSome known (λ join. IsJoined join names.now (header_of header.now) (scope_of scope.old)) }
    ensures exact { Gives (λ _. scope_of scope.new) result (with_header is_ghost hash names.now (header_of header.now) (scope_of scope.old)) }
    ensures joined { IfOk result (λ join. IsJoined join names.now (header_of header.now) (scope_of scope.new)) }
    ensures all { IfOk result (λ join. join.known ≡ length scope.new.macros.names) }
{
    if let Some(join) = known {
        if serves(join, is_ghost) {
            join_again(is_ghost, hash, join, names, header, scope)?;
            return Ok(Join {
                known: scope.macros.names.len(),
                is_ghost: join.is_ghost,
            });
        }
    }
    with_header(is_ghost, hash, names, header, scope)?;
    Ok(Join {
        known: scope.macros.names.len(),
        is_ghost,
    })
}

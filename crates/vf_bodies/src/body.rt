//! Whole bodies.

ghost use Rattle.std.specs.Prelude.{◌≡◌, OnOk};
ghost use Rattle.vf_syntax.specs.StmtTree.{stmt_list};
ghost use Rattle.vf_lower.specs.Did.{Does};
ghost use Rattle.vf_lower.specs.Statements.{body};
ghost use Rattle.vf_bodies.specs.Standing.{standing_of};

use crate::declaration::lower_end;
use crate::statement::lower_block;
use crate::surroundings::Surroundings;
use vf_base::{Memory, Place};
use vf_declared::ctype::CType;
use vf_lower::Draft;
use vf_syntax::stmt::StmtList;

/// Adds to a draft what the body of a function becomes that gives a type, and is or is not `main`; the place is that of
/// the closing brace. Behind it what is declared is as before.
///
/// A function that gives nothing returns at the end of its body, and `main` gives 0 there (C11 5.1.2.2.3).
pub fn lower_body<'a>(
    around: &mut Surroundings,
    draft: &mut Draft<'a>,
    given: CType,
    is_main: bool,
    items: &'a StmtList,
    last: Place,
) -> Result<(), Memory>
    ensures kept { OnOk result (standing_of around.new ≡ standing_of around.old) }
    ensures done { Does (λ u. tt) (body (standing_of around.old) given is_main (stmt_list items.now) last) draft.old draft.new result }
{
    lower_block(around, draft, given, items)?;
    lower_end(draft, given, is_main, last)?;
    Ok(())
}

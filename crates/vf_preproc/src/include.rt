//! Files, and the headers that they include.

ghost use Rattle.std.specs.Prelude.{◌≡◌, IfOk};
ghost use Rattle.vf_preproc.specs.Answers.{Gives};
ghost use Rattle.vf_preproc.specs.Scopes.{header_of, scope_of};
ghost use Rattle.vf_preproc.specs.UnitText.{Unit_so_far, closed, unread};

use crate::fault::ExpandFault;
use crate::files::FileList;
use crate::macros::Macros;
use crate::scope::{Header, Scope};
use std::alloc::Global;
use vf_base::Memory;

/// The beginning of the file with a number among those that were begun.
pub fn opened(alloc: Global, number: usize) -> Result<Scope, Memory>
    ensures { IfOk result (λ scope. scope_of scope ≡ unread number) }
{
    Ok(Scope {
        macros: Macros::new(alloc),
        groups: Vec::new(alloc),
        files: FileList::of(alloc, number)?,
    })
}

/// The end of a file.
pub fn closed(scope: Scope) -> Result<Header, ExpandFault>
    ensures { (unit : Unit_so_far) → Gives (λ header. (unit, header_of header)) result (closed unit (scope_of scope) (scope_of scope).groups) }
{
    if !scope.groups.is_empty() {
        let first = scope.groups[0];
        return Err(ExpandFault::directive(first.opened));
    }
    Ok(Header {
        macros: scope.macros,
        files: scope.files,
    })
}

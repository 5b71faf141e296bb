//! Declaring what annotations declare.

ghost use Rattle.std.specs.Prelude.{◌≡◌, OnOk};
ghost use Rattle.vf_datatypes.specs.Datatypes.{with_next};

use std::alloc::Global;
use vf_base::Memory;
use vf_declared::declaration::Meaning;
use vf_declared::scope::Scope;
use vf_syntax::written::Name;

/// Declares a name by the next number, in front of what it is.
pub fn declare_next(alloc: Global, scope: &mut Scope, name: &Name) -> Result<(), Memory>
    ensures { OnOk result (scope.new ≡ with_next scope.old name.now) }
{
    let meaning = Meaning::Ghost(scope.ghosts.len());
    scope.declare_name(alloc, name.text.as_bytes(), meaning, name.place.file)
}

//! Programs.

ghost use Rattle.std.specs.Prelude.{◌≡◌, IfOk, IsOk};
ghost use Rattle.vf_tree.specs.Shown.{program_of};
ghost use Rattle.vf_machine.specs.Machine.{tree_of};

use vf_base::Memory;
use vf_tree::Plain;

/// A program that can be run: the functions of all its units.
#[derive(Debug, Drop)]
pub struct Program {
    pub(crate) plain: Plain,
}

/// The program of one unit. It takes no memory.
pub fn assemble_one(plain: Plain) -> Result<Program, Memory>
    ensures program { IfOk result (λ p. tree_of p ≡ program_of plain) }
    ensures always { IsOk result }
{
    Ok(Program { plain })
}

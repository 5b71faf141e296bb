//! The units of files that were read.

ghost use Rattle.std.specs.Prelude.{◌≡◌, ◌∷◌, ◌++◌, ◌||◌, [], map, IfOk, OnOk};
ghost use Rattle.vf_program.specs.Units.{unit_of};
ghost use Rattle.vf_module.specs.Readings.{result_of};
ghost use Rattle.vf_try.specs.Files.{file_of, is_any_refused, is_refusal, manifests_in, plains_in};

use crate::files::FileRead;
use std::alloc::Global;
use vf_base::Memory;
use vf_manifest::Manifest;
use vf_module::{ReadUnit, Reading};
use vf_program::PlainUnit;

/// The plain units and the manifests of the files that are not refused, in order, and whether one of the files is refused.
#[derive(Drop)]
pub struct Units {
    pub plains: Vec<PlainUnit>,
    pub manifests: Vec<Manifest>,
    pub is_any_refused: bool,
}

/// Adds what came of reading a file.
fn add(units: &mut Units, file: FileRead) -> Result<(), Memory>
    ensures plains { OnOk result (map unit_of units.new.plains.items ≡ map unit_of units.old.plains.items ++ plains_in (file_of file ∷ [])) }
    ensures manifests { OnOk result (units.new.manifests.items ≡ units.old.manifests.items ++ manifests_in (file_of file ∷ [])) }
    ensures refused { OnOk result (units.new.is_any_refused ≡ (units.old.is_any_refused || is_refusal (result_of file.reading))) }
{
    let FileRead { path, reading } = file;
    drop(path);
    match reading {
        Reading::Read(read) => {
            let ReadUnit { plain, manifest } = read;
            units.plains.push(plain)?;
            units.manifests.push(manifest)?;
        }
        Reading::Refused(_) => units.is_any_refused = true,
    }
    Ok(())
}

/// The units of files.
pub fn units_of(alloc: Global, files: Vec<FileRead>) -> Result<Units, Memory>
    ensures plains { IfOk result (λ u. map unit_of u.plains.items ≡ plains_in (map file_of files.items)) }
    ensures manifests { IfOk result (λ u. u.manifests.items ≡ manifests_in (map file_of files.items)) }
    ensures refused { IfOk result (λ u. u.is_any_refused ≡ is_any_refused (map file_of files.items)) }
{
    let mut units = Units {
        plains: Vec::new(alloc),
        manifests: Vec::new(alloc),
        is_any_refused: false,
    };
    for file in files {
        add(&mut units, file)?;
    }
    Ok(units)
}

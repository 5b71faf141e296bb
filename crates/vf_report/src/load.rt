//! Reading the files that the words name.

ghost use Rattle.std.specs.Prelude.{◌≡◌, ◌≤◌, length, IfOk, IsErrOf, IfSome};
ghost use Rattle.vf_base.specs.Outside.{Rose, IsFront, IsAbsent};
ghost use Rattle.vf_report.specs.Loaded.{HasSchedule, HasNoSchedule, HasManifest, HasNoManifest};
ghost use Rattle.vf_report.specs.Status.{stop_of};
ghost use Rattle.vf_manifest.specs.Manifests.{IsManifest};

use crate::status::Stop;
use std::alloc::Global;
use vf_base::{FileFault, Files};
use vf_manifest::{MOST_BYTES, Manifest, ManifestFault, read_manifest};
use vf_schedule::{Schedule, ScheduleFault, read_schedule};

/// The most bytes of a schedule.
const MOST_SCHEDULE: u64 = 16_777_216;

/// The first `limit + 1` bytes of a file, or all of them where it is shorter.
pub fn load<F: Files>(
    alloc: Global,
    files: &mut F,
    path: &str,
    limit: u64,
) -> Result<Vec<u8>, FileFault>
    ensures ok { IfOk result (λ v. IsFront (F.contents files.old) path.now limit v.items) }
    ensures failed { IsErrOf result FileFault.Failed → Rose (F.failures files.old) (F.failures files.new) }
    ensures missing { IsErrOf result FileFault.Missing → Rose (F.absences files.old) (F.absences files.new) }
    ensures absent { IsErrOf result FileFault.Missing → IsAbsent (F.contents files.old) path.now }
    ensures unchanged { F.contents files.new ≡ F.contents files.old }
    ensures failures_never_fall { F.failures files.old ≤ F.failures files.new }
    ensures absences_never_fall { F.absences files.old ≤ F.absences files.new }
    ensures put_failures_never_fall { F.put_failures files.old ≤ F.put_failures files.new }
{
    let mut bytes = Vec::new(alloc);
    match files.read(path, limit, &mut bytes) {
        Ok(()) => Ok(bytes),
        Err(fault) => Err(fault),
    }
}

/// The schedule that a file has.
pub fn load_schedule<F: Files>(alloc: Global, files: &mut F, path: &str) -> Result<Schedule, Stop>
    ensures ok { IfOk result (λ s. IfSome (F.contents files.old) (λ m. HasSchedule m path.now s)) }
    ensures few { IfOk result (λ s. length s ≤ 1000000) }
    ensures unreadable { IsErrOf result Stop.Unreadable → IfSome (F.contents files.old) (λ m. HasNoSchedule m path.now) }
    ensures failed { IsErrOf result Stop.ReadFault → Rose (F.failures files.old) (F.failures files.new) }
    ensures missing { IsErrOf result Stop.Missing → Rose (F.absences files.old) (F.absences files.new) }
    ensures absent { IsErrOf result Stop.Missing → IsAbsent (F.contents files.old) path.now }
    ensures unchanged { F.contents files.new ≡ F.contents files.old }
    ensures failures_never_fall { F.failures files.old ≤ F.failures files.new }
    ensures absences_never_fall { F.absences files.old ≤ F.absences files.new }
    ensures put_failures_never_fall { F.put_failures files.old ≤ F.put_failures files.new }
{
    let bytes = match load(alloc, files, path, MOST_SCHEDULE) {
        Ok(bytes) => bytes,
        Err(fault) => return Err(stop_of(fault)),
    };
    if bytes.len() as u64 > MOST_SCHEDULE {
        return Err(Stop::Unreadable);
    }
    match read_schedule(alloc, bytes.as_slice()) {
        Ok(schedule) => Ok(schedule),
        Err(ScheduleFault::Syntax) => Err(Stop::Unreadable),
        Err(ScheduleFault::Memory) => Err(Stop::Memory),
    }
}

/// The manifest that a file has.
pub fn load_manifest<F: Files>(alloc: Global, files: &mut F, path: &str) -> Result<Manifest, Stop>
    ensures ok { IfOk result (λ s. IfSome (F.contents files.old) (λ m. HasManifest m path.now s)) }
    ensures manifest { IfOk result (λ s. IsManifest s) }
    ensures unreadable { IsErrOf result Stop.Unreadable → IfSome (F.contents files.old) (λ m. HasNoManifest m path.now) }
    ensures failed { IsErrOf result Stop.ReadFault → Rose (F.failures files.old) (F.failures files.new) }
    ensures missing { IsErrOf result Stop.Missing → Rose (F.absences files.old) (F.absences files.new) }
    ensures absent { IsErrOf result Stop.Missing → IsAbsent (F.contents files.old) path.now }
    ensures unchanged { F.contents files.new ≡ F.contents files.old }
    ensures failures_never_fall { F.failures files.old ≤ F.failures files.new }
    ensures absences_never_fall { F.absences files.old ≤ F.absences files.new }
    ensures put_failures_never_fall { F.put_failures files.old ≤ F.put_failures files.new }
{
    let bytes = match load(alloc, files, path, MOST_BYTES as u64) {
        Ok(bytes) => bytes,
        Err(fault) => return Err(stop_of(fault)),
    };
    if bytes.len() > MOST_BYTES {
        return Err(Stop::Unreadable);
    }
    match read_manifest(alloc, bytes.as_slice()) {
        Ok(manifest) => Ok(manifest),
        Err(ManifestFault::Syntax { .. }) => Err(Stop::Unreadable),
        Err(ManifestFault::Memory) => Err(Stop::Memory),
    }
}

/// How a fault of reading stops a call.
pub fn stop_of(fault: FileFault) -> Stop
    ensures { result ≡ stop_of fault }
{
    match fault {
        FileFault::Missing => Stop::Missing,
        FileFault::Failed => Stop::ReadFault,
        FileFault::Memory => Stop::Memory,
    }
}

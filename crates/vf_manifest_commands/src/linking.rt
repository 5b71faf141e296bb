//! Linking the manifests that files have.

ghost use Rattle.std.specs.Prelude.{◌≡◌, IfOk, IfSome, IsErrOf};
ghost use Rattle.vf_base.specs.Outside.{Rose};
ghost use Rattle.vf_words.specs.Positionals.{texts};
ghost use Rattle.vf_report.specs.Status.{IsTold};
ghost use Rattle.vf_manifest_commands.specs.Manifests.{HasUnreadable, HaveManifests, IsLinkAnswer, LacksManifest, LinkPrints};

use std::alloc::Global;
use vf_base::{Files, Memory, Text};
use vf_link::{LinkFault, link_manifests};
use vf_manifest::Manifest;
use vf_report::{Answered, Status, Stop, load_manifest, push_linked, push_unlinked};

/// The manifests that files have, in order.
fn load_manifests<F: Files>(
    alloc: Global,
    files: &mut F,
    paths: &[&str],
) -> Result<Vec<Manifest>, Stop>
    ensures loaded { IfOk result (λ ms. IfSome (F.contents files.old) (λ m. HaveManifests m (texts paths.now) ms.items)) }
    ensures unreadable { IsErrOf result Stop.Unreadable → IfSome (F.contents files.old) (λ m. HasUnreadable m (texts paths.now)) }
    ensures lacking { IsErrOf result Stop.Missing → IfSome (F.contents files.old) (λ m. LacksManifest m (texts paths.now)) }
    ensures missing { IsErrOf result Stop.Missing → Rose (F.absences files.old) (F.absences files.new) }
    ensures failed { IsErrOf result Stop.ReadFault → Rose (F.failures files.old) (F.failures files.new) }
    ensures unchanged { F.contents files.new ≡ F.contents files.old }
{
    let mut manifests = Vec::new(alloc);
    for path in paths {
        let manifest = match load_manifest(alloc, files, *path) {
            Ok(manifest) => manifest,
            Err(stop) => return Err(stop),
        };
        match manifests.push(manifest) {
            Ok(()) => {}
            Err(_) => return Err(Stop::Memory),
        }
    }
    Ok(manifests)
}

/// The status and the text of the linking of manifests.
fn answer_of(alloc: Global, manifests: &[Manifest]) -> Result<Answered, Memory>
    ensures { IfOk result (λ a. LinkPrints manifests.now a.status a.text) }
{
    let mut text = Text::new(alloc);
    match link_manifests(alloc, manifests) {
        Ok(_) => {
            push_linked(&mut text)?;
            Ok(Answered {
                status: Status::Done,
                text,
            })
        }
        Err(LinkFault::Refused(refusal)) => {
            let rule = refusal.rule();
            push_unlinked(alloc, &mut text, rule, &refusal.into_shown())?;
            Ok(Answered {
                status: Status::LinkRefused,
                text,
            })
        }
        Err(LinkFault::Memory) => Err(Memory),
    }
}

/// What the linking of the manifests at some paths answers.
///
/// # Errors
///
/// Where a manifest is not there or could not be read, where a file has none, or where memory ran out.
pub fn link_answer<F: Files>(alloc: Global, paths: &[&str], files: &mut F) -> Result<Answered, Stop>
    ensures answered { IfOk result (λ a. IfSome (F.contents files.old) (λ m. IsLinkAnswer m (texts paths.now) a.status a.text)) }
    ensures told { IfOk result (λ a. IsTold a.status) }
    ensures unreadable { IsErrOf result Stop.Unreadable → IfSome (F.contents files.old) (λ m. HasUnreadable m (texts paths.now)) }
    ensures lacking { IsErrOf result Stop.Missing → IfSome (F.contents files.old) (λ m. LacksManifest m (texts paths.now)) }
    ensures missing { IsErrOf result Stop.Missing → Rose (F.absences files.old) (F.absences files.new) }
    ensures failed { IsErrOf result Stop.ReadFault → Rose (F.failures files.old) (F.failures files.new) }
    ensures unchanged { F.contents files.new ≡ F.contents files.old }
{
    let manifests = match load_manifests(alloc, files, paths) {
        Ok(manifests) => manifests,
        Err(stop) => return Err(stop),
    };
    match answer_of(alloc, manifests.as_slice()) {
        Ok(answer) => Ok(answer),
        Err(_) => Err(Stop::Memory),
    }
}

//! Linking.

ghost use Rattle.std.specs.Prelude.{IfOk, OnOk, IfErr};
ghost use Rattle.vf_link.specs.Statements.{all_lines};
ghost use Rattle.vf_link.specs.Linking.{Links, IsMain, IsCallOrder, IsRefusal, IfRefused};

use crate::call_order::{Calls, calls_of};
use crate::entry::{Entry, only_main};
use crate::refusal::{LinkFault, LinkRefusal};
use crate::repeats::{least_with_two_bodies, least_with_two_digests};
use crate::requirements::Requirements;
use std::alloc::Global;
use vf_base::{Sequence, Text};
use vf_manifest::Manifest;

/// What is known of manifests that link.
#[derive(Debug, Drop)]
pub struct Linked {
    /// Where the program begins.
    pub entry: Entry,
    /// The identities' texts of all lemmas that call others or are called, each behind those that it calls.
    pub call_order: Sequence<Text>,
}

/// Links some manifests.
pub fn link_manifests(alloc: Global, manifests: &[Manifest]) -> Result<Linked, LinkFault>
    ensures links { OnOk result (Links (all_lines manifests.now)) }
    ensures entry { IfOk result (λ l. IsMain manifests.now l.entry.manifest l.entry.identity) }
    ensures order { IfOk result (λ l. IsCallOrder (all_lines manifests.now) l.call_order) }
    ensures refused { IfErr result (λ e. IfRefused e (IsRefusal (all_lines manifests.now))) }
    ensures never { IfErr result (λ e. IfRefused e (λ _. Links (all_lines manifests.now) → ⊥)) }
{
    let entry = only_main(alloc, manifests)?;
    let requirements = Requirements::new(alloc, manifests)?;
    if let Some(identity) = requirements.least_repeated(alloc)? {
        return Err(LinkFault::Refused(LinkRefusal::Duplicate { identity }));
    }
    if let Some(identity) = least_with_two_bodies(alloc, manifests)? {
        return Err(LinkFault::Refused(LinkRefusal::TwoBodies { identity }));
    }
    if let Some(path) = least_with_two_digests(alloc, manifests)? {
        return Err(LinkFault::Refused(LinkRefusal::HeaderDiffers { path }));
    }
    if let Some(identity) = requirements.least_unmet(alloc)? {
        return Err(LinkFault::Refused(LinkRefusal::Unmet { identity }));
    }
    if let Some(identity) = requirements.least_disagreeing(alloc)? {
        return Err(LinkFault::Refused(LinkRefusal::Signature { identity }));
    }
    match calls_of(alloc, manifests)? {
        Calls::Ordered(call_order) => Ok(Linked { entry, call_order }),
        Calls::Cyclic(identity) => Err(LinkFault::Refused(LinkRefusal::LemmaCycle { identity })),
    }
}

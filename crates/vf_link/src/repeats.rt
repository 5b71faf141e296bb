//! What is said in two ways.

ghost use Rattle.std.specs.Prelude.{◌≡◌, IfOk, map, length};
ghost use Rattle.vf_link.specs.Statements.{all_lines, place, shown, statements};
ghost use Rattle.vf_link.specs.Least.{IsLeastOf};
ghost use Rattle.vf_link.specs.Linking.{Differ, HasTwoBodies, HasTwoDigests};
ghost use Rattle.vf_link.specs.Marks.{Marks, IsContradicted};

use crate::firsts::firsts;
use crate::least::{least_marked, lesser_text};
use crate::statement::{Topic, stated};
use crate::texts::Texts;
use std::alloc::Global;
use vf_base::{Memory, Text};
use vf_manifest::Manifest;

/// Marks what is not what is said first of the same subject.
fn mark_contradictions(
    alloc: Global,
    firsts: &[usize],
    subjects: &Texts<'_>,
    contents: &Texts<'_>,
) -> Result<Vec<bool>, Memory>
    requires firsts { firsts.now ≡ map (place subjects.now) subjects.now }
    requires pairs { length contents.now ≡ length subjects.now }
    ensures { IfOk result (λ m. Marks (length subjects.now) m.items (IsContradicted subjects.now contents.now)) }
{
    let mut marks = Vec::with_capacity(alloc, subjects.len())?;
    for at in 0..subjects.len() {
        marks.push(contents.get(firsts[at]) != contents.get(at))?;
    }
    Ok(marks)
}

/// What is shown of the least subject of which the lines of some manifests say different things.
fn least_contradicted(
    alloc: Global,
    topic: Topic,
    manifests: &[Manifest],
) -> Result<Option<Text>, Memory>
    ensures { IfOk result (IsLeastOf (Differ (shown topic) (statements topic (all_lines manifests.now)))) }
{
    let stated = stated(alloc, topic, manifests)?;
    let firsts = firsts(alloc, &stated.subjects, stated.subjects.len())?;
    let marks = mark_contradictions(alloc, firsts.as_slice(), &stated.subjects, &stated.contents)?;
    least_marked(alloc, topic, &stated.subjects, marks.as_slice())
}

/// The least predicate, struct or family of which a body or an instance stands in two files.
pub fn least_with_two_bodies(alloc: Global, manifests: &[Manifest]) -> Result<Option<Text>, Memory>
    ensures { IfOk result (IsLeastOf (HasTwoBodies (all_lines manifests.now))) }
{
    let bodies = least_contradicted(alloc, Topic::Bodies, manifests)?;
    let structs = least_contradicted(alloc, Topic::Structs, manifests)?;
    let instances = least_contradicted(alloc, Topic::Instances, manifests)?;
    Ok(lesser_text(bodies, lesser_text(structs, instances)))
}

/// The least path of a header that has two digests.
pub fn least_with_two_digests(alloc: Global, manifests: &[Manifest]) -> Result<Option<Text>, Memory>
    ensures { IfOk result (IsLeastOf (HasTwoDigests (all_lines manifests.now))) }
{
    least_contradicted(alloc, Topic::Uses, manifests)
}

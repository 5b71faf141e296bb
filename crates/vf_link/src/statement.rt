//! What the lines of manifests say, by topic.

ghost use Rattle.std.specs.Prelude.{◌≡◌, ◌<◌, ◌∷◌, ◌++◌, IfOk, IfSome, OnOk, [], length, slice_get};
ghost use Rattle.vf_link.specs.Statements.{all_lines, statements, speaks, subjects, contents};

use crate::texts::Texts;
use std::alloc::Global;
use vf_base::Memory;
use vf_manifest::{Kind, Manifest};

/// What lines can speak of.
#[derive(Clone, Copy)]
pub enum Topic {
    /// In which file the body of a predicate stands.
    Bodies,
    /// Which lemma a lemma calls.
    Calls,
    /// In which file the instance of a family at a function stands.
    Instances,
    /// Which signature a function or lemma has that is provided.
    Provided,
    /// Which signature a function or lemma has that is required.
    Required,
    /// In which file the body of a struct stands.
    Structs,
    /// Which digest a header has.
    Uses,
}

/// Whether the lines of this kind speak of a topic.
fn speaks(topic: Topic, kind: Kind) -> bool
    ensures { result ≡ speaks topic kind }
{
    matches!(
        (topic, kind),
        (Topic::Bodies, Kind::Body)
            | (Topic::Calls, Kind::Calls)
            | (Topic::Instances, Kind::Instance)
            | (Topic::Provided, Kind::Provides)
            | (Topic::Required, Kind::Requires)
            | (Topic::Structs, Kind::Struct)
            | (Topic::Uses, Kind::Uses)
    )
}

/// Statements, in order: of what they speak, and what they say of it.
#[derive(Drop)]
pub struct Statements<'a> {
    pub subjects: Texts<'a>,
    pub contents: Texts<'a>,
}

impl<'a> Statements<'a> {
    /// No statements.
    pub fn new(alloc: Global) -> Statements<'a>
        ensures subjects { result.subjects ≡ [] }
        ensures contents { result.contents ≡ [] }
    {
        Statements {
            subjects: Texts::new(alloc),
            contents: Texts::new(alloc),
        }
    }

    /// Adds what the line at an index says on a topic.
    fn push_line(&mut self, topic: Topic, manifest: &'a Manifest, at: usize) -> Result<(), Memory>
        requires { at < length manifest.now }
        ensures subjects { OnOk result (IfSome (slice_get manifest.now at) (λ l. self.new.subjects
            ≡ self.old.subjects ++ subjects (statements topic (l ∷ [])))) }
        ensures contents { OnOk result (IfSome (slice_get manifest.now at) (λ l. self.new.contents
            ≡ self.old.contents ++ contents (statements topic (l ∷ [])))) }
    {
        if !speaks(topic, manifest.kind(at)) {
            return Ok(());
        }
        self.subjects.push(manifest.subject(at))?;
        self.contents.push(manifest.content(at))
    }

    /// Adds what some lines say on a topic.
    fn push_lines(&mut self, topic: Topic, manifest: &'a Manifest) -> Result<(), Memory>
        ensures subjects { OnOk result (self.new.subjects
            ≡ self.old.subjects ++ subjects (statements topic manifest.now)) }
        ensures contents { OnOk result (self.new.contents
            ≡ self.old.contents ++ contents (statements topic manifest.now)) }
    {
        for at in 0..manifest.len() {
            self.push_line(topic, manifest, at)?;
        }
        Ok(())
    }

    /// Adds what the lines of some manifests say on a topic.
    pub fn push_all(&mut self, topic: Topic, manifests: &'a [Manifest]) -> Result<(), Memory>
        ensures subjects { OnOk result (self.new.subjects
            ≡ self.old.subjects ++ subjects (statements topic (all_lines manifests.now))) }
        ensures contents { OnOk result (self.new.contents
            ≡ self.old.contents ++ contents (statements topic (all_lines manifests.now))) }
    {
        for manifest in manifests {
            self.push_lines(topic, manifest)?;
        }
        Ok(())
    }
}

/// What the lines of some manifests say on a topic.
pub fn stated<'a>(
    alloc: Global,
    topic: Topic,
    manifests: &'a [Manifest],
) -> Result<Statements<'a>, Memory>
    ensures subjects { IfOk result (λ s. s.subjects ≡ subjects (statements topic (all_lines manifests.now))) }
    ensures contents { IfOk result (λ s. s.contents ≡ contents (statements topic (all_lines manifests.now))) }
{
    let mut statements = Statements::new(alloc);
    statements.push_all(topic, manifests)?;
    Ok(statements)
}

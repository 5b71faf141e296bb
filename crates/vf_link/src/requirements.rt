//! Whether what is required is provided, and as it is required.

ghost use Rattle.std.specs.Prelude.{◌≡◌, ◌≢◌, ◌<◌, ◌≤◌, ◌↔◌, List, IsTrue, IfOk, map, length, get_or};
ghost use Rattle.vf_manifest.specs.declared.line.Line as declared_line;
ghost use Rattle.vf_link.specs.Statements.{all_lines, place};
ghost use Rattle.vf_link.specs.Least.{IsLeastOf, HasNone};
ghost use Rattle.vf_link.specs.Linking.{IsUnmet, HasOtherSignature, IsProvidedTwice, agree};
ghost use Rattle.vf_link.specs.Marks.{Marks, IsNoneOf, DisagreesWith, Meets};

use crate::firsts::firsts;
use crate::least::least_marked;
use crate::statement::{Statements, Topic, stated};
use std::alloc::Global;
use vf_base::{Memory, Text};
use vf_manifest::Manifest;

/// What is provided, and behind it what is required, each with its signature.
#[derive(Drop)]
pub struct Requirements<'a> {
    statements: Statements<'a>,
    /// How many identities are provided.
    provided: usize,
    /// For each identity the place where it is mentioned first.
    firsts: Vec<usize>,
}

/// Whether two signatures agree: they are the same, or one is not told.
fn agree(first: &[u8], second: &[u8]) -> bool
    ensures { result ≡ agree first.now second.now }
{
    first == b"?".as_slice() || second == b"?".as_slice() || first == second
}

/// Marks the places at which no text is mentioned for the first time.
fn mark_repeats(alloc: Global, firsts: &[usize]) -> Result<Vec<bool>, Memory>
    ensures { IfOk result (λ m. Marks (length firsts.now) m.items (λ k. get_or firsts.now k 0 ≢ k)) }
{
    let mut marks = Vec::with_capacity(alloc, firsts.len())?;
    for at in 0..firsts.len() {
        marks.push(firsts[at] != at)?;
    }
    Ok(marks)
}

impl<'a> Requirements<'a> {
    /// What some manifests provide and require.
    pub fn new(alloc: Global, manifests: &'a [Manifest]) -> Result<Requirements<'a>, Memory>
        ensures { IfOk result (λ r. Meets (all_lines manifests.now) r) }
    {
        let mut statements = stated(alloc, Topic::Provided, manifests)?;
        let provided = statements.subjects.len();
        statements.push_all(Topic::Required, manifests)?;
        let firsts = firsts(alloc, &statements.subjects, provided)?;
        Ok(Requirements {
            statements,
            provided,
            firsts,
        })
    }

    /// The least identity that is provided twice.
    pub fn least_repeated(&self, alloc: Global) -> Result<Option<Text>, Memory>
        requires firsts { self.now.firsts.items ≡ map (place self.now.statements.subjects) self.now.statements.subjects }
        requires within { self.now.provided ≤ length self.now.statements.subjects }
        ensures { IfOk result (λ x. (lines : List declared_line.Line) → Meets lines self.now → IsLeastOf (IsProvidedTwice lines) x) }
    {
        let marks = mark_repeats(alloc, &self.firsts[..self.provided])?;
        least_marked(
            alloc,
            Topic::Provided,
            &self.statements.subjects,
            marks.as_slice(),
        )
    }

    /// Marks the identities that are not provided.
    fn mark_unmet(&self, alloc: Global) -> Result<Vec<bool>, Memory>
        requires { self.now.firsts.items ≡ map (place self.now.statements.subjects) self.now.statements.subjects }
        ensures { IfOk result (λ m. Marks (length self.now.statements.subjects) m.items
            (IsNoneOf self.now.provided self.now.statements.subjects)) }
    {
        let mut marks = Vec::with_capacity(alloc, self.firsts.len())?;
        for at in 0..self.firsts.len() {
            marks.push(self.provided <= self.firsts[at])?;
        }
        Ok(marks)
    }

    /// The least identity that is required and not provided.
    pub fn least_unmet(&self, alloc: Global) -> Result<Option<Text>, Memory>
        requires { self.now.firsts.items ≡ map (place self.now.statements.subjects) self.now.statements.subjects }
        ensures { IfOk result (λ x. (lines : List declared_line.Line) → Meets lines self.now → IsLeastOf (IsUnmet lines) x) }
    {
        let marks = self.mark_unmet(alloc)?;
        least_marked(
            alloc,
            Topic::Required,
            &self.statements.subjects,
            marks.as_slice(),
        )
    }

    /// Whether the identity at an index is required with a signature that does not agree with the one that is provided.
    fn disagrees(&self, at: usize) -> bool
        requires firsts { self.now.firsts.items ≡ map (place self.now.statements.subjects) self.now.statements.subjects }
        requires pairs { length self.now.statements.contents ≡ length self.now.statements.subjects }
        requires within { at < length self.now.firsts.items }
        ensures { IsTrue result ↔ DisagreesWith self.now.provided self.now.statements.subjects
            self.now.statements.contents at }
    {
        let contents = &self.statements.contents;
        let first = self.firsts[at];
        if self.provided <= at && first < self.provided {
            !agree(contents.get(first), contents.get(at))
        } else {
            false
        }
    }

    /// Marks the identities that are required with a signature that does not agree with the one that is provided.
    fn mark_disagreements(&self, alloc: Global) -> Result<Vec<bool>, Memory>
        requires firsts { self.now.firsts.items ≡ map (place self.now.statements.subjects) self.now.statements.subjects }
        requires pairs { length self.now.statements.contents ≡ length self.now.statements.subjects }
        ensures { IfOk result (λ m. Marks (length self.now.statements.subjects) m.items
            (DisagreesWith self.now.provided self.now.statements.subjects self.now.statements.contents)) }
    {
        let mut marks = Vec::with_capacity(alloc, self.firsts.len())?;
        for at in 0..self.firsts.len() {
            marks.push(self.disagrees(at))?;
        }
        Ok(marks)
    }

    /// The least identity that is required with a signature that does not agree with the one that is provided.
    pub fn least_disagreeing(&self, alloc: Global) -> Result<Option<Text>, Memory>
        requires firsts { self.now.firsts.items ≡ map (place self.now.statements.subjects) self.now.statements.subjects }
        requires pairs { length self.now.statements.contents ≡ length self.now.statements.subjects }
        ensures { IfOk result (λ x. (lines : List declared_line.Line) → Meets lines self.now
            → HasNone (IsProvidedTwice lines) → IsLeastOf (HasOtherSignature lines) x) }
    {
        let marks = self.mark_disagreements(alloc)?;
        least_marked(
            alloc,
            Topic::Required,
            &self.statements.subjects,
            marks.as_slice(),
        )
    }
}

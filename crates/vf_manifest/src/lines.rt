//! The lines of manifests, kept in one piece of memory.

ghost use Rattle.std.specs.Prelude.{◌≡◌, ◌<◌, [], ◌∷◌, ◌++◌, OnOk, Some, length, slice_get};
ghost use Rattle.std.specs.Option.{option_map, option_copied};
ghost use Rattle.vf_manifest.specs.Words.{identity_text};
ghost use Rattle.vf_manifest.specs.Lines.{kind, subject, content, provided_name, two};
ghost use Rattle.vf_manifest.specs.Kept.{IsFront};

use crate::identity::Identity;
use crate::kind::Kind;
use crate::line::Line;
use crate::spot::{Spot, shape_of};
use std::alloc::Global;
use std::marker::Model;
use vf_base::{Memory, Text};

/// The lines of a manifest, which contracts see as their list. A line takes no memory of its own.
#[derive(Debug, Drop)]
pub struct Manifest {
    bytes: Text,
    spots: Vec<Spot>,
}

impl Model for Manifest {
    ghost use Rattle.std.specs.Prelude.{List, All, map};
    ghost use Rattle.vf_manifest.specs.declared.line.Line.{Line};
    ghost use Rattle.vf_manifest.specs.Kept.{IsKept, line_at};

    ghost Value = { List Line };

    ghost view = { λ m. map (line_at m.bytes) m.spots.items };

    ghost invariant = { λ m. All (IsKept m.bytes) m.spots.items };
}

/// Puts the text of an identity behind some bytes.
fn push_identity(out: &mut Text, identity: &Identity<'_>) -> Result<(), Memory>
    ensures pushed { OnOk result (out.new ≡ out.old ++ identity_text identity.now) }
    ensures front { IsFront out.old out.new }
{
    out.push_bytes(identity.path())?;
    out.push(b'#')?;
    out.push_bytes(identity.name())
}

/// Puts the texts of two identities behind some bytes, with a blank between them.
fn push_two(out: &mut Text, first: &Identity<'_>, second: &Identity<'_>) -> Result<(), Memory>
    ensures pushed { OnOk result (out.new ≡ out.old ++ two (identity_text first.now) (identity_text second.now)) }
    ensures front { IsFront out.old out.new }
{
    push_identity(out, first)?;
    out.push(b' ')?;
    push_identity(out, second)
}

/// Puts the word of which a line speaks behind some bytes.
fn push_subject(out: &mut Text, line: &Line<'_>) -> Result<(), Memory>
    ensures pushed { OnOk result (out.new ≡ out.old ++ subject line.now) }
    ensures front { IsFront out.old out.new }
{
    match line {
        Line::Body { predicate, .. } => push_identity(out, predicate),
        Line::Calls { caller, .. } => push_identity(out, caller),
        Line::Claims { function, .. } => push_identity(out, function),
        Line::Instance {
            family,
            function,
            ..
        } => push_two(out, family, function),
        Line::Provides { provided, .. } => push_identity(out, provided),
        Line::Requires { required, .. } => push_identity(out, required),
        Line::Struct { tag, .. } => push_identity(out, tag),
        Line::Uses { header, .. } => out.push_bytes(header.as_bytes()),
    }
}

/// Puts the word that a line says behind some bytes.
fn push_content(out: &mut Text, line: &Line<'_>) -> Result<(), Memory>
    ensures pushed { OnOk result (out.new ≡ out.old ++ content line.now) }
    ensures front { IsFront out.old out.new }
{
    match line {
        Line::Body { file, .. } => out.push_bytes(file.as_bytes()),
        Line::Calls { callee, .. } => push_identity(out, callee),
        Line::Claims { claimed, .. } => push_identity(out, claimed),
        Line::Instance { file, .. } => out.push_bytes(file.as_bytes()),
        Line::Provides { signature, .. } => out.push_bytes(signature.as_bytes()),
        Line::Requires { signature, .. } => out.push_bytes(signature.as_bytes()),
        Line::Struct { file, .. } => out.push_bytes(file.as_bytes()),
        Line::Uses { digest, .. } => out.push_bytes(digest.as_bytes()),
    }
}

impl Manifest {
    /// No lines, which take no memory.
    pub fn new(alloc: Global) -> Manifest
        ensures { result ≡ [] }
    {
        Manifest {
            bytes: Text::new(alloc),
            spots: Vec::new(alloc),
        }
    }

    /// How many lines there are.
    pub fn len(&self) -> usize
        ensures { result ≡ length self.now }
    {
        self.spots.len()
    }

    /// Adds a line.
    pub fn push(&mut self, line: Line<'_>) -> Result<(), Memory>
        ensures { OnOk result (self.new ≡ self.old ++ line.entry ∷ []) }
    {
        let start = self.bytes.len();
        push_subject(&mut self.bytes, &line)?;
        let middle = self.bytes.len();
        push_content(&mut self.bytes, &line)?;
        let end = self.bytes.len();
        let shape = shape_of(&line);
        self.spots.push(Spot {
            shape,
            start,
            middle,
            end,
        })?;
        Ok(())
    }

    /// The kind of the line at an index, counted from 0.
    pub fn kind(&self, at: usize) -> Kind
        requires { at < length self.now }
        ensures { option_map kind (slice_get self.now at) ≡ Some result }
    {
        self.spots[at].shape.kind
    }

    /// Of what the line at an index speaks.
    pub fn subject(&self, at: usize) -> &[u8]
        requires { at < length self.now }
        ensures { option_map subject (slice_get self.now at) ≡ Some result.now }
    {
        let spot = self.spots[at];
        &self.bytes.as_bytes()[spot.start..spot.middle]
    }

    /// What the line at an index says of that.
    pub fn content(&self, at: usize) -> &[u8]
        requires { at < length self.now }
        ensures { option_map content (slice_get self.now at) ≡ Some result.now }
    {
        let spot = self.spots[at];
        &self.bytes.as_bytes()[spot.middle..spot.end]
    }

    /// The name of what the line at an index provides, where it provides something.
    pub fn provided_name(&self, at: usize) -> Option<&[u8]>
        requires { at < length self.now }
        ensures { option_map provided_name (slice_get self.now at) ≡ Some (option_copied result) }
    {
        let spot = self.spots[at];
        match spot.shape.kind {
            Kind::Provides => Some(&self.subject(at)[spot.shape.path + 1..]),
            _ => None,
        }
    }
}

//! Reading a manifest.

ghost use Rattle.std.specs.Prelude.{◌≡◌, ◌≤◌, [], ◌∷◌, ◌++◌, ℕ, List, length, IfOk, IfErr, IfSome, IfNone, map};
ghost use Rattle.vf_manifest.specs.declared.line.Line as declared_line;
ghost use Rattle.vf_manifest.specs.Words.{is_identity, is_own_identity};
ghost use Rattle.vf_manifest.specs.declared.line.Version.TheVariants as versions;
ghost use Rattle.vf_manifest.specs.Lines.{key, signature_part, spelled};
ghost use Rattle.vf_manifest.specs.Manifests.{Ascends, IsManifest, IsManifestText, HasFault, NoHead, IfSyntax, head};
ghost use Rattle.vf_manifest.specs.Reading.{Gives, pair_at, placed_at, signed_at, located_at, instance_at, used_at, words_at, line_at};

use crate::fault::{ManifestFault, WordFault};
use crate::identity::Identity;
use crate::kind::{Kind, kind_of};
use crate::line::{Line, Version};
use crate::lines::Manifest;
use crate::order::is_before;
use crate::signature::signature;
use crate::word::Word;
use crate::words::{cut, digest_text, file_path, identity, own_identity, path, split_line};
use std::alloc::Global;

/// The most bytes of a manifest's text.
pub const MOST_BYTES: usize = 16_777_216;

#[tactic(auto, unfolding(crate::specs::Reading::both))]
fn pair(text: &[u8]) -> Result<(Identity<'_>, Identity<'_>), WordFault>
    ensures { Gives (λ x. (x.0, x.1)) result (pair_at text.now) }
{
    let (first, second) = cut(text, b' ')?;
    let first = identity(first)?;
    let second = identity(second)?;
    Ok((first, second))
}

#[tactic(auto, unfolding(crate::specs::Reading::both))]
fn placed(text: &[u8]) -> Result<(Identity<'_>, Word<'_>), WordFault>
    ensures { Gives (λ x. (x.0, x.1)) result (placed_at text.now) }
{
    let (item, file) = cut(text, b' ')?;
    let item = own_identity(item)?;
    let file = file_path(file)?;
    Ok((item, file))
}

#[tactic(auto, unfolding(crate::specs::Reading::both))]
fn located(text: &[u8]) -> Result<(Identity<'_>, Word<'_>), WordFault>
    ensures { Gives (λ x. (x.0, x.1)) result (located_at text.now) }
{
    let (item, file) = cut(text, b' ')?;
    let item = identity(item)?;
    let file = path(file)?;
    Ok((item, file))
}

#[tactic(auto, unfolding(crate::specs::Reading::both))]
fn instance(text: &[u8]) -> Result<(Identity<'_>, (Identity<'_>, Word<'_>)), WordFault>
    ensures { Gives (λ x. (x.0, (x.1.0, x.1.1))) result (instance_at text.now) }
{
    let (family, rest) = cut(text, b' ')?;
    let family = identity(family)?;
    let rest = located(rest)?;
    Ok((family, rest))
}

#[tactic(auto, unfolding(crate::specs::Reading::both))]
fn used(text: &[u8]) -> Result<(Word<'_>, Word<'_>), WordFault>
    ensures { Gives (λ x. (x.0, x.1)) result (used_at text.now) }
{
    let (header, digest) = cut(text, b' ')?;
    let header = file_path(header)?;
    let digest = digest_text(digest)?;
    Ok((header, digest))
}

#[tactic(auto, unfolding(crate::specs::Reading::signed_at, crate::specs::Reading::both))]
fn provided(
    alloc: Global,
    version: Version,
    text: &[u8],
) -> Result<(Identity<'_>, Word<'_>), WordFault>
    ensures { Gives (λ x. (x.0, x.1)) result (signed_at version is_identity text.now) }
{
    match version {
        Version::First => {
            let item = identity(text)?;
            let signature = Word::new(b"?");
            Ok((item, signature))
        }
        Version::Second => {
            let (item, told) = cut(text, b' ')?;
            let item = identity(item)?;
            let told = signature(alloc, told)?;
            Ok((item, told))
        }
    }
}

#[tactic(auto, unfolding(crate::specs::Reading::signed_at, crate::specs::Reading::both))]
fn required(
    alloc: Global,
    version: Version,
    text: &[u8],
) -> Result<(Identity<'_>, Word<'_>), WordFault>
    ensures { Gives (λ x. (x.0, x.1)) result (signed_at version is_own_identity text.now) }
{
    match version {
        Version::First => {
            let item = own_identity(text)?;
            let signature = Word::new(b"?");
            Ok((item, signature))
        }
        Version::Second => {
            let (item, told) = cut(text, b' ')?;
            let item = own_identity(item)?;
            let told = signature(alloc, told)?;
            Ok((item, told))
        }
    }
}

/// The line of this kind with these words.
#[tactic(auto, unfolding(crate::specs::Reading::words_at))]
fn words_of(alloc: Global, version: Version, kind: Kind, text: &[u8]) -> Result<Line<'_>, WordFault>
    ensures { Gives (λ l. l) result (words_at version kind text.now) }
{
    match kind {
        Kind::Body => {
            let (predicate, file) = placed(text)?;
            Ok(Line::Body { predicate, file })
        }
        Kind::Calls => {
            let (caller, callee) = pair(text)?;
            Ok(Line::Calls { caller, callee })
        }
        Kind::Claims => {
            let (function, claimed) = pair(text)?;
            Ok(Line::Claims { function, claimed })
        }
        Kind::Instance => {
            let (family, (function, file)) = instance(text)?;
            Ok(Line::Instance {
                family,
                function,
                file,
            })
        }
        Kind::Provides => {
            let (provided, signature) = provided(alloc, version, text)?;
            Ok(Line::Provides {
                provided,
                signature,
            })
        }
        Kind::Requires => {
            let (required, signature) = required(alloc, version, text)?;
            Ok(Line::Requires {
                required,
                signature,
            })
        }
        Kind::Struct => {
            let (tag, file) = placed(text)?;
            Ok(Line::Struct { tag, file })
        }
        Kind::Uses => {
            let (header, digest) = used(text)?;
            Ok(Line::Uses { header, digest })
        }
    }
}

/// The line that a text is.
#[tactic(auto, unfolding(crate::specs::Reading::line_at))]
fn line_of(alloc: Global, version: Version, text: &[u8]) -> Result<Line<'_>, WordFault>
    ensures { Gives (λ l. l) result (line_at version text.now) }
{
    let (word, words) = cut(text, b' ')?;
    match kind_of(word) {
        Some(kind) => words_of(alloc, version, kind, words),
        None => Err(WordFault::Syntax),
    }
}

/// The signature of a line, where it has one.
fn signature_of<'a, 'b>(line: &'a Line<'b>) -> Option<&'a Word<'b>>
    ensures told { IfSome result (λ s. signature_part line.now ≡ 32 ∷ s.now) }
    ensures none { IfNone result (signature_part line.now ≡ []) }
{
    match line {
        Line::Provides { signature, .. } | Line::Requires { signature, .. } => Some(signature),
        _ => None,
    }
}

/// The key of a line with this text in version 2.
fn told_key<'a>(line: &Line<'_>, text: &'a [u8]) -> &'a [u8]
    requires { text.now ≡ spelled versions.Second line.now }
    ensures { result.now ≡ key line.now }
{
    match signature_of(line) {
        Some(signature) => text.split_at(text.len() - 1 - signature.as_bytes().len()).0,
        None => text,
    }
}

/// The key of a line with this text.
#[tactic(auto, using(crate::proofs::ManifestLaws::key_first))]
fn key_of<'a>(version: Version, line: &Line<'_>, text: &'a [u8]) -> &'a [u8]
    requires { text.now ≡ spelled version line.now }
    ensures { result.now ≡ key line.now }
{
    match version {
        Version::First => text,
        Version::Second => told_key(line, text),
    }
}

/// The version of a text by its first line, and what stands behind that line.
fn head_of(text: &[u8]) -> Option<(Version, &[u8])>
    ensures found { IfSome result (λ x. text.now ≡ head x.0 ++ x.1.now) }
    ensures none { IfNone result (NoHead text.now) }
{
    if text.starts_with(b".vfmanifest 1\n") {
        Some((Version::First, &text[14..]))
    } else if text.starts_with(b".vfmanifest 2\n") {
        Some((Version::Second, &text[14..]))
    } else {
        None
    }
}

/// The manifest that a text stands for, which is of version 1 or 2.
pub fn read_manifest(alloc: Global, bytes: &[u8]) -> Result<Manifest, ManifestFault>
    requires { length bytes.now ≤ MOST_BYTES }
    ensures read { IfOk result (λ lines. IsManifestText bytes.now lines) }
    ensures manifest { IfOk result (λ lines. IsManifest lines) }
    ensures fault { IfErr result (λ e. IfSyntax e (HasFault bytes.now)) }
    ensures none { IfErr result (λ e. IfSyntax e (λ _. (lines : List declared_line.Line)
        → IsManifestText bytes.now lines → ⊥)) }
{
    let Some((version, mut left)) = head_of(bytes) else {
        return Err(ManifestFault::Syntax { line: 1 });
    };
    let mut lines = Manifest::new(alloc);
    let mut last: &[u8] = &[];
    let mut number = 2;
    'lines: while left.len() > 0 {
        let Some((text, rest)) = split_line(left) else {
            return Err(ManifestFault::Syntax { line: number });
        };
        let line = match line_of(alloc, version, text) {
            Ok(line) => line,
            Err(WordFault::Memory) => return Err(ManifestFault::Memory),
            Err(WordFault::Syntax) => return Err(ManifestFault::Syntax { line: number }),
        };
        let key = key_of(version, &line, text);
        if !is_before(last, key) {
            return Err(ManifestFault::Syntax { line: number });
        }
        lines.push(line)?;
        last = key;
        left = rest;
        number += 1;
    }
    Ok(lines)
}

/// A text stands for one manifest at most, and for none where a line is at fault.
pub fn one_reading()
    ensures manifest { (text : List ℕ) (first second : List declared_line.Line)
        → IsManifestText text first → IsManifestText text second → first ≡ second }
    ensures never_both { (text : List ℕ) (number : ℕ) (lines : List declared_line.Line)
        → HasFault text number → IsManifestText text lines → ⊥ }
{}

/// The texts of a manifest's lines stand in the order of bytes, each once.
pub fn texts_ascend()
    ensures { (lines : List declared_line.Line) → IsManifest lines
        → Ascends [] (map (spelled versions.Second) lines) }
{}

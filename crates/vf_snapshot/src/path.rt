//! Paths without needless parts.

ghost use Rattle.std.specs.Prelude.{◌≡◌, reverse, codes, IfOk, OnOk};
ghost use Rattle.std.specs.List.{join_with_byte};
ghost use Rattle.vf_snapshot.specs.Paths.{parts_of, needed, with_part, undo_last, is_undone, joined, normal};

use std::alloc::Global;
use vf_base::{Memory, Text};

/// The path that one means in a folder, without `.` and without parts that `..` undoes.
///
/// A path that begins with `/` stands alone, and the folder "" adds nothing.
pub fn normal_path(alloc: Global, folder: &str, path: &str) -> Result<Text, Memory>
    ensures { IfOk result (λ text. text ≡ normal folder.now path.now) }
{
    normal_path_of_bytes(alloc, folder.as_bytes(), path.as_bytes())
}

/// The same for a folder and a path that are given as bytes.
pub fn normal_path_of_bytes(alloc: Global, folder: &[u8], path: &[u8]) -> Result<Text, Memory>
    ensures { IfOk result (λ text. text ≡ normal folder.now path.now) }
{
    let whole = joined_path(alloc, folder, path)?;
    let kept = needed_parts(alloc, whole.as_bytes())?;
    path_of_parts(alloc, &kept)
}

/// A path in a folder.
fn joined_path(alloc: Global, folder: &[u8], path: &[u8]) -> Result<Text, Memory>
    ensures { IfOk result (λ text. text ≡ joined folder.now path.now) }
{
    if path.starts_with(b"/".as_slice()) || folder == b"".as_slice() {
        return Text::from_bytes(alloc, path);
    }
    let mut whole = Text::from_bytes(alloc, folder)?;
    if !folder.ends_with(b"/".as_slice()) {
        whole.push_bytes(b"/".as_slice())?;
    }
    whole.push_bytes(path)?;
    Ok(whole)
}

/// The parts of a path that are left when each `.` is taken out, and each `..` with the part that it undoes.
fn needed_parts(alloc: Global, path: &[u8]) -> Result<Vec<Text>, Memory>
    ensures { IfOk result (λ parts. parts.items ≡ needed (parts_of path.now)) }
{
    let mut kept = Vec::new(alloc);
    let mut part = Text::new(alloc);
    for byte in path {
        if *byte == b'/' {
            put_part(&mut kept, part)?;
            part = Text::new(alloc);
        } else {
            part.push(*byte)?;
        }
    }
    put_part(&mut kept, part)?;
    Ok(kept)
}

/// Puts one more part to those that are kept.
#[tactic(auto, using(crate::proofs::Parts::reverse_push))]
fn put_part(kept: &mut Vec<Text>, part: Text) -> Result<(), Memory>
    ensures { OnOk result (reverse kept.new.items ≡ with_part (reverse kept.old.items) part) }
{
    if part.as_bytes() == b".".as_slice() {
        return Ok(());
    }
    if part.as_bytes() == b"..".as_slice() {
        return undo(kept, part);
    }
    kept.push(part)?;
    Ok(())
}

/// Takes the last part away, or puts `..` behind those that it does not undo.
#[tactic(auto, using(crate::proofs::Parts::reverse_push))]
fn undo(kept: &mut Vec<Text>, part: Text) -> Result<(), Memory>
    requires { part ≡ codes ".." }
    ensures { OnOk result (reverse kept.new.items ≡ undo_last (reverse kept.old.items)) }
{
    if let Some(last) = kept.pop() {
        if is_undone_part(&last) {
            return Ok(());
        }
        kept.push(last)?;
    }
    kept.push(part)?;
    Ok(())
}

/// Whether `..` undoes a part.
fn is_undone_part(part: &Text) -> bool
    ensures { result ≡ is_undone part.now }
{
    part.as_bytes() != b"".as_slice() && part.as_bytes() != b"..".as_slice()
}

/// The path of some parts, with a slash between each two.
fn path_of_parts(alloc: Global, parts: &[Text]) -> Result<Text, Memory>
    ensures { IfOk result (λ text. text ≡ join_with_byte 47 parts.now) }
{
    let mut text = Text::new(alloc);
    for (at, part) in parts.iter().enumerate() {
        if at > 0 {
            text.push(b'/')?;
        }
        text.push_bytes(part.as_bytes())?;
    }
    Ok(text)
}

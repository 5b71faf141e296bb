//! The lines that are printed.

ghost use Rattle.std.specs.Prelude.{◌≡◌, ◌++◌, OnOk, codes};
ghost use Rattle.std.specs.Fmt.{decimal};
ghost use Rattle.vf_report.specs.Lines.{path_in};
ghost use Rattle.vf_report.specs.Lines.{line, shown_place, shown_rule, shown_text, accepted_line, read_line, refusal_line, linked_line, unlinked_line, upgraded_line};

use std::alloc::Global;
use vf_base::{Memory, Place, Refusal, Rule, Shown, Text};
use vf_snapshot::Snapshot;

/// Prints a number in decimal.
pub fn push_number(alloc: Global, text: &mut Text, number: u32) -> Result<(), Memory>
    ensures { OnOk result (text.new ≡ text.old ++ decimal number) }
{
    let digits = format!(in alloc; "{number}")?;
    text.push_bytes(digits.as_str().as_bytes())?;
    Ok(())
}

/// The path of the file with a number, or the named one where no file has it.
fn path_in<'a>(snapshot: &'a Snapshot, path: &'a str, file: u32) -> &'a str
    ensures { result.now ≡ path_in snapshot.now path.now file }
{
    if (file as usize) < snapshot.len() {
        snapshot.path(file)
    } else {
        path
    }
}

/// Prints a place: the path of its file, line and column.
pub fn push_place(
    alloc: Global,
    text: &mut Text,
    snapshot: &Snapshot,
    path: &str,
    place: Place,
) -> Result<(), Memory>
    ensures { OnOk result (text.new ≡ text.old ++ shown_place (path_in snapshot.now path.now) place) }
{
    text.push_bytes(path_in(snapshot, path, place.file).as_bytes())?;
    text.push_bytes(b":")?;
    push_number(alloc, text, place.line)?;
    text.push_bytes(b":")?;
    push_number(alloc, text, place.column)?;
    Ok(())
}

/// Prints that a file is accepted.
pub fn push_accepted(text: &mut Text, path: &str) -> Result<(), Memory>
    ensures { OnOk result (text.new ≡ text.old ++ accepted_line path.now) }
{
    text.push_bytes(path.as_bytes())?;
    text.push_bytes(b": accepted\n")?;
    Ok(())
}

/// Prints a refusal, of the file at a path or of one that it includes.
pub fn push_refusal(
    alloc: Global,
    text: &mut Text,
    snapshot: &Snapshot,
    path: &str,
    refusal: &Refusal,
) -> Result<(), Memory>
    ensures { OnOk result (text.new ≡ text.old ++ refusal_line (path_in snapshot.now path.now) refusal.now) }
{
    push_place(alloc, text, snapshot, path, refusal.place)?;
    text.push_bytes(b": rule ")?;
    push_number(alloc, text, refusal.rule.number())?;
    text.push_bytes(b" ")?;
    text.push_bytes(refusal.rule.name().as_bytes())?;
    text.push_bytes(b"\n")?;
    Ok(())
}

/// Prints that the files link.
pub fn push_linked(text: &mut Text) -> Result<(), Memory>
    ensures { OnOk result (text.new ≡ text.old ++ linked_line) }
{
    text.push_bytes(b"linked\n")?;
    Ok(())
}

/// Prints that a file was read and is not refused.
pub fn push_read(text: &mut Text, path: &[u8]) -> Result<(), Memory>
    ensures { OnOk result (text.new ≡ text.old ++ read_line path.now) }
{
    text.push_bytes(path)?;
    text.push_bytes(b": read\n")?;
    Ok(())
}

/// Prints that a manifest was written again.
pub fn push_upgraded(text: &mut Text, path: &str) -> Result<(), Memory>
    ensures { OnOk result (text.new ≡ text.old ++ upgraded_line path.now) }
{
    text.push_bytes(path.as_bytes())?;
    text.push_bytes(b": version 2")?;
    text.push_bytes(b"\n")?;
    Ok(())
}

/// Prints a count.
fn push_count(alloc: Global, text: &mut Text, count: u64) -> Result<(), Memory>
    ensures { OnOk result (text.new ≡ text.old ++ decimal count) }
{
    let digits = format!(in alloc; "{count}")?;
    text.push_bytes(digits.as_str().as_bytes())?;
    Ok(())
}

/// Prints what a refusal shows beside its rule.
fn push_shown(alloc: Global, text: &mut Text, shown: &Shown) -> Result<(), Memory>
    ensures { OnOk result (text.new ≡ text.old ++ shown_text shown.now) }
{
    match shown {
        Shown::Nothing => Ok(()),
        Shown::Name(name) => text.push_bytes(name.as_bytes()),
        Shown::Count(count) => push_count(alloc, text, *count),
    }
}

/// Prints a rule: its number and its name.
fn push_rule(alloc: Global, text: &mut Text, rule: Rule) -> Result<(), Memory>
    ensures { OnOk result (text.new ≡ text.old ++ shown_rule rule) }
{
    push_number(alloc, text, rule.number())?;
    text.push_bytes(b" ")?;
    text.push_bytes(rule.name().as_bytes())?;
    Ok(())
}

/// Prints why files do not link: the rule, and the identity, path or count that it shows.
pub fn push_unlinked(
    alloc: Global,
    text: &mut Text,
    rule: Rule,
    shown: &Shown,
) -> Result<(), Memory>
    ensures { OnOk result (text.new ≡ text.old ++ unlinked_line rule shown.now) }
{
    text.push_bytes(b"link: rule ")?;
    push_rule(alloc, text, rule)?;
    text.push_bytes(b" ")?;
    push_shown(alloc, text, shown)?;
    text.push_bytes(b"\n")?;
    Ok(())
}

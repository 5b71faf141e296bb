//! The least of what fails a clause.

ghost use Rattle.std.specs.Prelude.{◌≡◌, ◌≤◌, ◌↔◌, IsTrue, IfOk, Some, if◌then◌else◌, length};
ghost use Rattle.std.specs.Option.{option_copied};
ghost use Rattle.std.specs.Cmp.Lexicographic.{slice_cmp};
ghost use Rattle.std.specs.Ordering.{nat_cmp};
ghost use Rattle.vf_link.specs.Statements.{shown};
ghost use Rattle.vf_link.specs.Least.{IsLeastOf, IsMarkedText, lesser};

use crate::statement::Topic;
use crate::texts::Texts;
use std::alloc::Global;
use std::cmp::Ordering;
use vf_base::{Memory, Text};

/// What stands before the first blank, or all.
fn first_word(text: &[u8]) -> &[u8]
    ensures { result.now ≡ shown Topic.Instances text.now }
{
    let mut end = 0;
    while end < text.len() && text[end] != b' ' {
        end += 1;
    }
    &text[..end]
}

/// What is shown of a subject.
fn shown(topic: Topic, subject: &[u8]) -> &[u8]
    ensures { result.now ≡ shown topic subject.now }
{
    match topic {
        Topic::Instances => first_word(subject),
        _ => subject,
    }
}

/// Whether a text stands before another in the order of bytes.
fn is_before(first: &[u8], second: &[u8]) -> bool
    ensures { IsTrue result ↔ (slice_cmp nat_cmp first.now second.now ≡ Ordering.Less) }
{
    matches!(first.cmp(second), Ordering::Less)
}

/// The lesser of two texts that may be missing.
fn lesser<'a>(first: Option<&'a [u8]>, second: Option<&'a [u8]>) -> Option<&'a [u8]>
    ensures { option_copied result ≡ lesser (option_copied first.entry) (option_copied second.entry) }
{
    match (first, second) {
        (Some(one), Some(other)) => {
            if is_before(other, one) {
                Some(other)
            } else {
                Some(one)
            }
        }
        (None, _) => second,
        (_, None) => first,
    }
}

/// The lesser of a text that may be missing and another one, which counts where it is marked.
fn lesser_if<'a>(marked: bool, least: Option<&'a [u8]>, text: &'a [u8]) -> Option<&'a [u8]>
    ensures { option_copied result ≡ (if marked then lesser (option_copied least.entry) (Some text.now) else option_copied least.entry) }
{
    if marked {
        lesser(least, Some(text))
    } else {
        least
    }
}

/// The lesser of two texts, which are owned and may be missing.
pub fn lesser_text(first: Option<Text>, second: Option<Text>) -> Option<Text>
    ensures { result ≡ lesser first second }
{
    match (first, second) {
        (Some(one), Some(other)) => {
            if is_before(other.as_bytes(), one.as_bytes()) {
                Some(other)
            } else {
                Some(one)
            }
        }
        (None, second) => second,
        (first, None) => first,
    }
}

/// The least of what is shown of the subjects that are marked.
fn least_bytes<'a>(topic: Topic, subjects: &'a Texts<'_>, marks: &[bool]) -> Option<&'a [u8]>
    requires { length marks.now ≤ length subjects.now }
    ensures { IsLeastOf (IsMarkedText topic subjects.now marks.now) (option_copied result) }
{
    let mut least = None;
    for at in 0..marks.len() {
        least = lesser_if(marks[at], least, shown(topic, subjects.get(at)));
    }
    least
}

/// The least of what is shown of the subjects that are marked.
pub fn least_marked(
    alloc: Global,
    topic: Topic,
    subjects: &Texts<'_>,
    marks: &[bool],
) -> Result<Option<Text>, Memory>
    requires { length marks.now ≤ length subjects.now }
    ensures { IfOk result (IsLeastOf (IsMarkedText topic subjects.now marks.now)) }
{
    match least_bytes(topic, subjects, marks) {
        Some(least) => Ok(Some(Text::from_bytes(alloc, least)?)),
        None => Ok(None),
    }
}

//! The kinds of lines.

ghost use Rattle.std.specs.Prelude.{◌≡◌};
ghost use Rattle.vf_manifest.specs.Reading.{kind_of};

use crate::words::is_text;

/// The kind of a line.
#[derive(Clone, Copy, Debug, PartialEq, Eq)]
pub enum Kind {
    Body,
    Calls,
    Claims,
    Instance,
    Provides,
    Requires,
    Struct,
    Uses,
}

/// The kind of a line by its first word.
pub fn kind_of(word: &[u8]) -> Option<Kind>
    ensures { result ≡ kind_of word.now }
{
    if is_text(word, ".body") {
        Some(Kind::Body)
    } else if is_text(word, ".calls") {
        Some(Kind::Calls)
    } else if is_text(word, ".claims") {
        Some(Kind::Claims)
    } else if is_text(word, ".instance") {
        Some(Kind::Instance)
    } else if is_text(word, ".provides") {
        Some(Kind::Provides)
    } else if is_text(word, ".requires") {
        Some(Kind::Requires)
    } else if is_text(word, ".struct") {
        Some(Kind::Struct)
    } else if is_text(word, ".uses") {
        Some(Kind::Uses)
    } else {
        None
    }
}

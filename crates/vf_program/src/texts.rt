//! Lists of texts.

ghost use Rattle.std.specs.Prelude.{◌≡◌, ◌++◌, OnOk};

use vf_base::{Memory, Sequence, Text};

/// Puts texts at the end of others.
pub fn push_texts(texts: &mut Sequence<Text>, more: &Sequence<Text>) -> Result<(), Memory>
    ensures { OnOk result (texts.new ≡ texts.old ++ more.now) }
{
    for text in more.as_slice() {
        texts.push(text.copy()?)?;
    }
    Ok(())
}

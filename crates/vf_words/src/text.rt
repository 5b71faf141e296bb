//! Words as text.

ghost use Rattle.std.specs.Prelude.{◌≡◌, All, IfOk, IsUtf8};
ghost use Rattle.vf_words.specs.Commands.{owned};
ghost use Rattle.vf_words.specs.Positionals.{texts};

use std::alloc::Global;
use vf_base::Memory;

/// The texts of words, in order.
pub fn texts_of<'a>(alloc: Global, words: &'a [String]) -> Result<Vec<&'a str>, Memory>
    ensures same { IfOk result (λ r. texts r.items ≡ owned words.now) }
    ensures text { IfOk result (λ r. All (λ w. IsUtf8 w.now) r.items) }
{
    let mut texts = Vec::new(alloc);
    for word in words {
        texts.push(word.as_str())?;
    }
    Ok(texts)
}

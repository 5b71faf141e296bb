//! Where texts are mentioned first.

ghost use Rattle.std.specs.Prelude.{◌≡◌, ◌<◌, ◌≤◌, ◌↔◌, IsTrue, map, get_or, length, IfOk, []};
ghost use Rattle.vf_link.specs.Statements.{place};

use crate::texts::Texts;
use indexmap::IndexMap;
use std::alloc::Global;
use vf_base::Memory;

/// Whether a text is mentioned first at this place, which lies before it. What one manifest requires of another mostly
/// stands there in the same order, so the place behind the last one that was found is tried before all others.
fn is_first(texts: &Texts<'_>, firsts: &[usize], place: usize, text: &[u8]) -> bool
    requires { length firsts.now ≤ length texts.now }
    ensures { IsTrue result ↔ ((place < length firsts.now) × (get_or firsts.now place 0 ≡ place) × (get_or texts.now place [] ≡ text.now)) }
{
    place < firsts.len() && firsts[place] == place && texts.get(place) == text
}

/// For each text the index of the first one that is the same. There is room for so many different ones at once.
pub fn firsts(alloc: Global, texts: &Texts<'_>, room: usize) -> Result<Vec<usize>, Memory>
    ensures { IfOk result (λ f. f.items ≡ map (place texts.now) texts.now) }
{
    let mut places: IndexMap<&[u8], usize> = IndexMap::with_capacity(alloc, room)?;
    let mut firsts = Vec::with_capacity(alloc, texts.len())?;
    let mut guess = 0;
    for at in 0..texts.len() {
        let text = texts.get(at);
        if is_first(texts, firsts.as_slice(), guess, text) {
            firsts.push(guess)?;
            guess = guess.saturating_add(1);
        } else {
            match places.insert(text, at)? {
                None => firsts.push(at)?,
                Some(first) => {
                    places.insert(text, first)?;
                    firsts.push(first)?;
                    guess = first.saturating_add(1);
                }
            }
        }
    }
    Ok(firsts)
}

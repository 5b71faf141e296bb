//! Lists of texts that are lent.

ghost use Rattle.std.specs.Prelude.{◌≡◌, ◌<◌, ◌∷◌, ◌++◌, [], length, get_or, OnOk};

use std::alloc::Global;
use std::marker::Model;
use vf_base::Memory;

/// Texts, in order, which contracts see as the list of them. All are lent.
#[derive(Drop)]
pub struct Texts<'a> {
    texts: Vec<&'a [u8]>,
}

impl<'a> Model for Texts<'a> {
    ghost use Rattle.std.specs.Prelude.{ℕ, List, map};

    ghost Value = { List (List ℕ) };

    ghost view = { λ t. map (λ text. text.now) t.texts.items };
}

impl<'a> Texts<'a> {
    /// No texts, which take no memory.
    pub fn new(alloc: Global) -> Texts<'a>
        ensures { result ≡ [] }
    {
        Texts {
            texts: Vec::new(alloc),
        }
    }

    /// How many there are.
    pub fn len(&self) -> usize
        ensures { result ≡ length self.now }
    {
        self.texts.len()
    }

    /// The text at an index, counted from 0.
    pub fn get(&self, at: usize) -> &[u8]
        requires { at < length self.now }
        ensures { result.now ≡ get_or self.now at [] }
    {
        self.texts[at]
    }

    /// Adds a text.
    pub fn push(&mut self, text: &'a [u8]) -> Result<(), Memory>
        ensures { OnOk result (self.new ≡ self.old ++ text.now ∷ []) }
    {
        self.texts.push(text)?;
        Ok(())
    }

    /// Adds some texts, of which none is left in the other list.
    pub fn append(&mut self, texts: &mut Texts<'a>) -> Result<(), Memory>
        ensures { OnOk result (self.new ≡ self.old ++ texts.old) }
    {
        self.texts.append(&mut texts.texts)?;
        Ok(())
    }
}

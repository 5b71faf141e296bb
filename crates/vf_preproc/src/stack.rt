//! Macros that are being replaced, one within another.

ghost use Rattle.std.specs.Prelude.{◌≡◌, [], ◌∷◌, ◌++◌, false, length, reverse, nat_eq, OnOk, MatchOption};
ghost use Rattle.std.specs.List.{list_any};
ghost use Rattle.vf_preproc.specs.Frames.{numbers_of, Tops};

use std::alloc::Global;
use std::collections::BTreeSet;
use std::marker::Model;
use std::rc::Rc;
use vf_base::Memory;
use vf_lexer::TokenList;

/// A macro that is being replaced.
#[derive(Drop)]
pub struct Frame {
    /// The macro's number.
    pub number: usize,
    pub body: Rc<TokenList>,
    /// How many of its tokens were taken already.
    pub at: usize,
}

/// Macros that are being replaced, none of them twice. Contracts see the list of them, the innermost at its end.
///
/// Whether a macro is one of them is found in logarithmic time.
#[derive(Drop)]
pub struct Stack {
    frames: Vec<Frame>,
    numbers: BTreeSet<usize>,
}

impl Model for Stack {
    ghost use Rattle.std.specs.Prelude.{List, reverse};
    ghost use Rattle.vf_preproc.specs.declared.stack.Frame.{Frame};
    ghost use Rattle.vf_preproc.specs.Marks.{AreMarked, marks_of};

    ghost Value = { List Frame };

    ghost view = { λ s. s.frames.items };

    ghost invariant = { λ s. AreMarked s.numbers (marks_of s.frames.items) };
}

impl Stack {
    /// No macros, which takes no memory.
    pub fn new(alloc: Global) -> Stack
        ensures { result ≡ [] }
    {
        Stack {
            frames: Vec::new(alloc),
            numbers: BTreeSet::new(alloc),
        }
    }

    /// How many macros there are.
    pub fn len(&self) -> usize
        ensures { result ≡ length self.now }
    {
        self.frames.len()
    }

    /// Whether the macro with a number is one of them.
    pub fn has(&self, number: usize) -> bool
        ensures { result ≡ list_any (nat_eq number) (numbers_of (reverse self.now)) }
    {
        self.numbers.contains(&number)
    }

    /// Puts a macro that is none of them to the innermost place.
    pub fn push(&mut self, frame: Frame) -> Result<(), Memory>
        requires { list_any (nat_eq frame.number) (numbers_of (reverse self.old)) ≡ false }
        ensures { OnOk result (self.new ≡ self.old ++ frame ∷ []) }
    {
        let number = frame.number;
        self.frames.push(frame)?;
        match self.numbers.insert(number) {
            Ok(_) => Ok(()),
            Err(_) => {
                let _last = self.frames.pop();
                Err(Memory)
            }
        }
    }

    /// Takes the innermost macro.
    pub fn pop(&mut self) -> Option<Frame>
        ensures { MatchOption result (self.old ≡ []) (λ frame. Tops frame self.old self.new) }
    {
        let frame = self.frames.pop()?;
        let _was = self.numbers.remove(&frame.number);
        Some(frame)
    }
}

//! Tables of macros.

ghost use Rattle.std.specs.Prelude.{◌≡◌, None, OnOk, is_some};
ghost use Rattle.vf_names.specs.Names.{number_of};
ghost use Rattle.vf_preproc.specs.Macros.{no_macros, with_macro, body_of, body};
ghost use Rattle.vf_preproc.specs.Directives.{is_alike};
ghost use Rattle.vf_preproc.specs.Kept.{table_of};

use crate::words::is_alike;
use std::alloc::Global;
use std::rc::Rc;
use vf_base::{Memory, Sequence};
use vf_lexer::{Token, TokenList};
use vf_names::Names;

/// Macros in the order of their definitions, each with the tokens that replace its name.
#[derive(Drop)]
pub struct Macros {
    pub names: Names,
    pub bodies: Sequence<Rc<TokenList>>,
}

impl Macros {
    /// No macros.
    pub fn new(alloc: Global) -> Macros
        ensures { table_of result ≡ no_macros }
    {
        Macros {
            names: Names::new(alloc),
            bodies: Sequence::new(alloc),
        }
    }

    /// Defines a macro that is not defined yet.
    pub fn define(&mut self, name: &[u8], body: Rc<TokenList>) -> Result<(), Memory>
        requires { number_of self.old.names name.now ≡ None }
        ensures { OnOk result (table_of self.new ≡ with_macro (table_of self.old) name.now body.value) }
    {
        self.names.put(name)?;
        self.bodies.push(body)?;
        Ok(())
    }

    /// Whether a name is defined.
    pub fn has(&self, name: &[u8]) -> bool
        ensures { result ≡ is_some (body_of (table_of self.now) name.now) }
    {
        self.names.number(name).is_some()
    }

    /// Whether the tokens of the macro with a number look like these.
    pub fn has_body(&self, number: usize, tokens: &[Token]) -> bool
        ensures { result ≡ is_alike (body (table_of self.now) number) tokens.now }
    {
        match self.bodies.get(number) {
            Some(body) => is_alike(body.as_slice(), tokens),
            None => tokens.is_empty(),
        }
    }
}

//! What is made of a unit.

ghost use Rattle.std.specs.Prelude.{◌≡◌, ◌<◌, ◌++◌, ◌∷◌, [], None, length, IfOk, OnOk};
ghost use Rattle.vf_names.specs.Names.{number_of};
ghost use Rattle.vf_preproc.specs.Units.{unit_of};
ghost use Rattle.vf_preproc.specs.Scopes.{header_of};
ghost use Rattle.vf_preproc.specs.UnitText.{begun, completed};

use crate::name_table::NameTable;
use crate::scope::{Header, names_in};
use std::alloc::Global;
use vf_base::{Memory, NumberList};
use vf_lexer::{Token, TokenList};
use vf_names::Names;

/// What was made of a unit so far.
#[derive(Drop)]
pub struct Unit {
    pub alloc: Global,
    /// Its tokens, up to the 200,001st.
    pub tokens: TokenList,
    /// The files that were begun, the first of which is the one that the unit is of.
    pub paths: Names,
    /// The names that stand in each of them.
    pub names: NameTable,
    /// The header that each of these files is, once it is complete.
    pub complete: Vec<Option<Header>>,
    /// The numbers of the headers in the order of their first includes.
    pub headers: NumberList,
    /// How many tokens of macros may still be looked at.
    pub budget: u64,
}

impl Unit {
    /// Begins a header with some tokens, and gives its number among the files.
    pub fn begin(&mut self, path: &[u8], number: u32, tokens: &[Token]) -> Result<usize, Memory>
        requires { number_of self.old.paths path.now ≡ None }
        ensures begun { OnOk result (unit_of self.new ≡ begun (record (unit_of self.old) { headers = self.old.headers ++ number ∷ [] }) path.now tokens.now) }
        ensures number { IfOk result (λ n. n ≡ length self.old.paths) }
        ensures tokens { self.new.tokens ≡ self.old.tokens }
    {
        let index = self.paths.len();
        self.paths.put(path)?;
        self.names.push(names_in(self.alloc, tokens)?)?;
        self.complete.push(None)?;
        self.headers.push(u64::from(number))?;
        Ok(index)
    }

    /// A header is complete.
    pub fn complete(&mut self, index: usize, header: Header)
        requires { index < length self.old.complete.items }
        ensures completed { unit_of self.new ≡ completed index (unit_of self.old) (header_of header) }
        ensures tokens { self.new.tokens ≡ self.old.tokens }
    {
        self.complete[index] = Some(header);
    }
}

//! Heads.

ghost use Rattle.std.specs.Prelude.{◌≡◌, IfOk};
ghost use Rattle.vf_model.specs.Values.{same_identity};
ghost use Rattle.vf_meaning.specs.Chunks.{primitive};
ghost use Rattle.vf_chunk.specs.Heads.{is_bare, is_one_name, is_location, is_primitive, is_row, is_of_rows};

use std::alloc::Global;
use vf_base::{Memory, Text};
use vf_formula::TermList;

/// What a chunk is of, but for its head terms.
#[derive(Debug, Drop)]
pub enum HeadName {
    /// A cell of a struct, by the struct's identity and the field's number.
    Cell(Text, u32),
    /// The block of a struct.
    Block(Text),
    /// A predicate, or a constructor of predicates.
    Predicate(Text),
    /// A family of predicates.
    Family(Text),
    /// A predicate value that names no predicate.
    Value,
}

/// What a chunk is of. Its terms are the first arguments of a constructor of predicates, the index of a family, and a
/// predicate value that names no predicate.
#[derive(Debug, Drop)]
pub struct Head {
    pub name: HeadName,
    pub terms: TermList,
}

/// Whether two identities are one.
fn same(first: &Text, second: &Text) -> bool
    ensures { result ≡ same_identity first.now second.now }
{
    first.as_bytes() == second.as_bytes()
}

/// Whether a predicate is that of rows of int cells.
fn is_of_int_cells(predicate: &[u8]) -> bool
    ensures { result ≡ is_row (primitive predicate.now) }
{
    if predicate == b"<threading.h>#mutex".as_slice() {
        false
    } else if predicate == b"<threading.h>#mutex_held".as_slice() {
        false
    } else if predicate == b"<threading.h>#thread".as_slice() {
        false
    } else if predicate == b"<vf_arrays.h>#malloc_block_ints".as_slice() {
        false
    } else {
        predicate == b"<vf_arrays.h>#ints".as_slice()
    }
}

/// Whether a predicate is one of the prelude's without a body.
fn is_of_locations(predicate: &[u8]) -> bool
    ensures { result ≡ is_location (primitive predicate.now) }
{
    predicate == b"<threading.h>#mutex".as_slice()
        || predicate == b"<threading.h>#mutex_held".as_slice()
        || predicate == b"<threading.h>#thread".as_slice()
        || predicate == b"<vf_arrays.h>#malloc_block_ints".as_slice()
        || predicate == b"<vf_arrays.h>#ints".as_slice()
}

impl HeadName {
    /// The same name again.
    pub fn copy(&self) -> Result<HeadName, Memory>
        ensures { IfOk result (λ h. h ≡ self.now) }
    {
        match self {
            HeadName::Cell(structure, index) => Ok(HeadName::Cell(structure.copy()?, *index)),
            HeadName::Block(structure) => Ok(HeadName::Block(structure.copy()?)),
            HeadName::Predicate(name) => Ok(HeadName::Predicate(name.copy()?)),
            HeadName::Family(name) => Ok(HeadName::Family(name.copy()?)),
            HeadName::Value => Ok(HeadName::Value),
        }
    }

    /// Whether two names are one.
    pub fn is_one_with(&self, other: &HeadName) -> bool
        ensures { result ≡ is_one_name self.now other.now }
    {
        match self {
            HeadName::Cell(structure, index) => match other {
                HeadName::Cell(also, place) => same(structure, also) && *index == *place,
                _ => false,
            },
            HeadName::Block(structure) => match other {
                HeadName::Block(also) => same(structure, also),
                _ => false,
            },
            HeadName::Predicate(name) => match other {
                HeadName::Predicate(also) => same(name, also),
                _ => false,
            },
            HeadName::Family(name) => match other {
                HeadName::Family(also) => same(name, also),
                _ => false,
            },
            HeadName::Value => match other {
                HeadName::Value => true,
                _ => false,
            },
        }
    }

    /// Whether chunks of it with one first argument are shares of one location.
    pub fn is_primitive(&self) -> bool
        ensures { result ≡ is_primitive self.now }
    {
        match self {
            HeadName::Cell(_, _) => true,
            HeadName::Block(_) => true,
            HeadName::Predicate(name) => is_of_locations(name.as_bytes()),
            _ => false,
        }
    }

    /// Whether it is that of rows of int cells.
    pub fn is_of_rows(&self) -> bool
        ensures { result ≡ is_of_rows self.now }
    {
        match self {
            HeadName::Predicate(name) => is_of_int_cells(name.as_bytes()),
            _ => false,
        }
    }
}

impl Head {
    /// The same head again.
    pub fn copy(&self, alloc: Global) -> Result<Head, Memory>
        ensures { IfOk result (λ h. h ≡ self.now) }
    {
        Ok(Head {
            name: self.name.copy()?,
            terms: self.terms.copy(alloc)?,
        })
    }

    /// Whether it has no head terms.
    pub fn is_bare(&self) -> bool
        ensures { result ≡ is_bare self.now }
    {
        self.terms.is_empty()
    }
}

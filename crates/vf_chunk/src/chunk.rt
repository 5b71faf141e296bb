//! Chunks.

ghost use Rattle.std.specs.Prelude.{◌≡◌, false, drop, IfOk, IsErrOf, IsTrue, OnOk};
ghost use Rattle.vf_meaning.specs.Fractions.{sum};
ghost use Rattle.vf_fractions.specs.Kept.{has_form};
ghost use Rattle.vf_fractions.specs.Arithmetic.{difference};
ghost use Rattle.vf_chunk.specs.Chunks.{part_of, rest_of, merged, merged_argument, merged_first, merged_arguments};

use crate::head::Head;
use crate::share::Share;
use std::alloc::Global;
use vf_base::{Memory, Sequence};
use vf_formula::Term;
use vf_fractions::Dyadic;

/// An argument of a chunk.
#[derive(Debug, Drop)]
pub enum Argument {
    Known(Term),
    /// Content that is not known.
    Unknown,
}

/// Arguments in their order.
pub type ArgumentList = Sequence<Argument>;

/// Where a chunk comes from, for lemmas that call themselves.
#[derive(Clone, Copy, Debug, PartialEq, Eq)]
pub enum Origin {
    /// Elsewhere.
    Other,
    /// The first part of the precondition.
    First,
    /// A first chunk that was opened, or one that came of opening it.
    Opened,
}

/// A chunk: a share of what a head is of, at arguments.
#[derive(Debug, Drop)]
pub struct Chunk {
    pub head: Head,
    pub share: Share,
    pub arguments: ArgumentList,
    pub origin: Origin,
}

/// Why a chunk is not split or merged.
#[derive(Clone, Copy, Debug, PartialEq, Eq)]
pub enum FractionFault {
    /// A fraction has no form.
    Fraction,
    Memory,
}

impl From<Memory> for FractionFault {
    ghost use Rattle.std.specs.Prelude.{◌≡◌};
    ghost use Rattle.vf_chunk.specs.declared.chunk.FractionFault.TheVariants as faults;

    ghost from_gives = { λ _ e. e ≡ faults.Memory };

    fn from(_: Memory) -> FractionFault {
        FractionFault::Memory
    }
}

impl Argument {
    /// The same argument again.
    pub fn copy(&self, alloc: Global) -> Result<Argument, Memory>
        ensures { IfOk result (λ a. a ≡ self.now) }
    {
        match self {
            Argument::Known(term) => Ok(Argument::Known(term.copy(alloc)?)),
            Argument::Unknown => Ok(Argument::Unknown),
        }
    }
}

/// The same arguments again.
fn copied(alloc: Global, arguments: &ArgumentList) -> Result<ArgumentList, Memory>
    ensures { IfOk result (λ l. l ≡ arguments.now) }
{
    let mut copies = Sequence::new(alloc);
    for argument in arguments.as_slice() {
        copies.push(argument.copy(alloc)?)?;
    }
    Ok(copies)
}

impl Chunk {
    /// The same chunk again.
    pub fn copy(&self, alloc: Global) -> Result<Chunk, Memory>
        ensures { IfOk result (λ c. c ≡ self.now) }
    {
        Ok(Chunk {
            head: self.head.copy(alloc)?,
            share: self.share.copy(alloc)?,
            arguments: copied(alloc, &self.arguments)?,
            origin: self.origin,
        })
    }

    /// The same chunk with another fraction in its share.
    fn with_coefficient(&self, alloc: Global, coefficient: Dyadic) -> Result<Chunk, Memory>
        ensures { IfOk result (λ c. c ≡ part_of self.now coefficient) }
    {
        Ok(Chunk {
            head: self.head.copy(alloc)?,
            share: Share {
                coefficient,
                factors: self.share.factors.copy(alloc)?,
            },
            arguments: copied(alloc, &self.arguments)?,
            origin: self.origin,
        })
    }
}

/// A chunk in two: the part with a fraction, and what is left.
pub fn split(
    alloc: Global,
    chunk: &Chunk,
    coefficient: Dyadic,
) -> Result<(Chunk, Chunk), FractionFault>
    ensures parts { IfOk result (λ p. p ≡ (part_of chunk.now coefficient, rest_of chunk.now coefficient)) }
    ensures form { OnOk result (IsTrue (has_form (difference chunk.now.share.coefficient coefficient))) }
    ensures fraction { IsErrOf result FractionFault.Fraction → has_form (difference chunk.now.share.coefficient coefficient) ≡ false }
{
    match chunk.share.coefficient.minus(coefficient) {
        Some(left) => {
            let part = chunk.with_coefficient(alloc, coefficient)?;
            let rest = chunk.with_coefficient(alloc, left)?;
            Ok((part, rest))
        }
        None => Err(FractionFault::Fraction),
    }
}

/// An argument of two merged chunks.
fn merged_argument(alloc: Global, older: &Argument, younger: &Argument) -> Result<Argument, Memory>
    ensures { IfOk result (λ a. a ≡ merged_argument older.now younger.now) }
{
    match older {
        Argument::Known(_) => older.copy(alloc),
        Argument::Unknown => younger.copy(alloc),
    }
}

/// An argument merged with that of others at an index, if there is one.
#[tactic(auto, using(crate::proofs::Merged::first_there, crate::proofs::Merged::first_past))]
fn merged_first(
    alloc: Global,
    older: &Argument,
    younger: &[Argument],
    index: usize,
) -> Result<Argument, Memory>
    ensures { IfOk result (λ a. a ≡ merged_first older.now (drop index younger.now)) }
{
    if index < younger.len() {
        merged_argument(alloc, older, &younger[index])
    } else {
        older.copy(alloc)
    }
}

/// The arguments of two merged chunks.
#[tactic(auto, using(crate::proofs::Merged::merged_step, crate::proofs::Merged::merged_end))]
fn merged_arguments(
    alloc: Global,
    older: &[Argument],
    younger: &[Argument],
) -> Result<ArgumentList, Memory>
    ensures { IfOk result (λ l. l ≡ merged_arguments older.now younger.now) }
{
    let mut all = Sequence::new(alloc);
    for index in 0..older.len() {
        all.push(merged_first(alloc, &older[index], younger, index)?)?;
    }
    Ok(all)
}

/// Two chunks as one: the older takes in the younger.
pub fn merge(alloc: Global, older: &Chunk, younger: &Chunk) -> Result<Chunk, FractionFault>
    ensures merged { IfOk result (λ c. c ≡ merged older.now younger.now) }
    ensures form { OnOk result (IsTrue (has_form (sum older.now.share.coefficient younger.now.share.coefficient))) }
    ensures fraction { IsErrOf result FractionFault.Fraction → has_form (sum older.now.share.coefficient younger.now.share.coefficient) ≡ false }
{
    match older.share.coefficient.plus(younger.share.coefficient) {
        Some(coefficient) => Ok(Chunk {
            head: older.head.copy(alloc)?,
            share: Share {
                coefficient,
                factors: older.share.factors.copy(alloc)?,
            },
            arguments: merged_arguments(
                alloc,
                older.arguments.as_slice(),
                younger.arguments.as_slice(),
            )?,
            origin: Origin::Other,
        }),
        None => Err(FractionFault::Fraction),
    }
}

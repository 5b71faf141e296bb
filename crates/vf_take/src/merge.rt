//! Two chunks of one location.

ghost use Rattle.std.specs.Prelude.{◌≡◌, ◌<◌, IfOk, length, drop};
ghost use Rattle.vf_asking.specs.Course.{Says};
ghost use Rattle.vf_asking.specs.Journal.{Grew, HasNode, path_at, seen};
ghost use Rattle.vf_take.specs.Results.{Gives};
ghost use Rattle.vf_take.specs.Usable.{ArgumentCanBeCompared, ArgumentsCanBeCompared, ChunkCanBeCompared, known_at};
ghost use Rattle.vf_take.specs.Merges.{arguments_equal, may_join, rows_join, joins, learns_one, learns, merged_by, merges};

use crate::fits::{known_at, refused};
use crate::wanted::Places;
use std::alloc::Global;
use vf_asking::Asker;
use vf_base::{Place, Rule, RuleFault};
use vf_chunk::{Argument, Chunk, FractionFault, merge};
use vf_equality::{are_equal, learn_equal};
use vf_trail::Node;

/// Whether two arguments are there, known, and equal.
#[tactic(auto, using(crate::proofs::Joining::comparing))]
fn are_arguments_equal<A: Asker>(
    alloc: Global,
    asker: &mut A,
    at: Node,
    first: &[Argument],
    second: &[Argument],
    index: usize,
    place: Place,
) -> Result<bool, RuleFault>
    requires begun { 0 < length (A.journal asker.old).units }
    requires there { HasNode (A.journal asker.old) at }
    requires first { ArgumentsCanBeCompared first.now }
    requires second { ArgumentsCanBeCompared second.now }
    ensures says { Says (arguments_equal place (path_at (A.journal asker.old) at) (known_at first.now index) (known_at second.now index)) (λ yes. yes)
        (seen (A.journal asker.old)) (seen (A.journal asker.new)) result }
    ensures grew { Grew (A.journal asker.old) (A.journal asker.new) }
    ensures origin { A.origin asker.new ≡ A.origin asker.old }
{
    match known_at(first, index) {
        Some(left) => match known_at(second, index) {
            Some(right) => {
                let equal = are_equal(alloc, asker, at, left, right, place)?;
                Ok(equal)
            }
            None => Ok(false),
        },
        None => Ok(false),
    }
}

/// Whether two chunks may be of one location.
fn may_join(older: &Chunk, younger: &Chunk) -> bool
    ensures { result ≡ may_join older.now younger.now }
{
    younger.head.name.is_one_with(&older.head.name)
        && older.head.is_bare()
        && younger.head.is_bare()
        && younger.share.is_of_one_product(&older.share)
}

/// Whether an older chunk takes in a younger one.
#[tactic(auto, using(crate::proofs::Joining::joining))]
pub(crate) fn is_joined<A: Asker>(
    alloc: Global,
    asker: &mut A,
    at: Node,
    older: &Chunk,
    younger: &Chunk,
    place: Place,
) -> Result<bool, RuleFault>
    requires begun { 0 < length (A.journal asker.old).units }
    requires there { HasNode (A.journal asker.old) at }
    requires older { ChunkCanBeCompared older.now }
    requires younger { ChunkCanBeCompared younger.now }
    ensures says { Says (joins place (path_at (A.journal asker.old) at) older.now younger.now) (λ yes. yes)
        (seen (A.journal asker.old)) (seen (A.journal asker.new)) result }
    ensures grew { Grew (A.journal asker.old) (A.journal asker.new) }
    ensures origin { A.origin asker.new ≡ A.origin asker.old }
{
    if !may_join(older, younger) {
        return Ok(false);
    }
    let first = younger.arguments.as_slice();
    let second = older.arguments.as_slice();
    let pointers = are_arguments_equal(alloc, asker, at, first, second, 0, place)?;
    if !pointers {
        return Ok(false);
    }
    if !older.head.name.is_of_rows() {
        return Ok(true);
    }
    let lengths = are_arguments_equal(alloc, asker, at, first, second, 1, place)?;
    Ok(lengths)
}

/// Hangs on a node that two arguments are equal, where both are known.
#[tactic(auto, using(crate::proofs::Joining::learning_one))]
fn learn_argument<A: Asker>(
    alloc: Global,
    asker: &mut A,
    at: Node,
    older: &Argument,
    younger: &Argument,
    place: Place,
) -> Result<Node, RuleFault>
    requires begun { 0 < length (A.journal asker.old).units }
    requires there { HasNode (A.journal asker.old) at }
    requires older { ArgumentCanBeCompared older.now }
    requires younger { ArgumentCanBeCompared younger.now }
    ensures says { Says (learns_one place (path_at (A.journal asker.old) at) older.now younger.now)
        (λ node. path_at (A.journal asker.new) node)
        (seen (A.journal asker.old)) (seen (A.journal asker.new)) result }
    ensures node { IfOk result (λ node. HasNode (A.journal asker.new) node) }
    ensures grew { Grew (A.journal asker.old) (A.journal asker.new) }
    ensures origin { A.origin asker.new ≡ A.origin asker.old }
{
    match older {
        Argument::Known(left) => match younger {
            Argument::Known(right) => {
                let node = learn_equal(alloc, asker, at, left, right, place)?;
                Ok(node)
            }
            Argument::Unknown => Ok(at),
        },
        Argument::Unknown => Ok(at),
    }
}

/// Hangs on a node that arguments behind the first are equal, one by one, where both are known.
fn learn_arguments<A: Asker>(
    alloc: Global,
    asker: &mut A,
    at: Node,
    older: &[Argument],
    younger: &[Argument],
    place: Place,
) -> Result<Node, RuleFault>
    requires begun { 0 < length (A.journal asker.old).units }
    requires there { HasNode (A.journal asker.old) at }
    requires older { ArgumentsCanBeCompared older.now }
    requires younger { ArgumentsCanBeCompared younger.now }
    ensures says { Says (learns place (path_at (A.journal asker.old) at) (drop 1 older.now) (drop 1 younger.now))
        (λ node. path_at (A.journal asker.new) node)
        (seen (A.journal asker.old)) (seen (A.journal asker.new)) result }
    ensures node { IfOk result (λ node. HasNode (A.journal asker.new) node) }
    ensures grew { Grew (A.journal asker.old) (A.journal asker.new) }
    ensures origin { A.origin asker.new ≡ A.origin asker.old }
{
    let mut node = at;
    for index in 1..older.len() {
        if index >= younger.len() {
            return Ok(node);
        }
        node = match learn_argument(alloc, asker, node, &older[index], &younger[index], place) {
            Ok(node) => node,
            Err(fault) => return Err(fault),
        };
    }
    Ok(node)
}

/// Two chunks merged, where the sum of their fractions has a form.
fn merged_by(
    alloc: Global,
    older: &Chunk,
    younger: &Chunk,
    statement: Place,
) -> Result<Chunk, RuleFault>
    ensures { Gives (merged_by statement older.now younger.now) (λ c. c) result }
{
    match merge(alloc, older, younger) {
        Ok(chunk) => Ok(chunk),
        Err(FractionFault::Fraction) => Err(refused(Rule::Fraction, statement)),
        Err(FractionFault::Memory) => Err(RuleFault::Memory),
    }
}

/// An older chunk takes in a younger one.
#[tactic(auto, using(crate::proofs::Joining::merging, crate::proofs::Compared::merged_compared))]
pub(crate) fn take_in<A: Asker>(
    alloc: Global,
    asker: &mut A,
    at: Node,
    older: &Chunk,
    younger: &Chunk,
    places: Places,
) -> Result<(Chunk, Node), RuleFault>
    requires begun { 0 < length (A.journal asker.old).units }
    requires there { HasNode (A.journal asker.old) at }
    requires older { ChunkCanBeCompared older.now }
    requires younger { ChunkCanBeCompared younger.now }
    ensures says { Says (merges places (path_at (A.journal asker.old) at) older.now younger.now)
        (λ m. (m.0, path_at (A.journal asker.new) m.1))
        (seen (A.journal asker.old)) (seen (A.journal asker.new)) result }
    ensures chunk { IfOk result (λ m. ChunkCanBeCompared m.0) }
    ensures node { IfOk result (λ m. HasNode (A.journal asker.new) m.1) }
    ensures grew { Grew (A.journal asker.old) (A.journal asker.new) }
    ensures origin { A.origin asker.new ≡ A.origin asker.old }
{
    let node = learn_arguments(
        alloc,
        asker,
        at,
        older.arguments.as_slice(),
        younger.arguments.as_slice(),
        places.name,
    )?;
    let chunk = merged_by(alloc, older, younger, places.statement)?;
    Ok((chunk, node))
}

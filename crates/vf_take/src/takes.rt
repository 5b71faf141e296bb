//! Taking a share of a chunk out of a heap.

ghost use Rattle.std.specs.Prelude.{◌≡◌, ◌<◌, IfOk, IfSome, length, slice_get};
ghost use Rattle.vf_asking.specs.Course.{Says};
ghost use Rattle.vf_asking.specs.Journal.{Grew, HasNode, path_at, seen};
ghost use Rattle.vf_take.specs.Results.{Gives};
ghost use Rattle.vf_take.specs.Usable.{HeapCanBeCompared, TakenCanBeCompared, WantedCanBeCompared};
ghost use Rattle.vf_take.specs.Takes.{taken_at};
ghost use Rattle.vf_take.specs.declared.wanted.Portion.TheVariants.{Part};
ghost use Rattle.vf_take.specs.Merges.{taken_or_merged, takes};

use crate::find::find;
use crate::fits::refused;
use crate::gather::merge_and_take;
use crate::wanted::{Found, Places, Portion, Taken, Wanted};
use std::alloc::Global;
use vf_asking::Asker;
use vf_base::{Rule, RuleFault};
use vf_chunk::{FractionFault, Heap, split};
use vf_fractions::Dyadic;
use vf_trail::Node;

/// A part is taken of the chunk at a place, and what is left stays there.
#[tactic(auto, using(crate::proofs::Kept::taken_kept, crate::proofs::Parting::parting))]
fn take_part(
    alloc: Global,
    heap: Heap,
    at: usize,
    coefficient: Dyadic,
    places: Places,
) -> Result<Taken, RuleFault>
    requires within { at < length heap }
    requires compared { HeapCanBeCompared heap }
    ensures gives { Gives (taken_at places heap at (Part coefficient) (slice_get heap at)) (λ t. t) result }
    ensures kept { IfOk result TakenCanBeCompared }
{
    let mut heap = heap;
    match split(alloc, &heap.as_slice()[at], coefficient) {
        Ok((chunk, rest)) => {
            heap.replace(at, rest);
            Ok(Taken {
                chunk,
                bound: None,
                heap,
            })
        }
        Err(FractionFault::Fraction) => Err(refused(Rule::Fraction, places.statement)),
        Err(FractionFault::Memory) => Err(RuleFault::Memory),
    }
}

/// What fits is taken of the chunk at a place.
#[tactic(auto, using(crate::proofs::Kept::taken_kept, crate::proofs::Parting::parting))]
pub(crate) fn take_portion(
    alloc: Global,
    heap: Heap,
    at: usize,
    portion: Portion,
    places: Places,
) -> Result<Taken, RuleFault>
    requires within { at < length heap }
    requires compared { HeapCanBeCompared heap }
    ensures gives { Gives (taken_at places heap at portion (slice_get heap at)) (λ t. t) result }
    ensures kept { IfOk result TakenCanBeCompared }
{
    match portion {
        Portion::Whole(bound) => {
            let mut heap = heap;
            let chunk = heap.take_out(at);
            Ok(Taken { chunk, bound, heap })
        }
        Portion::Part(coefficient) => take_part(alloc, heap, at, coefficient, places),
    }
}

/// What follows where the oldest chunk that fits was looked for.
#[tactic(auto, using(crate::proofs::Taking::following))]
fn take_found<A: Asker>(
    alloc: Global,
    asker: &mut A,
    at: Node,
    wanted: &Wanted,
    heap: Heap,
    found: Option<Found>,
    places: Places,
) -> Result<(Taken, Node), RuleFault>
    requires begun { 0 < length (A.journal asker.old).units }
    requires there { HasNode (A.journal asker.old) at }
    requires wanted { WantedCanBeCompared wanted.now }
    requires heap { HeapCanBeCompared heap }
    requires within { IfSome found (λ f. f.at < length heap) }
    ensures says { Says (taken_or_merged places (path_at (A.journal asker.old) at) wanted.now heap found)
        (λ t. (t.0, path_at (A.journal asker.new) t.1))
        (seen (A.journal asker.old)) (seen (A.journal asker.new)) result }
    ensures kept { IfOk result (λ t. TakenCanBeCompared t.0) }
    ensures node { IfOk result (λ t. HasNode (A.journal asker.new) t.1) }
    ensures grew { Grew (A.journal asker.old) (A.journal asker.new) }
    ensures origin { A.origin asker.new ≡ A.origin asker.old }
{
    match found {
        Some(found) => {
            let taken = take_portion(alloc, heap, found.at, found.portion, places)?;
            Ok((taken, at))
        }
        None => {
            if !wanted.head.name.is_primitive() {
                return Err(refused(Rule::NoChunk, places.part));
            }
            let taken = merge_and_take(alloc, asker, at, wanted, heap, places)?;
            Ok(taken)
        }
    }
}

/// Takes the wanted share of the oldest chunk that fits, alone or with others that are merged with it, and gives with
/// what is taken the node whose facts are known then.
///
/// # Errors
///
/// Rule 22 where no chunk and no merged chunk fits, 23 where the chunk that fits has unknown content and a value is
/// wanted, 44 where a fraction has no form, and those of questions and facts (42, 41).
#[tactic(auto, using(crate::proofs::Taking::taking))]
pub fn take<A: Asker>(
    alloc: Global,
    asker: &mut A,
    at: Node,
    wanted: &Wanted,
    heap: Heap,
    places: Places,
) -> Result<(Taken, Node), RuleFault>
    requires begun { 0 < length (A.journal asker.old).units }
    requires there { HasNode (A.journal asker.old) at }
    requires wanted { WantedCanBeCompared wanted.now }
    requires heap { HeapCanBeCompared heap }
    ensures says { Says (takes places (path_at (A.journal asker.old) at) wanted.now heap)
        (λ t. (t.0, path_at (A.journal asker.new) t.1))
        (seen (A.journal asker.old)) (seen (A.journal asker.new)) result }
    ensures kept { IfOk result (λ t. TakenCanBeCompared t.0) }
    ensures node { IfOk result (λ t. HasNode (A.journal asker.new) t.1) }
    ensures grew { Grew (A.journal asker.old) (A.journal asker.new) }
    ensures origin { A.origin asker.new ≡ A.origin asker.old }
{
    let found = find(alloc, asker, at, wanted, &heap, places)?;
    let taken = take_found(alloc, asker, at, wanted, heap, found, places)?;
    Ok(taken)
}

//! Merging chunks until one fits.

ghost use Rattle.std.specs.Prelude.{◌≡◌, ◌<◌, ◌∷◌, ◌++◌, [], IfOk, length, slice_get};
ghost use Rattle.vf_asking.specs.Course.{Says};
ghost use Rattle.vf_asking.specs.Journal.{Grew, HasNode, path_at, seen};
ghost use Rattle.vf_take.specs.Results.{Gives};
ghost use Rattle.vf_take.specs.Usable.{ArgumentsCanBeCompared, PatternsCanBeCompared, ChunkCanBeCompared, HeapCanBeCompared, TakenCanBeCompared, WantedCanBeCompared, known_at};
ghost use Rattle.vf_take.specs.Takes.{taken_at};
ghost use Rattle.vf_take.specs.Merges.{gathers_one, gathers, begins, starts, alone, tries_gathered, attempts, merging};

use crate::fits::{known_at, refused, try_chunk};
use crate::merge::{is_joined, take_in};
use crate::takes::take_portion;
use crate::wanted::{Attempt, Gathered, Pattern, Places, Portion, Taken, Wanted};
use std::alloc::Global;
use vf_asking::Asker;
use vf_base::{Place, Rule, RuleFault};
use vf_chunk::{Argument, Chunk, Heap};
use vf_equality::are_equal;
use vf_trail::Node;

/// Whether a first argument is as wanted.
#[tactic(auto, using(crate::proofs::Gathering::beginning))]
fn is_as_wanted<A: Asker>(
    alloc: Global,
    asker: &mut A,
    at: Node,
    arguments: &[Argument],
    patterns: &[Pattern],
    place: Place,
) -> Result<bool, RuleFault>
    requires begun { 0 < length (A.journal asker.old).units }
    requires there { HasNode (A.journal asker.old) at }
    requires arguments { ArgumentsCanBeCompared arguments.now }
    requires patterns { PatternsCanBeCompared patterns.now }
    ensures says { Says (begins place (path_at (A.journal asker.old) at) (known_at arguments.now 0) (slice_get patterns.now 0)) (λ yes. yes)
        (seen (A.journal asker.old)) (seen (A.journal asker.new)) result }
    ensures grew { Grew (A.journal asker.old) (A.journal asker.new) }
    ensures origin { A.origin asker.new ≡ A.origin asker.old }
{
    if patterns.is_empty() {
        return Ok(false);
    }
    match known_at(arguments, 0) {
        Some(term) => match &patterns[0] {
            Pattern::Is(wanted) => {
                let equal = are_equal(alloc, asker, at, term, wanted, place)?;
                Ok(equal)
            }
            Pattern::Name => Ok(true),
            Pattern::Wild => Ok(true),
        },
        None => Ok(false),
    }
}

/// Whether a chunk takes in others.
#[tactic(auto, using(crate::proofs::Gathering::starting))]
fn is_start<A: Asker>(
    alloc: Global,
    asker: &mut A,
    at: Node,
    wanted: &Wanted,
    chunk: &Chunk,
    place: Place,
) -> Result<bool, RuleFault>
    requires begun { 0 < length (A.journal asker.old).units }
    requires there { HasNode (A.journal asker.old) at }
    requires wanted { WantedCanBeCompared wanted.now }
    requires chunk { ChunkCanBeCompared chunk.now }
    ensures says { Says (starts place (path_at (A.journal asker.old) at) wanted.now chunk.now) (λ yes. yes)
        (seen (A.journal asker.old)) (seen (A.journal asker.new)) result }
    ensures grew { Grew (A.journal asker.old) (A.journal asker.new) }
    ensures origin { A.origin asker.new ≡ A.origin asker.old }
{
    if !chunk.head.name.is_one_with(&wanted.head.name) {
        return Ok(false);
    }
    let yes = is_as_wanted(
        alloc,
        asker,
        at,
        chunk.arguments.as_slice(),
        wanted.patterns.as_slice(),
        place,
    )?;
    Ok(yes)
}

/// An older chunk takes in a younger one if it joins it.
#[tactic(auto, using(crate::proofs::Gathering::gathering_one))]
fn gather_one<A: Asker>(
    alloc: Global,
    asker: &mut A,
    at: Node,
    gathered: Gathered,
    next: Chunk,
    places: Places,
) -> Result<(Gathered, Node), RuleFault>
    requires begun { 0 < length (A.journal asker.old).units }
    requires there { HasNode (A.journal asker.old) at }
    requires older { ChunkCanBeCompared gathered.chunk }
    requires stay { HeapCanBeCompared gathered.stay }
    requires younger { ChunkCanBeCompared next }
    ensures says { Says (gathers_one places (path_at (A.journal asker.old) at) gathered next)
        (λ g. (g.0, path_at (A.journal asker.new) g.1))
        (seen (A.journal asker.old)) (seen (A.journal asker.new)) result }
    ensures chunk { IfOk result (λ g. ChunkCanBeCompared g.0.chunk) }
    ensures left { IfOk result (λ g. HeapCanBeCompared g.0.stay) }
    ensures node { IfOk result (λ g. HasNode (A.journal asker.new) g.1) }
    ensures grew { Grew (A.journal asker.old) (A.journal asker.new) }
    ensures origin { A.origin asker.new ≡ A.origin asker.old }
{
    let joined = is_joined(alloc, asker, at, &gathered.chunk, &next, places.statement)?;
    if joined {
        let (chunk, node) = take_in(alloc, asker, at, &gathered.chunk, &next, places)?;
        let gathered = Gathered {
            chunk,
            stay: gathered.stay,
            has_merged: true,
        };
        Ok((gathered, node))
    } else {
        let mut stay = gathered.stay;
        stay.put(next)?;
        let gathered = Gathered {
            chunk: gathered.chunk,
            stay,
            has_merged: gathered.has_merged,
        };
        Ok((gathered, at))
    }
}

/// An older chunk takes in each younger one that it joins.
fn gather<A: Asker>(
    alloc: Global,
    asker: &mut A,
    at: Node,
    chunk: Chunk,
    younger: Heap,
    places: Places,
) -> Result<(Gathered, Node), RuleFault>
    requires begun { 0 < length (A.journal asker.old).units }
    requires there { HasNode (A.journal asker.old) at }
    requires older { ChunkCanBeCompared chunk }
    requires younger { HeapCanBeCompared younger }
    ensures says { Says (gathers places (path_at (A.journal asker.old) at) (alone chunk) younger)
        (λ g. (g.0, path_at (A.journal asker.new) g.1))
        (seen (A.journal asker.old)) (seen (A.journal asker.new)) result }
    ensures chunk { IfOk result (λ g. ChunkCanBeCompared g.0.chunk) }
    ensures left { IfOk result (λ g. HeapCanBeCompared g.0.stay) }
    ensures node { IfOk result (λ g. HasNode (A.journal asker.new) g.1) }
    ensures grew { Grew (A.journal asker.old) (A.journal asker.new) }
    ensures origin { A.origin asker.new ≡ A.origin asker.old }
{
    let mut node = at;
    let mut rest = younger;
    let mut gathered = Gathered {
        chunk,
        stay: Heap::new(alloc),
        has_merged: false,
    };
    while rest.count() > 0 {
        let next = rest.take_first();
        match gather_one(alloc, asker, node, gathered, next, places) {
            Ok(step) => {
                gathered = step.0;
                node = step.1;
            }
            Err(fault) => return Err(fault),
        }
    }
    Ok((gathered, node))
}

/// A chunk that took in others is tried.
#[tactic(auto, using(crate::proofs::Gathering::trying_gathered))]
fn try_gathered<A: Asker>(
    alloc: Global,
    asker: &mut A,
    at: Node,
    wanted: &Wanted,
    gathered: Gathered,
    places: Places,
) -> Result<(Attempt, Node), RuleFault>
    requires begun { 0 < length (A.journal asker.old).units }
    requires there { HasNode (A.journal asker.old) at }
    requires wanted { WantedCanBeCompared wanted.now }
    requires chunk { ChunkCanBeCompared gathered.chunk }
    ensures says { Says (tries_gathered places wanted.now (gathered, path_at (A.journal asker.old) at))
        (λ a. (a.0, path_at (A.journal asker.new) a.1))
        (seen (A.journal asker.old)) (seen (A.journal asker.new)) result }
    ensures gathered { IfOk result (λ a. a.0.gathered ≡ gathered) }
    ensures node { IfOk result (λ a. HasNode (A.journal asker.new) a.1) }
    ensures grew { Grew (A.journal asker.old) (A.journal asker.new) }
    ensures origin { A.origin asker.new ≡ A.origin asker.old }
{
    if !gathered.has_merged {
        let attempt = Attempt {
            gathered,
            portion: None,
        };
        return Ok((attempt, at));
    }
    let portion = try_chunk(alloc, asker, at, wanted, &gathered.chunk, places)?;
    let attempt = Attempt { gathered, portion };
    Ok((attempt, at))
}

/// A chunk with younger ones: what it becomes, and what is taken of it.
#[tactic(auto, using(crate::proofs::Gathering::attempting))]
fn attempt<A: Asker>(
    alloc: Global,
    asker: &mut A,
    at: Node,
    wanted: &Wanted,
    chunk: Chunk,
    younger: Heap,
    places: Places,
) -> Result<(Attempt, Node), RuleFault>
    requires begun { 0 < length (A.journal asker.old).units }
    requires there { HasNode (A.journal asker.old) at }
    requires wanted { WantedCanBeCompared wanted.now }
    requires chunk { ChunkCanBeCompared chunk }
    requires younger { HeapCanBeCompared younger }
    ensures says { Says (attempts places (path_at (A.journal asker.old) at) wanted.now chunk younger)
        (λ a. (a.0, path_at (A.journal asker.new) a.1))
        (seen (A.journal asker.old)) (seen (A.journal asker.new)) result }
    ensures chunk { IfOk result (λ a. ChunkCanBeCompared a.0.gathered.chunk) }
    ensures left { IfOk result (λ a. HeapCanBeCompared a.0.gathered.stay) }
    ensures node { IfOk result (λ a. HasNode (A.journal asker.new) a.1) }
    ensures grew { Grew (A.journal asker.old) (A.journal asker.new) }
    ensures origin { A.origin asker.new ≡ A.origin asker.old }
{
    let starts = is_start(alloc, asker, at, wanted, &chunk, places.statement)?;
    if !starts {
        let gathered = Gathered {
            chunk,
            stay: younger,
            has_merged: false,
        };
        let attempt = Attempt {
            gathered,
            portion: None,
        };
        return Ok((attempt, at));
    }
    let (gathered, node) = gather(alloc, asker, at, chunk, younger, places)?;
    let attempt = try_gathered(alloc, asker, node, wanted, gathered, places)?;
    Ok(attempt)
}

/// What fits is taken of a chunk between older and younger ones.
#[tactic(auto, using(crate::proofs::Results::giving))]
fn take_between(
    alloc: Global,
    before: Heap,
    gathered: Gathered,
    portion: Portion,
    places: Places,
) -> Result<Taken, RuleFault>
    requires older { HeapCanBeCompared before }
    requires chunk { ChunkCanBeCompared gathered.chunk }
    requires younger { HeapCanBeCompared gathered.stay }
    ensures gives { Gives (taken_at places (before ++ gathered.chunk ∷ gathered.stay) (length before) portion (slice_get (before ++ gathered.chunk ∷ gathered.stay) (length before))) (λ t. t) result }
    ensures kept { IfOk result TakenCanBeCompared }
{
    let at = before.count();
    let mut older = before;
    older.put(gathered.chunk)?;
    let heap = gathered.stay.older(older)?;
    take_portion(alloc, heap, at, portion, places)
}

/// Merges chunks, the oldest first, until one fits, and takes what is wanted of it.
pub(crate) fn merge_and_take<A: Asker>(
    alloc: Global,
    asker: &mut A,
    at: Node,
    wanted: &Wanted,
    heap: Heap,
    places: Places,
) -> Result<(Taken, Node), RuleFault>
    requires begun { 0 < length (A.journal asker.old).units }
    requires there { HasNode (A.journal asker.old) at }
    requires wanted { WantedCanBeCompared wanted.now }
    requires heap { HeapCanBeCompared heap }
    ensures says { Says (merging (length heap) places (path_at (A.journal asker.old) at) wanted.now [] heap)
        (λ t. (t.0, path_at (A.journal asker.new) t.1))
        (seen (A.journal asker.old)) (seen (A.journal asker.new)) result }
    ensures kept { IfOk result (λ t. TakenCanBeCompared t.0) }
    ensures node { IfOk result (λ t. HasNode (A.journal asker.new) t.1) }
    ensures grew { Grew (A.journal asker.old) (A.journal asker.new) }
    ensures origin { A.origin asker.new ≡ A.origin asker.old }
{
    let count = heap.count();
    let mut node = at;
    let mut before = Heap::new(alloc);
    let mut rest = heap;
    for round in 0..count {
        if rest.count() == 0 {
            return Err(refused(Rule::NoChunk, places.part));
        }
        let chunk = rest.take_first();
        let (tried, next) = match attempt(alloc, asker, node, wanted, chunk, rest, places) {
            Ok(step) => step,
            Err(fault) => return Err(fault),
        };
        let Attempt { gathered, portion } = tried;
        match portion {
            Some(portion) => match take_between(alloc, before, gathered, portion, places) {
                Ok(taken) => return Ok((taken, next)),
                Err(fault) => return Err(fault),
            },
            None => {}
        }
        let Gathered { chunk, stay, .. } = gathered;
        match before.put(chunk) {
            Ok(()) => {}
            Err(_) => return Err(RuleFault::Memory),
        }
        rest = stay;
        node = next;
    }
    Err(refused(Rule::NoChunk, places.part))
}

//! Reading the content of a cell.

ghost use Rattle.std.specs.Prelude.{◌≡◌, ◌<◌, IfOk, length};
ghost use Rattle.vf_asking.specs.Course.{Says};
ghost use Rattle.vf_asking.specs.Journal.{Grew, HasNode, path_at, seen};
ghost use Rattle.vf_equality.specs.Equality.{CanBeCompared};
ghost use Rattle.vf_take.specs.Results.{Gives};
ghost use Rattle.vf_take.specs.Usable.{ArgumentsCanBeCompared, HeapCanBeCompared, known_at};
ghost use Rattle.vf_take.specs.Reads.{points, content, reads};

use crate::fits::{known_at, refused};
use crate::wanted::Places;
use std::alloc::Global;
use vf_asking::Asker;
use vf_base::{Place, Rule, RuleFault};
use vf_chunk::{Argument, HeadName, Heap, next_of};
use vf_equality::are_equal;
use vf_formula::Term;
use vf_trail::Node;

/// Whether the first of some arguments is a pointer that is equal to another.
#[tactic(auto, using(crate::proofs::Reading::pointing))]
fn is_at<A: Asker>(
    alloc: Global,
    asker: &mut A,
    at: Node,
    pointer: &Term,
    arguments: &[Argument],
    place: Place,
) -> Result<bool, RuleFault>
    requires begun { 0 < length (A.journal asker.old).units }
    requires there { HasNode (A.journal asker.old) at }
    requires pointer { CanBeCompared pointer.now }
    requires arguments { ArgumentsCanBeCompared arguments.now }
    ensures says { Says (points place (path_at (A.journal asker.old) at) pointer.now (known_at arguments.now 0)) (λ yes. yes)
        (seen (A.journal asker.old)) (seen (A.journal asker.new)) result }
    ensures grew { Grew (A.journal asker.old) (A.journal asker.new) }
    ensures origin { A.origin asker.new ≡ A.origin asker.old }
{
    match known_at(arguments, 0) {
        Some(term) => {
            let equal = are_equal(alloc, asker, at, term, pointer, place)?;
            Ok(equal)
        }
        None => Ok(false),
    }
}

/// The content of a cell, where it is known.
fn content(alloc: Global, arguments: &[Argument], place: Place) -> Result<Term, RuleFault>
    requires { ArgumentsCanBeCompared arguments.now }
    ensures { Gives (content place (known_at arguments.now 1)) (λ t. t) result }
{
    match known_at(arguments, 1) {
        Some(term) => Ok(term.copy(alloc)?),
        None => Err(refused(Rule::Unset, place)),
    }
}

/// The content of the oldest cell of a field whose pointer is proved equal, whatever its share.
///
/// # Errors
///
/// Rule 22 where there is no such cell, 23 where its content is not known, and that of questions (42).
pub fn read<A: Asker>(
    alloc: Global,
    asker: &mut A,
    at: Node,
    name: &HeadName,
    pointer: &Term,
    heap: &Heap,
    places: Places,
) -> Result<Term, RuleFault>
    requires begun { 0 < length (A.journal asker.old).units }
    requires there { HasNode (A.journal asker.old) at }
    requires pointer { CanBeCompared pointer.now }
    requires heap { HeapCanBeCompared heap.now }
    ensures says { Says (reads places (path_at (A.journal asker.old) at) name.now pointer.now heap.now) (λ t. t)
        (seen (A.journal asker.old)) (seen (A.journal asker.new)) result }
    ensures grew { Grew (A.journal asker.old) (A.journal asker.new) }
    ensures origin { A.origin asker.new ≡ A.origin asker.old }
{
    let chunks = heap.as_slice();
    let mut place = next_of(heap, name, 0);
    while place < chunks.len() {
        let arguments = chunks[place].arguments.as_slice();
        match is_at(alloc, asker, at, pointer, arguments, places.statement) {
            Ok(true) => match content(alloc, arguments, places.part) {
                Ok(term) => return Ok(term),
                Err(fault) => return Err(fault),
            },
            Ok(false) => {}
            Err(fault) => return Err(fault),
        }
        place = next_of(heap, name, place + 1);
    }
    Err(refused(Rule::NoChunk, places.part))
}

//! The oldest chunk that fits.

ghost use Rattle.std.specs.Prelude.{◌≡◌, ◌<◌, IfOk, IfSome, length};
ghost use Rattle.vf_asking.specs.Course.{Says};
ghost use Rattle.vf_asking.specs.Journal.{Grew, HasNode, path_at, seen};
ghost use Rattle.vf_take.specs.Usable.{HeapCanBeCompared, WantedCanBeCompared};
ghost use Rattle.vf_take.specs.Takes.{finds};

use crate::fits::try_chunk;
use crate::wanted::{Found, Places, Wanted};
use std::alloc::Global;
use vf_asking::Asker;
use vf_base::RuleFault;
use vf_chunk::{Heap, next_of};
use vf_trail::Node;

/// The oldest chunk of the wanted head that fits.
pub(crate) fn find<A: Asker>(
    alloc: Global,
    asker: &mut A,
    at: Node,
    wanted: &Wanted,
    heap: &Heap,
    places: Places,
) -> Result<Option<Found>, RuleFault>
    requires begun { 0 < length (A.journal asker.old).units }
    requires there { HasNode (A.journal asker.old) at }
    requires wanted { WantedCanBeCompared wanted.now }
    requires heap { HeapCanBeCompared heap.now }
    ensures says { Says (finds places (path_at (A.journal asker.old) at) wanted.now heap.now 0) (λ f. f)
        (seen (A.journal asker.old)) (seen (A.journal asker.new)) result }
    ensures within { IfOk result (λ found. IfSome found (λ f. f.at < length heap.now)) }
    ensures grew { Grew (A.journal asker.old) (A.journal asker.new) }
    ensures origin { A.origin asker.new ≡ A.origin asker.old }
{
    let chunks = heap.as_slice();
    let mut place = next_of(heap, &wanted.head.name, 0);
    while place < chunks.len() {
        match try_chunk(alloc, asker, at, wanted, &chunks[place], places) {
            Ok(Some(portion)) => return Ok(Some(Found { at: place, portion })),
            Ok(None) => {}
            Err(fault) => return Err(fault),
        }
        place = next_of(heap, &wanted.head.name, place + 1);
    }
    Ok(None)
}

//! Heaps.

ghost use Rattle.std.specs.Prelude.{◌≡◌, ◌+◌, ◌≤◌, IfOk, length, drop};
ghost use Rattle.vf_chunk.specs.Heaps.{first_of};

use crate::chunk::Chunk;
use crate::head::HeadName;
use crate::queue::Queue;
use std::alloc::Global;
use vf_base::Memory;

/// Chunks in order of age, the oldest first.
pub type Heap = Queue<Chunk>;

/// The place of the oldest chunk with a head's name that is not older than a place, and the count where there is none.
pub fn next_of(heap: &Heap, name: &HeadName, from: usize) -> usize
    requires { from ≤ length heap.now }
    ensures { result ≡ from + first_of name.now (drop from heap.now) }
{
    let chunks = heap.as_slice();
    let mut at = from;
    while at < chunks.len() {
        if chunks[at].head.name.is_one_with(name) {
            return at;
        }
        at += 1;
    }
    at
}

/// The same heap again.
pub fn copied(alloc: Global, heap: &Heap) -> Result<Heap, Memory>
    ensures { IfOk result (λ h. h ≡ heap.now) }
{
    let mut copies = Queue::new(alloc);
    for chunk in heap.as_slice() {
        copies.put(chunk.copy(alloc)?)?;
    }
    Ok(copies)
}

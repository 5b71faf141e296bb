//! Chunks with their shares and heads, and heaps of them.
//!
//! A chunk is of a head (`head`), with a share (`share`) and arguments, of which one may be unknown. Contracts see all of
//! these as the plain data that they are, and a [`Heap`] as the list of its chunks, the oldest first. `Share::over` is
//! the quotient of two shares; `split` and `merge` are what `specs/Chunks.antt` says, each refused exactly where a
//! fraction has no form.
#![tactic(auto)]

mod chunk;
mod head;
mod heap;
mod queue;
mod share;

pub use chunk::{Argument, ArgumentList, Chunk, FractionFault, Origin, merge, split};
pub use head::{Head, HeadName};
pub use heap::{Heap, copied, next_of};
pub use queue::Queue;
pub use share::{Ratio, Share};

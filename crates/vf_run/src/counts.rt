//! How much a state has of what the machine's limits count.

ghost use Rattle.std.specs.Prelude.{◌≡◌, ◌≤◌, ◌+◌, List, Option, ℕ, None, IsFalse, Some};
ghost use Rattle.std.specs.FinMap as finite;
ghost use Rattle.vf_tree.specs.Core.{Identity};
ghost use Rattle.vf_model.specs.Memory as model;
ghost use Rattle.vf_model.specs.State.{State};
ghost use Rattle.vf_engine.specs.Memories.{block_of, memory_of};
ghost use Rattle.vf_run.specs.Counts.{HasCounts, MemoryCounts, SameThreads, Within, ints_in, first_passed};

use vf_engine::{Block, Blocks, Limit};

/// How many blocks, threads and frames there are, and how many cells of arrays of `int`.
#[derive(Clone, Copy, Debug, PartialEq, Eq)]
pub struct Counts {
    pub blocks: usize,
    pub threads: usize,
    pub frames: usize,
    pub cells: u128,
}

/// The first limit that is passed.
pub fn passed_limit(counts: Counts) -> Option<Limit>
    ensures first { (s : State) → HasCounts s counts → result ≡ first_passed s }
    ensures within { result ≡ None → Within counts }
{
    if counts.blocks > 1_048_576 {
        Some(Limit::Blocks)
    } else if counts.threads > 1024 {
        Some(Limit::Threads)
    } else if counts.frames > 65_536 {
        Some(Limit::Frames)
    } else if counts.cells > 4_194_304 {
        Some(Limit::Cells)
    } else {
        None
    }
}

/// How many cells a block has that is an array of `int`.
fn ints_of(block: &Block) -> usize
    ensures { (names : List Identity) → result ≡ ints_in (block_of names block.now) }
{
    match block {
        Block::Ints(cells) => cells.len(),
        Block::Struct { .. } | Block::Mutex(_) | Block::Handle { .. } => 0,
    }
}

/// The counts with one more block than are there, which has so many cells of an array of `int`.
pub fn one_block_more(there: usize, counts: Counts, cells: u128) -> Counts
    requires few { there ≤ 1048576 }
    requires within { counts.cells ≤ 4194304 }
    requires short { cells ≤ 170141183460469231731687303715884105728 }
    ensures memory { (m : model.Memory) (number : ℕ) (block : model.Block) → IsFalse (finite.contains_key m number) → ints_in block ≡ cells
        → finite.len m ≡ there → MemoryCounts m counts → MemoryCounts (finite.insert m number block) result }
    ensures threads { SameThreads counts result }
    ensures blocks { result.blocks ≡ there + 1 }
    ensures cells { result.cells ≡ counts.cells + cells }
{
    Counts {
        blocks: there + 1,
        threads: counts.threads,
        frames: counts.frames,
        cells: counts.cells + cells,
    }
}

/// The counts without the block of a number, where there is one.
pub fn one_block_less(blocks: &Blocks, counts: Counts, number: u32) -> Counts
    ensures memory { (names : List Identity) → MemoryCounts (memory_of names blocks.now) counts → MemoryCounts (finite.remove (memory_of names blocks.now) number) result }
    ensures threads { SameThreads counts result }
{
    match blocks.get(number) {
        None => counts,
        Some(block) => Counts {
            blocks: counts.blocks.saturating_sub(1),
            threads: counts.threads,
            frames: counts.frames,
            cells: counts.cells.saturating_sub(ints_of(block) as u128),
        },
    }
}

/// The counts with a mutex at a number.
pub fn mutex_at(blocks: &Blocks, counts: Counts, number: u32) -> Counts
    requires { Within counts }
    ensures memory { (names : List Identity) (holder : Option ℕ) → MemoryCounts (memory_of names blocks.now) counts → MemoryCounts (finite.insert (memory_of names blocks.now) number (model.Mutex holder)) result }
    ensures threads { SameThreads counts result }
{
    match blocks.get(number) {
        None => Counts {
            blocks: counts.blocks + 1,
            threads: counts.threads,
            frames: counts.frames,
            cells: counts.cells,
        },
        Some(block) => Counts {
            blocks: counts.blocks,
            threads: counts.threads,
            frames: counts.frames,
            cells: counts.cells.saturating_sub(ints_of(block) as u128),
        },
    }
}

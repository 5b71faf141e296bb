//! How many blocks, threads, frames and cells there are after a step.

ghost use Rattle.std.specs.Prelude.{◌≡◌, ◌≢◌, ◌≤◌, ◌+◌, ℕ, IsFalse};
ghost use Rattle.std.specs.FinMap as finite;
ghost use Rattle.vf_model.specs.Memory as model;
ghost use Rattle.vf_core.specs.Shown.{program_of};
ghost use Rattle.vf_engine.specs.States.{state_of};
ghost use Rattle.vf_effects.specs.Rooms.{Fits};
ghost use Rattle.vf_run.specs.Acting.{IsKnown};
ghost use Rattle.vf_run.specs.Counts.{HasCounts, MemoryCounts, SameThreads, Within, ints_in};
ghost use Rattle.vf_run.specs.Changes.{CountsAfter};

use crate::counts::{Counts, mutex_at, one_block_less, one_block_more};
use vf_core::Program;
use vf_engine::{Effect, Running};

/// The counts with one more frame.
fn one_frame_more(counts: Counts) -> Counts
    requires { Within counts }
    ensures { result ≡ record { blocks = counts.blocks; threads = counts.threads; frames = counts.frames + 1; cells = counts.cells } }
{
    Counts {
        blocks: counts.blocks,
        threads: counts.threads,
        frames: counts.frames + 1,
        cells: counts.cells,
    }
}

/// The counts with one frame less.
fn one_frame_less(counts: Counts) -> Counts
    ensures blocks { result.blocks ≡ counts.blocks }
    ensures threads { result.threads ≡ counts.threads }
    ensures frames { (left : ℕ) → left + 1 ≡ counts.frames → result.frames ≡ left }
    ensures cells { result.cells ≡ counts.cells }
{
    Counts {
        blocks: counts.blocks,
        threads: counts.threads,
        frames: counts.frames.saturating_sub(1),
        cells: counts.cells,
    }
}

/// The counts with one more thread than are there, which has one frame.
fn one_thread_more(there: usize, counts: Counts) -> Counts
    requires within { Within counts }
    requires few { there ≤ 1024 }
    ensures { result ≡ record { blocks = counts.blocks; threads = there + 1; frames = counts.frames + 1; cells = counts.cells } }
{
    Counts {
        blocks: counts.blocks,
        threads: there + 1,
        frames: counts.frames + 1,
        cells: counts.cells,
    }
}

/// The counts with one more block, where a grant gives one.
fn granted_block(there: usize, counts: Counts, grant: u32, cells: u128) -> Counts
    requires few { there ≤ 1048576 }
    requires within { counts.cells ≤ 4194304 }
    requires short { cells ≤ 170141183460469231731687303715884105728 }
    ensures denied { grant ≡ 0 → result ≡ counts }
    ensures memory { grant ≢ 0 → (m : model.Memory) (number : ℕ) (block : model.Block) → IsFalse (finite.contains_key m number) → ints_in block ≡ cells
        → finite.len m ≡ there → MemoryCounts m counts → MemoryCounts (finite.insert m number block) result }
    ensures threads { SameThreads counts result }
    ensures blocks { grant ≢ 0 → result.blocks ≡ there + 1 }
    ensures cells { grant ≢ 0 → result.cells ≡ counts.cells + cells }
{
    if grant == 0 {
        counts
    } else {
        one_block_more(there, counts, cells)
    }
}

/// The counts with one more thread and its handle, where a grant gives one.
fn granted_thread(there: usize, threads: usize, counts: Counts, grant: u32) -> Counts
    requires few { there ≤ 1048576 }
    requires within { Within counts }
    requires started { threads ≤ 1024 }
    ensures denied { grant ≡ 0 → result ≡ counts }
    ensures memory { grant ≢ 0 → (m : model.Memory) (number : ℕ) (block : model.Block) → IsFalse (finite.contains_key m number) → ints_in block ≡ 0
        → finite.len m ≡ there → MemoryCounts m counts → MemoryCounts (finite.insert m number block) result }
    ensures blocks { grant ≢ 0 → result.blocks ≡ there + 1 }
    ensures threads { grant ≢ 0 → result.threads ≡ threads + 1 }
    ensures frames { grant ≢ 0 → result.frames ≡ counts.frames + 1 }
{
    if grant == 0 {
        counts
    } else {
        one_block_more(there, one_thread_more(threads, counts), 0)
    }
}

/// The counts of the state after a step that has the effect, by a grant.
pub fn counts_after(
    program: &Program,
    running: &Running,
    counts: Counts,
    grant: u32,
    effect: Effect,
) -> Counts
    requires within { Within counts }
    requires counted { HasCounts (state_of program.now.unit.names running.now) counts }
    ensures counted { (thread : ℕ) → IsKnown (program_of program.now.unit) effect.entry → CountsAfter program.now.unit.names (program_of program.now.unit) running.now thread grant effect.entry result }
    ensures fits { Within result → Fits running.now grant effect.entry }
{
    let there = running.blocks.len();
    let started = running.threads.len();
    match effect {
        Effect::Goto { .. } => counts,
        Effect::Set { .. } => counts,
        Effect::Load { .. } => counts,
        Effect::Store { .. } => counts,
        Effect::Abort => counts,
        Effect::PutChar { .. } => counts,
        Effect::PrintInt { .. } => counts,
        Effect::Wait => counts,
        Effect::Allocate { .. } => granted_block(there, counts, grant, 0),
        Effect::CreateMutex { .. } => granted_block(there, counts, grant, 0),
        Effect::AllocateInts { length, .. } => {
            granted_block(there, counts, grant, length.unsigned_abs())
        }
        Effect::Free { block, .. } => one_block_less(&running.blocks, counts, block),
        Effect::Remove { block, .. } => one_block_less(&running.blocks, counts, block),
        Effect::Acquire { block, .. } => mutex_at(&running.blocks, counts, block),
        Effect::Release { block, .. } => mutex_at(&running.blocks, counts, block),
        Effect::Enter { .. } => one_frame_more(counts),
        Effect::Return(_) => one_frame_less(counts),
        Effect::Start { .. } => one_thread_more(started, counts),
        Effect::StartJoinable { .. } => granted_thread(there, started, counts, grant),
    }
}

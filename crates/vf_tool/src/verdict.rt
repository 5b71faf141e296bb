//! The verdict of a file.

ghost use Rattle.std.specs.Prelude.{◌≡◌, ℕ, ◌+◌, ◌<◌, ◌^◌, length, IfOk, IsErrOf};
ghost use Rattle.vf_base.specs.Outside.{Rose};
ghost use Rattle.vf_snapshot.specs.declared.held.Held.TheVariants as known;
ghost use Rattle.vf_snapshot.specs.Holdings.{IsHeldAt};
ghost use Rattle.vf_expand.specs.Worlds.{world, Reads};
ghost use Rattle.vf_asking.specs.Journal.{seen};
ghost use Rattle.vf_tool.specs.Verdict.{JudgedBy, Checked};

use crate::reading::{Reading, read_file};
use std::alloc::Global;
use vf_asking::Asker;
use vf_base::{Files, Memory, Refusal, RuleFault};
use vf_definitions::Definitions;
use vf_exec::check_main;
use vf_report::Stop;
use vf_snapshot::Snapshot;
use vf_tree::Core;

/// What came of checking a file.
#[derive(Debug, Drop)]
pub enum Verdict {
    /// The file keeps to the rules, and this is what it has.
    Accepted(Core),
    Refused(Refusal),
}

/// Checks a core by the rules with the asker's answers.
#[tactic(auto, using(crate::proofs::Judgements::checking))]
fn check_core<A: Asker>(alloc: Global, core: Core, asker: &mut A) -> Result<Verdict, Memory>
    requires few { length (A.journal asker.old).units + 1 < 2 ^ 32 }
    ensures checked { IfOk result (λ v. Checked core (seen (A.journal asker.old)) (seen (A.journal asker.new)) v) }
    ensures origin { A.origin asker.new ≡ A.origin asker.old }
{
    let root = match asker.begin(&Definitions::new(alloc)) {
        Ok(root) => root,
        Err(_) => return Err(Memory),
    };
    match check_main(alloc, &core, asker, root) {
        Ok(()) => Ok(Verdict::Accepted(core)),
        Err(RuleFault::Refused(refusal)) => Ok(Verdict::Refused(refusal)),
        Err(RuleFault::Memory) => Err(Memory),
    }
}

/// Checks a file by itself: reads it with what it includes, and then follows the rules with the asker's
/// answers.
#[tactic(auto, using(crate::proofs::Judgements::judging))]
pub fn check_unit<F: Files, A: Asker>(
    alloc: Global,
    snapshot: &mut Snapshot,
    files: &mut F,
    path: &str,
    asker: &mut A,
) -> Result<Verdict, Stop>
    requires few { length (A.journal asker.old).units + 1 < 2 ^ 32 }
    ensures judged { IfOk result (λ v. JudgedBy snapshot.new path.now (seen (A.journal asker.old)) (seen (A.journal asker.new)) v) }
    ensures missing { IsErrOf result Stop.Missing → (number : ℕ) × IsHeldAt snapshot.new path.now number known.Missing }
    ensures read_fault { IsErrOf result Stop.ReadFault → Rose (F.failures files.old) (F.failures files.new) }
    ensures readable { IsErrOf result Stop.Unreadable → ⊥ }
    ensures reads { Reads
        (world snapshot.old (F.contents files.old) (F.failures files.old) (F.absences files.old) (F.put_failures files.old))
        (world snapshot.new (F.contents files.new) (F.failures files.new) (F.absences files.new) (F.put_failures files.new)) }
    ensures origin { A.origin asker.new ≡ A.origin asker.old }
{
    let core = match read_file(alloc, snapshot, files, path) {
        Ok(Reading::Core(core)) => core,
        Ok(Reading::Refused(refusal)) => return Ok(Verdict::Refused(refusal)),
        Err(stop) => return Err(stop),
    };
    match check_core(alloc, core, asker) {
        Ok(verdict) => Ok(verdict),
        Err(_) => Err(Stop::Memory),
    }
}

//! Laws of the machine. Each function does nothing; its contract is the law.

ghost use Rattle.vf_model.specs.Laws.{EndsForGood, StaysEnded, TellsSteppers, IdlesElsewhere, FindsSteppers, FaultsByAnyGrant, GrantsWanted, GrantsLeastFree, TellsIdentities, TellsSignatures};

/// An event after the end of the run changes nothing.
pub fn ends_for_good()
    ensures { EndsForGood }
{}

/// No list of events changes a state in which the run has ended.
pub fn stays_ended()
    ensures { StaysEnded }
{}

/// The test whether a thread can step says that the run has not ended, and that the thread was
/// started, has not ended and is not blocked.
pub fn tells_steppers()
    ensures { TellsSteppers }
{}

/// An event of a thread that cannot step changes nothing.
pub fn idles_elsewhere()
    ensures { IdlesElsewhere }
{}

/// A run that has not ended is blocked just where no thread can step.
pub fn finds_steppers()
    ensures { FindsSteppers }
{}

/// A step that has a fault has it whatever the grant.
pub fn faults_by_any_grant()
    ensures { FaultsByAnyGrant }
{}

/// A grant gives the wanted block where that is free.
pub fn grants_wanted()
    ensures { GrantsWanted }
{}

/// A grant of a block that is taken gives the least free one.
pub fn grants_least_free()
    ensures { GrantsLeastFree }
{}

/// Two identities are one where their bytes are.
pub fn tells_identities()
    ensures { TellsIdentities }
{}

/// Two signatures are one where their types are.
pub fn tells_signatures()
    ensures { TellsSignatures }
{}

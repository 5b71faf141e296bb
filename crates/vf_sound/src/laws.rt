//! Laws of right answers, runs, share-outs and environments. Each function does nothing; its
//! contract is the law.

ghost use Rattle.vf_sound.specs.Allowed.{RightAnswersAllow};
ghost use Rattle.vf_sound.specs.Decided.{AnswersDecideGoals};
ghost use Rattle.vf_sound.specs.Laws.{EventsFollow, OneThreadHasNoRace, OneUnitLinks, SafeRunsShowNoFault, TestsHoldThroughout};
ghost use Rattle.vf_sound.specs.Shares.{NothingIsShared, QuietStepsKeep};

/// Right answers allow what a course came to with them, so that proofs about a course need no
/// journal.
pub fn right_answers_allow<A>()
    ensures { RightAnswersAllow A }
{}

/// Under facts that hold, a right answer is Proved exactly where the goal holds, for every goal of this
/// form: such goals are decided.
pub fn answers_decide_goals()
    ensures { AnswersDecideGoals }
{}

/// Each event leads from the state before it to the one before the next.
pub fn events_follow()
    ensures { EventsFollow }
{}

/// What the opening state is and every event keeps, every state is that a list of events comes to.
pub fn tests_hold_throughout()
    ensures { TestsHoldThroughout }
{}

/// A step that changes no memory, and by which no thread starts or ends, keeps a share-out.
pub fn quiet_steps_keep()
    ensures { QuietStepsKeep }
{}

/// While there is no memory, nobody owns anything.
pub fn nothing_is_shared()
    ensures { NothingIsShared }
{}

/// One thread alone has no race (C11 5.1.2.4p25 speaks of two).
pub fn one_thread_has_no_race()
    ensures { OneThreadHasNoRace }
{}

/// Where a list of events is safe, its outcome is no fault.
pub fn safe_runs_show_no_fault()
    ensures { SafeRunsShowNoFault }
{}

/// The environment of a unit is the linked one of that unit alone.
pub fn one_unit_links()
    ensures { OneUnitLinks }
{}

//! Programs that are accepted, and programs that are refused. Each function does nothing; its contract is the example.

ghost use Rattle.vf_examples.specs.ArrayCalls.{ElementsAreAccepted};
ghost use Rattle.vf_examples.specs.BoxProgram.{BoxIsAccepted};
ghost use Rattle.vf_examples.specs.Claiming.{ClaimingIsAccepted};
ghost use Rattle.vf_examples.specs.Counting.{CountingIsAccepted};
ghost use Rattle.vf_examples.specs.Everything.{EverythingIsAccepted};
ghost use Rattle.vf_examples.specs.Leaving.{LeavingIsAccepted};
ghost use Rattle.vf_examples.specs.NoLeaks.{ExamplesLeakNothing};
ghost use Rattle.vf_examples.specs.Refused.{UnsafeAreRefused};
ghost use Rattle.vf_examples.specs.WildArguments.{PassingIsAccepted, WaitingIsAccepted};

/// A program that allocates a struct, writes and reads its field and frees it is accepted.
pub fn box_is_accepted()
    ensures { BoxIsAccepted }
{}

/// A program with a loop and a call through a pointer is accepted.
pub fn counting_is_accepted()
    ensures { CountingIsAccepted }
{}

/// A program with a loop over a list in the heap, a recursive predicate, and a mutex that two threads share,
/// of which one is started and joined by the other, is accepted.
pub fn everything_is_accepted()
    ensures { EverythingIsAccepted }
{}

/// A program that comes to a fault and one that comes to a race are accepted in no environment.
pub fn unsafe_are_refused()
    ensures { UnsafeAreRefused }
{}

/// In the examples with a struct, and with a loop and a call through a pointer, nothing is leaked.
pub fn examples_leak_nothing()
    ensures { ExamplesLeakNothing }
{}

/// A program that leaks the struct that it allocates is accepted where a leak stands, and is not where none does.
pub fn leaving_is_accepted()
    ensures { LeavingIsAccepted }
{}

/// A program of three functions that claim function types is accepted: one needs of its precondition what the
/// row of the type's shows, one names what the type's leaves open, and one takes in each case of a disjunction
/// of the type's another cell.
pub fn claiming_is_accepted()
    ensures { ClaimingIsAccepted }
{}

/// A function that returns `a[i]` and one that sets it are accepted, with what `ints_nth` and `ints_set` give.
pub fn elements_are_accepted()
    ensures { ElementsAreAccepted }
{}

/// A function is accepted that acquires a mutex of which its precondition leaves the predicate value open.
pub fn passing_is_accepted()
    ensures { PassingIsAccepted }
{}

/// A function is accepted that joins a thread of which its precondition leaves the information open.
pub fn waiting_is_accepted()
    ensures { WaitingIsAccepted }
{}

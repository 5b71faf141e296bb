//! Laws of what is accepted. Each function does nothing; its contract is the law.

ghost use Rattle.vf_safety.specs.Laws.{AcceptedCallsAreSafe, AcceptedProgramsAreSafe, AcceptedThreadsAreSafe};

/// A call of an accepted function by either of its contracts is safe for every number of steps for which what comes after it is.
pub fn accepted_calls_are_safe()
    ensures { AcceptedCallsAreSafe }
{}

/// A thread whose first call is of an accepted function is safe for every number of steps.
pub fn accepted_threads_are_safe()
    ensures { AcceptedThreadsAreSafe }
{}

/// Every run of an accepted program, with all threads that it starts, is safe and keeps what the program
/// owes: main's precondition holds of nothing at its beginning, and its postcondition of all that the
/// thread has at its end; the memory is shared out among threads and mutexes at each moment; and each
/// thread and each call through a pointer keeps the contract of its function type.
pub fn accepted_programs_are_safe()
    ensures { AcceptedProgramsAreSafe }
{}

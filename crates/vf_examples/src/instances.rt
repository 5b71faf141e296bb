//! Instances of what annotations mean, so that the definitions are not empty. Each function does nothing; its contract is the instance.

ghost use Rattle.vf_examples.specs.HeldMutex.{HeldMutexIsMeant};
ghost use Rattle.vf_examples.specs.KeptCalls.{CallsAreKept};

/// All of a memory of one held mutex satisfies that it is held, and what was not given up of the mutex.
pub fn held_mutex_is_meant()
    ensures { HeldMutexIsMeant }
{}

/// A run that calls through a pointer and starts a thread keeps what it owes.
pub fn calls_are_kept()
    ensures { CallsAreKept }
{}

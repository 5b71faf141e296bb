//! Laws of what is leaked, and of what is left. Each function does nothing; its contract is the law.

ghost use Rattle.vf_safety.specs.LeakLaws.{NoBlockIsLeft, NothingIsLeaked, NothingIsLost};

/// In an accepted program in which nothing may be leaked, in no body and no lemma that one calls, nothing ever
/// is: on every list of events it keeps what it owes with share-outs whose leaked part is empty.
pub fn nothing_is_leaked()
    ensures { NothingIsLeaked }
{}

/// In such a program, where main has returned and every other thread has ended, main's part satisfies its
/// postcondition, and all that there is of a block lies in main's part, in that of an ended thread that is
/// not joined, or in that of a free mutex.
pub fn nothing_is_lost()
    ensures { NothingIsLost }
{}

/// So no block is left there where main is to own nothing at its end and there is no free mutex and no handle.
pub fn no_block_is_left()
    ensures { NoBlockIsLeft }
{}

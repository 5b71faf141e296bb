//! Laws of parts that fit a memory: what is owned is there, and what fits after each change. Each function does nothing; its contract is the law.

ghost use Rattle.vf_meaning.specs.FitLaws.{FieldsAreThere, IndexesAreThere, StructsAreThere, IntBlocksAreThere, MutexesAreThere, HeldAreThere, HandlesAreThere, FieldsAreWritten, IndexesAreWritten, BlocksAreAdded, BlocksAreFreed, MutexesAreAcquired, MutexesAreReleased};

/// A field of which some is owned is there, with the content that is owned.
pub fn fields_are_there()
    ensures { FieldsAreThere }
{}

/// An int cell of which some is owned is there, with the content that is owned.
pub fn indexes_are_there()
    ensures { IndexesAreThere }
{}

/// A struct's block of which some is owned is there.
pub fn structs_are_there()
    ensures { StructsAreThere }
{}

/// An int block of which some is owned is there, with its length.
pub fn int_blocks_are_there()
    ensures { IntBlocksAreThere }
{}

/// A mutex of which some is owned is there.
pub fn mutexes_are_there()
    ensures { MutexesAreThere }
{}

/// A held mutex that is owned is held by its thread.
pub fn held_are_there()
    ensures { HeldAreThere }
{}

/// A handle of which some is owned is there, with its thread's function and argument.
pub fn handles_are_there()
    ensures { HandlesAreThere }
{}

/// Who owns the whole of a field may write it.
pub fn fields_are_written()
    ensures { FieldsAreWritten }
{}

/// Who owns the whole of an int cell may write it.
pub fn indexes_are_written()
    ensures { IndexesAreWritten }
{}

/// A new block comes with all of it.
pub fn blocks_are_added()
    ensures { BlocksAreAdded }
{}

/// Who owns all of a block that is no held mutex may free it.
pub fn blocks_are_freed()
    ensures { BlocksAreFreed }
{}

/// A fraction of a free mutex is given up for the whole of holding it.
pub fn mutexes_are_acquired()
    ensures { MutexesAreAcquired }
{}

/// The fraction that was given up for holding a mutex comes back.
pub fn mutexes_are_released()
    ensures { MutexesAreReleased }
{}

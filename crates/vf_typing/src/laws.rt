//! Laws of types. Each function does nothing; its contract is the law.

ghost use Rattle.vf_typing.specs.Laws.{TypesAreDetermined, TypesAreFound};

/// An expression has one type at most.
pub fn types_are_determined()
    ensures { TypesAreDetermined }
{}

/// Typing answers with a type exactly where the expression has it.
pub fn types_are_found()
    ensures { TypesAreFound }
{}

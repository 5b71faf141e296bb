//! Laws of the parsers on lists. Each function does nothing; its contract is the law.

ghost use Rattle.vf_parse_command.specs.Laws.{CommandsAreSpelled, BodiesAreSpelled};

/// A ghost command that is read is spelled by the tokens that are taken, and nests no deeper than is allowed.
pub fn commands_are_spelled()
    ensures { CommandsAreSpelled }
{}

/// The same of the body of a lemma.
pub fn bodies_are_spelled()
    ensures { BodiesAreSpelled }
{}

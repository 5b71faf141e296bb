//! Laws of the parsers on lists. Each function does nothing; its contract is the law.

ghost use Rattle.vf_grammar_depth.specs.commands.Deep.{CommandsDeepen, GhostBodiesDeepen};

/// Where a ghost command nests too deep, one in which two more may nest is read past that token.
pub fn commands_deepen()
    ensures { CommandsDeepen }
{}

/// The same of the body of a lemma.
pub fn ghost_bodies_deepen()
    ensures { GhostBodiesDeepen }
{}

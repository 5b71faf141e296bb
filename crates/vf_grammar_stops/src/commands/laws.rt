//! Laws of the parsers on lists. Each function does nothing; its contract is the law.

ghost use Rattle.vf_grammar_stops.specs.commands.Laws.{CommandsRefuseAlike, CommandsStopAlike, GhostBodiesRefuseAlike, GhostBodiesStopAlike};

/// Where a token is refused in a ghost command, one is refused in all tokens that are alike up to it.
pub fn commands_refuse_alike()
    ensures { CommandsRefuseAlike }
{}

/// The same of the body of a lemma.
pub fn ghost_bodies_refuse_alike()
    ensures { GhostBodiesRefuseAlike }
{}

/// A token is refused in a ghost command only where no ghost command begins with the tokens up to it.
pub fn commands_stop_alike()
    ensures { CommandsStopAlike }
{}

/// The same of the body of a lemma.
pub fn ghost_bodies_stop_alike()
    ensures { GhostBodiesStopAlike }
{}

//! Laws of the parsers on lists. Each function does nothing; its contract is the law.

ghost use Rattle.vf_grammar_read.specs.commands.Laws.{BodiesAreRead, CommandsAreRead, CommandsHaveOneReading};

/// A ghost command that tokens spell is read from them, where no `else` stands behind it.
pub fn commands_are_read()
    ensures { CommandsAreRead }
{}

/// The same of the body of a lemma, whatever stands behind it.
pub fn bodies_are_read()
    ensures { BodiesAreRead }
{}

/// Two ghost commands that the same tokens spell are one.
pub fn commands_have_one_reading()
    ensures { CommandsHaveOneReading }
{}

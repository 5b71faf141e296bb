//! Laws of the parsers on lists. Each function does nothing; its contract is the law.

ghost use Rattle.vf_parse_statement.specs.Laws.{StatementsAreSpelled, ListsAreSpelled, BodiesAreSpelled};

/// Where what is read of annotations is spelled by the tokens that are taken, so is a statement that was
/// read, and it nests no deeper than it may.
pub fn statements_are_spelled()
    ensures { StatementsAreSpelled }
{}

/// The same of statements one after another.
pub fn lists_are_spelled()
    ensures { ListsAreSpelled }
{}

/// The same of the body of a function.
pub fn bodies_are_spelled()
    ensures { BodiesAreSpelled }
{}

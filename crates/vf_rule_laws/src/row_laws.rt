//! What rows of int cells tell. The function does nothing; its contract is the law.

ghost use Rattle.vf_rule_laws.specs.Rows.{ValuedRowsShowLengths};

/// A chunk of a predicate value tells the length of a row as soon as the value is known to be that of rows.
pub fn valued_rows_show_lengths()
    ensures { ValuedRowsShowLengths }
{}

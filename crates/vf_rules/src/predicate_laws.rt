//! Laws of opening and closing predicates. Each function does nothing; its contract is the law.

ghost use Rattle.vf_rules.specs.PredicateLaws.{OpeningKeeps, ClosingKeeps};

/// An opened predicate, whole or in part, stands for what it stood for.
pub fn opening_keeps()
    ensures { OpeningKeeps }
{}

/// A closed predicate stands for what its body stood for.
pub fn closing_keeps()
    ensures { ClosingKeeps }
{}

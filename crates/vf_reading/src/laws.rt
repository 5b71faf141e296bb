//! The laws of readings. Each function does nothing; its contract is the law.

ghost use Rattle.vf_reading.specs.Reading.{ClosuresAgree, EqualTermsAgree};

/// Where a table is read as the terms that arise of facts, its closure has a conflict exactly where
/// that of the facts has one, no fixpoint being unfolded.
pub fn closures_agree()
    ensures { ClosuresAgree }
{}

/// Where a table is read as the terms that arise of facts, two of its terms are equal in its closure
/// exactly where they are equal in that of the facts, no fixpoint being unfolded.
pub fn equal_terms_agree()
    ensures { EqualTermsAgree }
{}

//! What is read is spelled so.

ghost use Rattle.std.specs.Prelude.{ℕ};
ghost use Rattle.vf_syntax.specs.Lists.{optional, greatest, or_none};
ghost use Rattle.vf_syntax.specs.Assertions.{share, pattern, pattern_list, case_pattern, pattern_nesting};
ghost use Rattle.vf_parse_term.specs.Laws.{IsSpelled};
ghost use Rattle.vf_parse_pattern.specs.Laws.{flat};
ghost use Rattle.vf_parse_pattern.specs.Shares.{share_at, any_share_at};
ghost use Rattle.vf_parse_pattern.specs.Patterns.{pattern_at, patterns_at, any_patterns_at, case_pattern_at};

/// Shares that are read are spelled by the tokens that are taken.
pub fn reads_shares()
    ensures sound { IsSpelled share_at share flat 0 }
    ensures any { IsSpelled any_share_at (optional share) flat 0 }
{}

/// Patterns that are read are spelled by the tokens that are taken, and nest no deeper than is allowed.
pub fn reads_patterns()
    ensures sound { (d : ℕ) → IsSpelled (pattern_at d) pattern pattern_nesting d }
    ensures listed { (d : ℕ) → IsSpelled (patterns_at d) pattern_list (greatest pattern_nesting) d }
    ensures any { (d : ℕ) → IsSpelled (any_patterns_at d) (optional pattern_list) (or_none (greatest pattern_nesting)) d }
{}

/// What a case is for is spelled by the tokens that are taken.
pub fn reads_cases()
    ensures sound { IsSpelled case_pattern_at case_pattern flat 0 }
{}

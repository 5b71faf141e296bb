//! What is read is spelled so.

ghost use Rattle.std.specs.Prelude.{◌≡◌, ◌≤◌, ℕ, List};
ghost use Rattle.vf_lexer.specs.declared.token.Token.{Token};
ghost use Rattle.vf_syntax.specs.GhostExprTree.{GhostExprTree};
ghost use Rattle.vf_syntax.specs.GhostExpressions.{sort, ghost_expr};
ghost use Rattle.vf_cursor.specs.Parsing.{ok};
ghost use Rattle.vf_parse_term.specs.Sorts.{sort_at};
ghost use Rattle.vf_parse_term.specs.Terms.{term_at, arguments_at, operand_at};
ghost use Rattle.vf_parse_term.specs.Laws.{IsSpelled, sort_depth, term_depth, AreArguments, GoesOn};

/// Sorts that are read are spelled by the tokens that are taken, and nest no deeper than is allowed.
pub fn reads_sorts()
    ensures sound { (d : ℕ) → IsSpelled (sort_at d) sort sort_depth d }
{}

/// The same of expressions, of arguments between parentheses, and of what goes on with an operand that was read before.
pub fn reads_terms()
    ensures sound { (d : ℕ) → IsSpelled (term_at d) ghost_expr term_depth d }
    ensures listed { (d : ℕ) (ts : List Token) (xs : List GhostExprTree) (rest : List Token) → arguments_at (term_at d) ts ≡ ok xs rest → AreArguments d ts xs rest }
    ensures goes_on { (d j : ℕ) → j ≤ 6 → GoesOn (operand_at d) j d }
{}

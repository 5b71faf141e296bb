//! What is known of parts that are read.

ghost use Rattle.std.specs.Prelude.{◌≡◌, ℕ, List};
ghost use Rattle.vf_lexer.specs.declared.token.Token.{Token};
ghost use Rattle.vf_cursor.specs.Parsing.{ok};
ghost use Rattle.vf_parse_part.specs.declared.part.GhostPart.{GhostPart};
ghost use Rattle.vf_parse_part.specs.declared.part.GhostTree.{GhostTree};
ghost use Rattle.vf_parse_part.specs.Parts.{part_at, IsPart};

/// A part that is read is spelled by the tokens that are taken, is of the kind that was asked for, and nests no
/// deeper than is allowed.
#[tactic(auto, using(crate::proofs::PartsRead::parts_are_spelled))]
pub fn parts_are_spelled()
    ensures { (kind : GhostPart) (d : ℕ) (ts : List Token) (x : GhostTree) (rest : List Token)
        → part_at kind d ts ≡ ok x rest → IsPart kind d ts x rest }
{}

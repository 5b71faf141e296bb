//! What is known of the definitions.

ghost use Rattle.std.specs.Prelude.{◌≡◌, ◌≤◌, ℕ, [], List, length};
ghost use Rattle.vf_lexer.specs.declared.token.Token.{Token};
ghost use Rattle.vf_preproc.specs.Macros.{Table, replaced, expansion};

/// No replacement of macros is cut short: that more macros may stand within one another than there are makes no
/// difference (C11 6.10.3.4).
#[tactic(auto, using(crate::proofs::Uncut::uncut))]
pub fn replacements_are_whole()
    ensures { (most : ℕ) (table : Table) (tokens : List Token)
        → length table.names ≤ most → replaced most table [] tokens ≡ expansion table tokens }
{}

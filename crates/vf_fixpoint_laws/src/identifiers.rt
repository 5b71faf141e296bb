//! The names that a unit declares are identifiers.
//!
//! An identity is the path of a file, a `#` and a name, and laws over accepted units ask that no `#` stands in the names
//! that the items of a unit declare. Here stands why: each of these names is that of a token, the names among the tokens
//! of a text are letters, digits and `_`, and the replacement of macros makes no others. Each law is the contract of a
//! public function with an empty body.
//!
//! In `specs/`: when a text is that of a name among tokens, and when the names among tokens are words, and when a
//! unit is read from a file and accepted; a small file with a macro; and tokens of no text. Laws:
//! `declared_names_are_names_of_tokens` (each name that the items of a unit declare is that of a name among the
//! tokens that spell the unit, and no keyword), `spelled_units_are_unmarked` (so no `#` stands in it, where the names
//! among the tokens are letters, digits and `_`), `names_of_texts_are_words` (as they are among the tokens of each
//! text), `names_of_expanded_units_are_words` (and among those of a unit that was expanded, since the replacement of
//! macros makes no others), `snapshots_are_told_in_words` (whatever a snapshot holds, some library tells it, with
//! such tokens), and so `expanded_units_are_unmarked` and `plain_units_are_unmarked` (no `#` stands in the names of a
//! unit that is spelled by the tokens that expanding gave, or by those of real text among them), so that
//! `read_units_are_well_declared` and `read_units_have_plain_names` (what a unit declares that is read from a file
//! and accepted is well declared, and no `#` stands in its names) ask nothing of names; examples:
//! `macros_are_read_as_names` (a file in which a macro stands for the name of a function meets this),
//! `marked_tokens_spell_marked_units` (made-up tokens, of no text, spell a unit with a `#` in a name).

ghost use Rattle.vf_fixpoint_laws.specs.identifiers.Accepted.{ReadUnitsAreWellDeclared, ReadUnitsHavePlainNames};
ghost use Rattle.vf_fixpoint_laws.specs.identifiers.Example.{MarkedTokensSpellMarkedUnits};
ghost use Rattle.vf_fixpoint_laws.specs.identifiers.Laws.{DeclaredNamesAreNamesOfTokens, ExpandedUnitsAreUnmarked, NamesOfExpandedUnitsAreWords, NamesOfTextsAreWords, PlainUnitsAreUnmarked, SnapshotsAreToldInWords, SpelledUnitsAreUnmarked};
ghost use Rattle.vf_fixpoint_laws.specs.identifiers.Macro.{MacrosAreReadAsNames};

/// Each name that the items of a unit declare is that of a name among the tokens that spell the unit, and no keyword.
pub fn declared_names_are_names_of_tokens()
    ensures { DeclaredNamesAreNamesOfTokens }
{}

/// So no `#` stands in them, where the names among the tokens are letters, digits and `_`.
pub fn spelled_units_are_unmarked()
    ensures { SpelledUnitsAreUnmarked }
{}

/// The names among the tokens of a text are letters, digits and `_`.
pub fn names_of_texts_are_words()
    ensures { NamesOfTextsAreWords }
{}

/// So are those among the tokens of a unit that was expanded from such tokens.
pub fn names_of_expanded_units_are_words()
    ensures { NamesOfExpandedUnitsAreWords }
{}

/// Whatever a snapshot holds, some library tells it, and the names among the tokens that it tells are such.
pub fn snapshots_are_told_in_words()
    ensures { SnapshotsAreToldInWords }
{}

/// No `#` stands in the names that a unit declares, where it is spelled by the tokens that expanding gave.
pub fn expanded_units_are_unmarked()
    ensures { ExpandedUnitsAreUnmarked }
{}

/// And none where it is spelled by those of real text alone.
pub fn plain_units_are_unmarked()
    ensures { PlainUnitsAreUnmarked }
{}

/// What a unit declares that is read from a file and accepted is well declared.
pub fn read_units_are_well_declared()
    ensures { ReadUnitsAreWellDeclared }
{}

/// No `#` stands in the names that it declares.
pub fn read_units_have_plain_names()
    ensures { ReadUnitsHavePlainNames }
{}

/// Tokens may be made up, of no text, that spell a unit with a `#` in a name: the names among them are not such.
pub fn marked_tokens_spell_marked_units()
    ensures { MarkedTokensSpellMarkedUnits }
{}

/// A file in which a macro stands for the name of a function is expanded and read, and all of this is so of it.
pub fn macros_are_read_as_names()
    ensures { MacrosAreReadAsNames }
{}

//! Lines other than includes.

ghost use Rattle.std.specs.Prelude.{◌≡◌, ◌≤◌, ◌++◌, ◌&&◌, not, length, Ok, Bool, OnOk};
ghost use Rattle.vf_preproc.specs.Macros.{expansion};
ghost use Rattle.vf_preproc.specs.UnitText.{is_mixed, grouped, included, directed, passed, annotated, directive, line, Unit_so_far};
ghost use Rattle.vf_preproc.specs.Kept.{table_of};
ghost use Rattle.vf_preproc.specs.Targets.{is_ghost_path};
ghost use Rattle.vf_preproc.specs.Directives.{word_of};
ghost use Rattle.vf_preproc.specs.Scopes.{scope_of};
ghost use Rattle.vf_preproc.specs.Frames.{front};
ghost use Rattle.vf_preproc.specs.UnitText.{File as DefinedFile, Scope as DefinedScope};
ghost use Rattle.vf_preproc.specs.Units.{unit_of};
ghost use Rattle.vf_preproc.specs.Answers.{Gives};
ghost use Rattle.vf_preproc.specs.LineSteps.{file_of, StepGives, line_included};

use crate::fault::ExpandFault;
use crate::groups::{begin, end, is_taken, skip, turn};
use crate::include_target::is_ghost_path;
use crate::macros::Macros;
use crate::replace::put_expanded;
use crate::scope::{Scope, define, is_alone};
use crate::unit::Unit;
use crate::words::{Word, has_ghost, is_hash, word_of};
use std::alloc::Global;
use vf_base::{Memory, Place};
use vf_lexer::{Token, TokenList};

/// A file that is being expanded.
#[derive(Clone, Copy)]
pub struct File<'a> {
    pub path: &'a [u8],
    pub bytes: &'a [u8],
}

/// What is left to do of a line.
#[derive(Clone, Copy, Debug, PartialEq, Eq)]
pub enum Step {
    /// Nothing.
    Done,
    /// An include, in ghost text or not.
    Include { is_ghost: bool },
}

/// Puts the tokens of a line, in which macros are replaced.
fn put_text(
    alloc: Global,
    out: &mut TokenList,
    macros: &Macros,
    tokens: &[Token],
    budget: &mut u64,
) -> Result<(), Memory>
    requires { length out.old ≤ 200001 }
    ensures put { OnOk result (out.new ≡ front (out.old ++ expansion (table_of macros.now) tokens.now)) }
    ensures few { OnOk result (length out.new ≤ 200001) }
{
    for token in tokens {
        put_expanded(alloc, out, macros, token, budget)?;
    }
    Ok(())
}

/// Whether a real directive has ghost text on its line.
fn is_mixed(file: File<'_>, words: &[Token]) -> bool
    ensures { result ≡ is_mixed (file_of file.entry) words.now }
{
    !is_ghost_path(file.path) && has_ghost(words)
}

/// Follows a directive about groups in text that is read.
#[tactic(auto, using(crate::proofs::Grouping::fails_behind))]
fn follow_group(
    scope: &mut Scope,
    is_mixed: bool,
    hash: Place,
    words: &[Token],
    word: Word,
) -> Result<(), ExpandFault>
    ensures { Gives (λ _. scope_of scope.new) result (grouped is_mixed hash words.now (scope_of scope.old) word) }
{
    let is_malformed = is_mixed || !is_alone(words);
    match word {
        Word::IfDefined => begin(
            &mut scope.groups,
            &scope.macros,
            is_mixed,
            true,
            hash,
            words,
        )?,
        Word::IfNotDefined => begin(
            &mut scope.groups,
            &scope.macros,
            is_mixed,
            false,
            hash,
            words,
        )?,
        Word::Else => turn(&mut scope.groups, is_malformed, hash)?,
        Word::EndIf => end(&mut scope.groups, is_malformed, hash)?,
        _ => return Err(ExpandFault::directive(hash)),
    }
    Ok(())
}

/// Follows a directive in text that is read, up to an include.
#[tactic(auto, using(crate::proofs::Grouping::fails_outside, crate::proofs::Grouping::fails_macros))]
fn directed(
    alloc: Global,
    scope: &mut Scope,
    file: File<'_>,
    hash: &Token,
    words: &[Token],
) -> Result<Step, ExpandFault>
    ensures { (unit : Unit_so_far) → StepGives
        (λ include. directed include (file_of file.entry) hash.now words.now unit (scope_of scope.old) (word_of words.now))
        (λ ghost include. included include (file_of file.entry) hash.now.place ghost words.now unit (scope_of scope.old))
        unit (scope_of scope.old) (scope_of scope.new) result }
{
    let mixed = is_mixed(file, words);
    match word_of(words) {
        Word::Include => {
            if mixed {
                Err(ExpandFault::directive(hash.place))
            } else {
                Ok(Step::Include {
                    is_ghost: hash.is_ghost,
                })
            }
        }
        Word::Define => {
            define(alloc, &mut scope.macros, mixed, hash.place, words)?;
            Ok(Step::Done)
        }
        word => {
            follow_group(scope, mixed, hash.place, words, word)?;
            Ok(Step::Done)
        }
    }
}

/// Follows a directive in text that is left out.
#[tactic(auto, using(crate::proofs::Grouping::fails_outside))]
fn passed(
    scope: &mut Scope,
    file: File<'_>,
    hash: &Token,
    words: &[Token],
) -> Result<Step, ExpandFault>
    ensures { (unit : Unit_so_far) → StepGives
        (λ _. passed (file_of file.entry) hash.now words.now unit (scope_of scope.old) (word_of words.now))
        (λ ghost include. included include (file_of file.entry) hash.now.place ghost words.now unit (scope_of scope.old))
        unit (scope_of scope.old) (scope_of scope.new) result }
{
    match word_of(words) {
        Word::IfDefined | Word::IfNotDefined => skip(&mut scope.groups, hash.place)?,
        Word::Else => {
            let mixed = is_mixed(file, words);
            follow_group(scope, mixed, hash.place, words, Word::Else)?;
        }
        Word::EndIf => {
            let mixed = is_mixed(file, words);
            follow_group(scope, mixed, hash.place, words, Word::EndIf)?;
        }
        _ => {}
    }
    Ok(Step::Done)
}

/// Follows a directive in an annotation of a C file, which is an include alone.
fn annotated(hash: &Token, words: &[Token]) -> Result<Step, ExpandFault>
    ensures { (file : DefinedFile) (unit : Unit_so_far) (scope : DefinedScope) → StepGives
        (λ include. annotated include file hash.now words.now unit scope (word_of words.now))
        (λ ghost include. included include file hash.now.place ghost words.now unit scope)
        unit scope scope result }
{
    match word_of(words) {
        Word::Include => Ok(Step::Include { is_ghost: true }),
        _ => Err(ExpandFault::directive(hash.place)),
    }
}

/// Follows a directive, up to an include.
fn directive(
    alloc: Global,
    scope: &mut Scope,
    file: File<'_>,
    hash: &Token,
    words: &[Token],
) -> Result<Step, ExpandFault>
    ensures { (unit : Unit_so_far) → StepGives
        (λ include. directive include (file_of file.entry) hash.now words.now unit (scope_of scope.old))
        (λ ghost include. included include (file_of file.entry) hash.now.place ghost words.now unit (scope_of scope.old))
        unit (scope_of scope.old) (scope_of scope.new) result }
{
    let taken = is_taken(&scope.groups);
    let inside = is_annotation(file, hash);
    if inside {
        if taken {
            return annotated(hash, words);
        }
        return Ok(Step::Done);
    }
    if taken {
        directed(alloc, scope, file, hash, words)
    } else {
        passed(scope, file, hash, words)
    }
}

/// Whether a token stands in an annotation of a C file.
fn is_annotation(file: File<'_>, token: &Token) -> bool
    ensures { result ≡ (token.now.is_ghost && not (is_ghost_path (file_of file.entry).path)) }
{
    token.is_ghost && !is_ghost_path(file.path)
}

/// Follows a line, up to an include.
pub fn follow_line(
    unit: &mut Unit,
    scope: &mut Scope,
    file: File<'_>,
    tokens: &[Token],
) -> Result<Step, ExpandFault>
    requires { length unit.old.tokens ≤ 200001 }
    ensures exact { StepGives
        (λ include. line include (file_of file.entry) tokens.now (unit_of unit.old) (scope_of scope.old))
        (λ ghost include. line_included include (file_of file.entry) tokens.now ghost (unit_of unit.old) (scope_of scope.old))
        (unit_of unit.new) (scope_of scope.old) (scope_of scope.new) result }
    ensures few { OnOk result (length unit.new.tokens ≤ 200001) }
    ensures rest { unit_of unit.new ≡ record (unit_of unit.old) { tokens = unit.new.tokens } }
    ensures kept { (ghost : Bool) → result ≡ Ok (Step.Include ghost) → unit.new.tokens ≡ unit.old.tokens }
{
    let [first, words @ ..] = tokens else {
        return Ok(Step::Done);
    };
    if is_hash(first) {
        return directive(unit.alloc, scope, file, first, words);
    }
    let taken = is_taken(&scope.groups);
    if !taken {
        return Ok(Step::Done);
    }
    put_text(
        unit.alloc,
        &mut unit.tokens,
        &scope.macros,
        tokens,
        &mut unit.budget,
    )?;
    Ok(Step::Done)
}

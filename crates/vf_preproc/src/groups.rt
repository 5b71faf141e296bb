//! Groups of lines that are read or left out.

ghost use Rattle.std.specs.Prelude.{◌≡◌, ◌∷◌, Ok, reverse};
ghost use Rattle.vf_preproc.specs.Directives.{is_taken, else_groups, end_groups, if_groups, skipped_group};
ghost use Rattle.vf_preproc.specs.Answers.{Gives};
ghost use Rattle.vf_preproc.specs.Kept.{table_of};

use crate::fault::ExpandFault;
use crate::macros::Macros;
use crate::replace::is_name;
use vf_base::Place;
use vf_lexer::Token;

/// A group of lines from an `#ifdef` or `#ifndef` on.
#[derive(Clone, Copy, Debug, PartialEq, Eq)]
pub struct Group {
    /// The place of its `#`.
    pub opened: Place,
    /// Whether its test holds, or does not and its `#else` was met.
    pub taken: bool,
    /// Whether its `#else` was met.
    pub has_else: bool,
    /// Whether the text around it is read.
    pub outer: bool,
}

/// Whether the text is read in groups, of which the innermost is the last one.
pub fn is_taken(groups: &[Group]) -> bool
    ensures { result ≡ is_taken (reverse groups.now) }
{
    match groups {
        [] => true,
        [.., last] => last.taken && last.outer,
    }
}

/// Begins a group in text that is left out.
pub fn skip(groups: &mut Vec<Group>, hash: Place) -> Result<(), ExpandFault>
    ensures { Gives (λ _. reverse groups.new.items) result (Ok (skipped_group hash ∷ reverse groups.old.items)) }
{
    groups.push(Group {
        opened: hash,
        taken: false,
        has_else: false,
        outer: false,
    })?;
    Ok(())
}

/// Begins a group at `#ifdef` or, where no definition is wanted, at `#ifndef`.
pub fn begin(
    groups: &mut Vec<Group>,
    macros: &Macros,
    is_mixed: bool,
    wanted: bool,
    hash: Place,
    words: &[Token],
) -> Result<(), ExpandFault>
    ensures { Gives (λ _. reverse groups.new.items) result (if_groups is_mixed wanted (table_of macros.now) hash words.now (reverse groups.old.items)) }
{
    match words {
        [_, name] => {
            if is_mixed || !is_name(name) {
                return Err(ExpandFault::directive(hash));
            }
            let is_defined = macros.has(name.text.as_bytes());
            let taken = if wanted { is_defined } else { !is_defined };
            groups.push(Group {
                opened: hash,
                taken,
                has_else: false,
                outer: true,
            })?;
            Ok(())
        }
        _ => Err(ExpandFault::directive(hash)),
    }
}

/// Turns to the other part of the innermost group.
pub fn turn(groups: &mut Vec<Group>, is_malformed: bool, hash: Place) -> Result<(), ExpandFault>
    ensures { Gives (λ _. reverse groups.new.items) result (else_groups is_malformed hash (reverse groups.old.items)) }
{
    let Some(group) = groups.pop() else {
        return Err(ExpandFault::directive(hash));
    };
    if group.has_else || (group.outer && is_malformed) {
        return Err(ExpandFault::directive(hash));
    }
    groups.push(Group {
        opened: group.opened,
        taken: !group.taken,
        has_else: true,
        outer: group.outer,
    })?;
    Ok(())
}

/// Ends the innermost group.
pub fn end(groups: &mut Vec<Group>, is_malformed: bool, hash: Place) -> Result<(), ExpandFault>
    ensures { Gives (λ _. reverse groups.new.items) result (end_groups is_malformed hash (reverse groups.old.items)) }
{
    let Some(group) = groups.pop() else {
        return Err(ExpandFault::directive(hash));
    };
    if group.outer && is_malformed {
        return Err(ExpandFault::directive(hash));
    }
    Ok(())
}

//! Which command the words ask for.

ghost use Rattle.std.specs.Prelude.{◌≡◌, ◌↔◌, IsTrue, IsUtf8, All, IfOk, IfSome, IfNone, [], map, List, ℕ};
ghost use Rattle.vf_words.specs.Positionals.{texts};
ghost use Rattle.vf_words.specs.Given.{Fits, FitsNone, OneFile, OneManifest, SomeFiles, SomeManifests, text_of};
ghost use Rattle.vf_words.specs.Words.{IsSourcePath, AskNothing};
ghost use Rattle.vf_words.specs.Commands.{Asks};

use crate::paths::{are_manifest_paths, are_source_paths, is_manifest_path, is_source_path};
use crate::positional::positionals;
use std::alloc::Global;
use vf_base::Memory;

/// The names of the commands.
#[derive(Clone, Copy, Debug)]
pub enum Name {
    Run,
    Try,
    Trace,
    Link,
    Upgrade,
}

/// The words of the command `run`: verify, link and run a source file under a schedule.
#[derive(Clone, Copy, Debug)]
pub struct RunWords<'a> {
    pub schedule: &'a str,
    /// Means the path of the source file, and may have parts that are not needed.
    pub word: &'a str,
}

/// A schedule, and words that mean source files.
#[derive(Drop)]
pub struct ScheduledWords<'a> {
    pub schedule: &'a str,
    /// Each means the path of a source file, and may have parts that are not needed.
    pub words: Vec<&'a str>,
}

/// What the words ask for.
#[derive(Drop)]
pub enum Command<'a> {
    /// Check a source file, and link and run it under a schedule.
    Run(RunWords<'a>),
    /// Read source files, link them and run them under a schedule.
    Try(ScheduledWords<'a>),
    /// Read source files, link them, and find the first fault or race of their run under a schedule.
    Trace(ScheduledWords<'a>),
    /// Link manifests, by their paths.
    Link(Vec<&'a str>),
    /// Write a manifest again in version 2, by its path.
    Upgrade(&'a str),
}

/// The command of a name.
fn name_of(word: &str) -> Option<Name>
    ensures found { IfSome result (λ n. word.now ≡ text_of n) }
    ensures none { IfNone result ((n : Name) → word.now ≡ text_of n → ⊥) }
{
    if word == "run" {
        Some(Name::Run)
    } else if word == "try" {
        Some(Name::Try)
    } else if word == "trace" {
        Some(Name::Trace)
    } else if word == "link" {
        Some(Name::Link)
    } else if word == "upgrade" {
        Some(Name::Upgrade)
    } else {
        None
    }
}

/// The schedule and the file of a run, where these are the words of one.
fn run_of<'a>(given: &[&'a str]) -> Option<RunWords<'a>>
    ensures found { IfSome result (λ r. OneFile (texts given.now) r.schedule.now r.word.now) }
    ensures none { IfNone result ((schedule word : List ℕ) → OneFile (texts given.now) schedule word → ⊥) }
{
    match given {
        [schedule, word] => {
            if is_source_path(*word) {
                Some(RunWords {
                    schedule: *schedule,
                    word: *word,
                })
            } else {
                None
            }
        }
        _ => None,
    }
}

/// The schedule and the files of a try or a trace, where these are the words of one.
fn scheduled_of<'a>(alloc: Global, given: &[&'a str]) -> Result<Option<ScheduledWords<'a>>, Memory>
    ensures found { IfOk result (λ o. IfSome o (λ r. SomeFiles (texts given.now) r.schedule.now (texts r.words.items))) }
    ensures none { IfOk result (λ o. IfNone o ((schedule : List ℕ) (files : List (List ℕ)) → SomeFiles (texts given.now) schedule files → ⊥)) }
{
    let Some((schedule, files)) = given.split_first() else {
        return Ok(None);
    };
    if files.len() == 0 {
        return Ok(None);
    }
    if !are_source_paths(files) {
        return Ok(None);
    }
    let words = Vec::from_slice(alloc, files)?;
    Ok(Some(ScheduledWords {
        schedule: *schedule,
        words,
    }))
}

/// Whether these are the words of a link.
fn is_link(given: &[&str]) -> bool
    ensures { IsTrue result ↔ SomeManifests (texts given.now) }
{
    if given.len() == 0 {
        return false;
    }
    are_manifest_paths(given)
}

/// The manifest to write again, where these are the words of that.
fn upgrade_of<'a>(given: &[&'a str]) -> Option<&'a str>
    ensures found { IfSome result (λ r. OneManifest (texts given.now) r.now) }
    ensures none { IfNone result ((manifest : List ℕ) → OneManifest (texts given.now) manifest → ⊥) }
{
    match given {
        [manifest] => {
            if is_manifest_path(*manifest) {
                Some(*manifest)
            } else {
                None
            }
        }
        _ => None,
    }
}

/// The command of a name with its positional words.
fn command_with<'a>(
    alloc: Global,
    name: Name,
    given: Vec<&'a str>,
) -> Result<Option<Command<'a>>, Memory>
    ensures found { IfOk result (λ o. IfSome o (λ c. Fits name (texts given.entry.items) c)) }
    ensures none { IfOk result (λ o. IfNone o (FitsNone name (texts given.entry.items))) }
{
    match name {
        Name::Run => match run_of(given.as_slice()) {
            Some(run) => Ok(Some(Command::Run(run))),
            None => Ok(None),
        },
        Name::Try => match scheduled_of(alloc, given.as_slice())? {
            Some(tried) => Ok(Some(Command::Try(tried))),
            None => Ok(None),
        },
        Name::Trace => match scheduled_of(alloc, given.as_slice())? {
            Some(traced) => Ok(Some(Command::Trace(traced))),
            None => Ok(None),
        },
        Name::Link => {
            if is_link(given.as_slice()) {
                Ok(Some(Command::Link(given)))
            } else {
                Ok(None)
            }
        }
        Name::Upgrade => match upgrade_of(given.as_slice()) {
            Some(manifest) => Ok(Some(Command::Upgrade(manifest))),
            None => Ok(None),
        },
    }
}

/// The command that the words ask for, or none where they ask for none.
pub fn command_of<'a>(alloc: Global, words: &'a [&'a str]) -> Result<Option<Command<'a>>, Memory>
    requires text { All (λ w. IsUtf8 w.now) words.now }
    ensures found { IfOk result (λ o. IfSome o (λ c. Asks (texts words.now) c)) }
    ensures none { IfOk result (λ o. IfNone o (AskNothing (texts words.now))) }
{
    let Some((word, behind)) = words.split_first() else {
        return Ok(None);
    };
    let Some(name) = name_of(*word) else {
        return Ok(None);
    };
    match positionals(alloc, *word, behind)? {
        Some(given) => command_with(alloc, name, given),
        None => Ok(None),
    }
}

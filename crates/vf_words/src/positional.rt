//! The positional words of a command line, as `clap` reads them.

ghost use Rattle.std.specs.Prelude.{◌≡◌, IfOk, All, IsUtf8, option_map, unwrap_or, [], codes};
ghost use Rattle.clap.specs.Words.{all_of, app_of, found_of, rows_of};
ghost use Rattle.vf_words.specs.Positionals.{positionals, texts};
ghost use Rattle.vf_words.specs.Reader.{reader};

use clap::error::ErrorKind;
use clap::{Arg, ArgMatches, Command};
use std::alloc::{AllocError, Global};

/// The command by which `clap` reads the words behind a command's name: it takes any number of positional words.
fn reader<'a>(alloc: Global, name: &'a str) -> Result<Command<'a>, AllocError>
    ensures { IfOk result (λ c. app_of c ≡ reader name.now) }
{
    let words = Arg::new(alloc, "words").num_args(1..);
    Command::new(alloc, name)
        .no_binary_name(true)
        .disable_help_flag(true)
        .arg(words)
}

/// The positional words that were read.
fn values<'a>(alloc: Global, matches: &ArgMatches<'a>) -> Result<Vec<&'a str>, AllocError>
    ensures { IfOk result (λ v. texts v.items ≡ unwrap_or (all_of (codes "words") (rows_of (found_of matches.now))) []) }
{
    match matches.get_strs("words") {
        Some(values) => Vec::from_slice(alloc, values),
        None => Ok(Vec::new(alloc)),
    }
}

/// The positional words among those behind a command's name, or none where one asks for an option.
pub fn positionals<'a>(
    alloc: Global,
    name: &'a str,
    words: &'a [&'a str],
) -> Result<Option<Vec<&'a str>>, AllocError>
    requires text { All (λ w. IsUtf8 w.now) words.now }
    ensures { IfOk result (λ r. option_map (λ v. texts v.items) r ≡ positionals (texts words.now)) }
{
    if words.len() == 0 {
        return Ok(Some(Vec::new(alloc)));
    }
    match reader(alloc, name)?.try_get_matches_from(words) {
        Ok(matches) => Ok(Some(values(alloc, &matches)?)),
        Err(error) => match error.kind() {
            ErrorKind::OutOfMemory => Err(AllocError),
            _ => Ok(None),
        },
    }
}

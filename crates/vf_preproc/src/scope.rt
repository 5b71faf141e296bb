//! What is made of one file.

ghost use Rattle.std.specs.Prelude.{◌≡◌, ℕ, ◌++◌, ◌||◌, ◌&&◌, not, List, Ok, reverse, map, fold, filter, is_some, IfOk, OnOk};
ghost use Rattle.std.specs.List.{list_any};
ghost use Rattle.std.specs.Str.{bytes_eq};
ghost use Rattle.vf_names.specs.Names.{put};
ghost use Rattle.vf_preproc.specs.Macros.{is_name, body_of};
ghost use Rattle.vf_preproc.specs.Directives.{defined, begins_parameters, is_alone, outermost, has_ghost};
ghost use Rattle.vf_preproc.specs.Keywords.{is_keyword};
ghost use Rattle.vf_preproc.specs.Targets.{is_ghost_path};
ghost use Rattle.vf_preproc.specs.UnitText.{define, joined, clashes, with_header, names_in};
ghost use Rattle.vf_preproc.specs.Kept.{table_of};
ghost use Rattle.vf_preproc.specs.Answers.{Gives};

use crate::fault::ExpandFault;
use crate::files::FileList;
use crate::groups::Group;
use crate::macros::Macros;
use crate::replace::is_name;
use crate::words::is_alike;
use std::alloc::Global;
use std::rc::Rc;
use vf_base::{Memory, Place, Sequence};
use vf_lexer::{Token, TokenList};
use vf_names::Names;

/// What a header leaves for those who include it.
#[derive(Drop)]
pub struct Header {
    pub macros: Macros,
    /// The files of which it consists: itself, and those that it includes, directly or through others.
    pub files: FileList,
}

/// What was made of a file so far.
#[derive(Drop)]
pub struct Scope {
    pub macros: Macros,
    /// The groups that are open, the innermost at the end.
    pub groups: Vec<Group>,
    /// The files of which it consists: itself, and those that it includes, directly or through others.
    pub files: FileList,
}

/// The words that are no names.
const KEYWORDS: [&str; 58] = [
    "any",
    "assert",
    "auto",
    "bool",
    "break",
    "case",
    "char",
    "close",
    "const",
    "continue",
    "currentThread",
    "default",
    "do",
    "double",
    "else",
    "emp",
    "ensures",
    "enum",
    "extern",
    "false",
    "fixpoint",
    "float",
    "for",
    "goto",
    "if",
    "inductive",
    "inline",
    "int",
    "invariant",
    "leak",
    "lemma",
    "long",
    "malloc",
    "open",
    "predicate",
    "predicate_ctor",
    "predicate_family",
    "predicate_family_instance",
    "real",
    "register",
    "requires",
    "restrict",
    "result",
    "return",
    "short",
    "signed",
    "sizeof",
    "static",
    "struct",
    "switch",
    "this",
    "true",
    "typedef",
    "union",
    "unsigned",
    "void",
    "volatile",
    "while",
];

/// Whether a word is one of some.
fn is_among(words: &[&str], name: &[u8]) -> bool
    ensures { result ≡ list_any (λ word. bytes_eq name.now word.now) words.now }
{
    for word in words {
        if name == word.as_bytes() {
            return true;
        }
    }
    false
}

/// Whether a word is no name.
#[tactic(auto, unfolding(crate::specs::Keywords::is_keyword))]
fn is_keyword(name: &[u8]) -> bool
    ensures { result ≡ is_keyword name.now }
{
    is_among(&KEYWORDS, name)
}

/// Whether `(` stands directly behind a name.
fn begins_parameters(name: &Token, tokens: &[Token]) -> bool
    ensures { result ≡ begins_parameters name.now tokens.now }
{
    match tokens {
        [] => false,
        [first, ..] => first.text.as_bytes() == b"(".as_slice() && first.start == name.end,
    }
}

/// Whether a directive is one word.
pub fn is_alone(words: &[Token]) -> bool
    ensures { result ≡ is_alone words.now }
{
    match words {
        [_] => true,
        _ => false,
    }
}

/// A list of tokens like another.
fn copy_tokens(alloc: Global, tokens: &[Token]) -> Result<TokenList, Memory>
    ensures { IfOk result (λ copy. copy ≡ tokens.now) }
{
    let mut copy = Sequence::new(alloc);
    for token in tokens {
        copy.push(Token {
            kind: token.kind,
            text: token.text.copy()?,
            start: token.start,
            end: token.end,
            place: token.place,
            is_ghost: token.is_ghost,
        })?;
    }
    Ok(copy)
}

/// Defines a name, which may be defined already with tokens that look alike.
pub fn define_as(
    macros: &mut Macros,
    place: Place,
    name: &[u8],
    tokens: Rc<TokenList>,
) -> Result<(), ExpandFault>
    ensures { Gives (λ _. table_of macros.new) result (defined place name.now tokens.value (table_of macros.old) (body_of (table_of macros.old) name.now)) }
{
    if let Some(number) = macros.names.number(name) {
        if macros.has_body(number, tokens.as_slice()) {
            return Ok(());
        }
        return Err(ExpandFault::directive(place));
    }
    macros.define(name, tokens)?;
    Ok(())
}

/// Follows a `#define`, from the tokens behind its `#`.
pub fn define(
    alloc: Global,
    macros: &mut Macros,
    is_mixed: bool,
    hash: Place,
    words: &[Token],
) -> Result<(), ExpandFault>
    ensures { Gives (λ _. table_of macros.new) result (define is_mixed hash words.now (table_of macros.old)) }
{
    match words {
        [_, name, tokens @ ..] => {
            if is_mixed || !is_name(name) {
                return Err(ExpandFault::directive(hash));
            }
            if is_keyword(name.text.as_bytes()) || begins_parameters(name, tokens) {
                return Err(ExpandFault::directive(name.place));
            }
            let body = Rc::new(alloc, copy_tokens(alloc, tokens)?)?;
            define_as(macros, name.place, name.text.as_bytes(), body)
        }
        _ => Err(ExpandFault::directive(hash)),
    }
}

/// The names that stand in a text.
pub fn names_in(alloc: Global, tokens: &[Token]) -> Result<Names, Memory>
    ensures { IfOk result (λ names. names ≡ names_in tokens.now) }
{
    let mut names = Names::new(alloc);
    for token in tokens {
        if is_name(token) {
            names.put(token.text.as_bytes())?;
        }
    }
    Ok(names)
}

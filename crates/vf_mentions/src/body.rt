//! Bodies of functions and of lemmas.

ghost use Rattle.std.specs.Prelude.{◌≡◌, IfOk};
ghost use Rattle.vf_mentions.specs.Bodies.{mentioned_in_body, mentioned_in_lemma, names_of, parameter_names};

use crate::command::find_in_commands;
use crate::mention::Mention;
use crate::stmt::find_in_block;
use std::alloc::Global;
use vf_base::{Memory, Sequence};
use vf_names::Names;
use vf_syntax::item::{Body, GhostBody, Parameters, Typed};

/// The names of some parameters.
fn names_of(alloc: Global, typed: &Sequence<Typed>) -> Result<Names, Memory>
    ensures { IfOk result (λ names. names ≡ names_of typed.now) }
{
    let mut names = Names::new(alloc);
    for at in 0..typed.len() {
        let Some(parameter) = typed.get(at) else {
            return Ok(names);
        };
        names.push(parameter.name.text.as_bytes())?;
    }
    Ok(names)
}

/// The names of a function's parameters.
fn parameter_names(alloc: Global, parameters: &Parameters) -> Result<Names, Memory>
    ensures { IfOk result (λ names. names ≡ parameter_names parameters.now) }
{
    match parameters {
        Parameters::Void => Ok(Names::new(alloc)),
        Parameters::Listed(typed) => names_of(alloc, typed),
    }
}

/// What the body of a function with these parameters mentions, in the order of the text.
pub fn mentions_of_body(
    alloc: Global,
    parameters: &Parameters,
    body: &Body,
) -> Result<Sequence<Mention>, Memory>
    ensures { IfOk result (λ mentions. mentions ≡ mentioned_in_body (parameter_names parameters.now) body.now) }
{
    let mut locals = parameter_names(alloc, parameters)?;
    let mut found = Sequence::new(alloc);
    find_in_block(&mut locals, &mut found, &body.statements)?;
    Ok(found)
}

/// What the body of a lemma mentions, in the order of the text.
pub fn mentions_of_lemma(alloc: Global, body: &GhostBody) -> Result<Sequence<Mention>, Memory>
    ensures { IfOk result (λ mentions. mentions ≡ mentioned_in_lemma body.now) }
{
    let locals = Names::new(alloc);
    let mut found = Sequence::new(alloc);
    find_in_commands(&locals, &mut found, &body.commands)?;
    Ok(found)
}

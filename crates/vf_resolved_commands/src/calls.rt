//! Calls.

ghost use Rattle.std.specs.Prelude.{◌≡◌, ◌+◌, IfOk, map};
ghost use Rattle.std.specs.Option.{option_copied};
ghost use Rattle.vf_declared.specs.Scopes.{declaration_of};
ghost use Rattle.vf_sorting.specs.Schemes.{sort_of_type};
ghost use Rattle.vf_terms.specs.Settings.{setting_of};
ghost use Rattle.vf_terms.specs.Named.{declaration_seen};
ghost use Rattle.vf_resolved_commands.specs.Commands.{all_passed, call_made, call_read, callee_identity, called, lemma_called};
ghost use Rattle.vf_commands.specs.Calls.{types_in};
ghost use Rattle.vf_sorting.specs.Schemes as schemes;

use crate::command_reading::CommandReading;
use std::alloc::Global;
use vf_asserting::cases::instances;
use vf_base::{Memory, NumberList, Place, Sequence, Text};
use vf_declared::ctype::CType;
use vf_declared::declaration::{GhostDeclaration, Meaning, Signature};
use vf_declared::scope::Scope;
use vf_formula::TermList;
use vf_resolved::command::{Command, CommandNode};
use vf_resolved_parts::patterns::passed;
use vf_sorting::names::sort_of_type;
use vf_sorts::SortList;
use vf_syntax::ghost_expr::GhostExprList;
use vf_terms::arguments::behind;
use vf_terms::named::{declaration_seen, identity};
use vf_terms::{Row, Setting};

/// What is called: whether it is a function of C, for how many type parameters unknown sorts stand, and the sorts of its
/// arguments.
#[derive(Drop)]
struct Callee {
    is_real: bool,
    parameters: usize,
    arguments: SortList,
}

/// The sorts of values of these types.
#[tactic(auto, using(vf_commands::proofs::Calling::types_more, vf_commands::proofs::Calling::types_all))]
fn sorts_of_types(alloc: Global, types: &[CType]) -> Result<SortList, Memory>
    ensures { IfOk result (λ ts. ts ≡ map sort_of_type types.now) }
{
    let mut sorts = SortList::new(alloc);
    for ctype in types {
        sorts.push(sort_of_type(alloc, *ctype))?;
    }
    Ok(sorts)
}

/// The types of the parameters of a function that may be none.
fn types_in(signature: Option<&Signature>) -> &[CType]
    ensures { result.now ≡ types_in (option_copied signature.entry) }
{
    match signature {
        Some(signature) => signature.parameters.as_slice(),
        None => &[],
    }
}

/// For how many type parameters of a declaration unknown sorts stand in the text of something that has a number or none.
fn used_parameters(own: Option<usize>, number: usize, count: usize) -> usize
    ensures { result ≡ schemes.used_parameters own number count }
{
    match own {
        Some(own) => { if own == number { 0 } else { count } }
        None => count,
    }
}

/// What a lemma with a number takes.
fn lemma_called(
    alloc: Global,
    own: Option<usize>,
    number: usize,
    declaration: Option<&GhostDeclaration>,
) -> Result<Callee, Memory>
    ensures { IfOk result (λ g. lemma_called own number (option_copied declaration.entry) ≡ record { is_real = g.is_real; parameters = g.parameters; arguments = g.arguments }) }
{
    match declaration {
        Some(GhostDeclaration::Lemma(lemma)) => {
            let arguments = lemma.arguments.copy(alloc)?;
            Ok(Callee {
                is_real: false,
                parameters: used_parameters(own, number, lemma.parameters),
                arguments,
            })
        }
        _ => Ok(Callee {
            is_real: false,
            parameters: 0,
            arguments: SortList::new(alloc),
        }),
    }
}

/// What is called, by what its name means.
fn called(
    alloc: Global,
    scope: &Scope,
    own: Option<usize>,
    meaning: Option<Meaning>,
) -> Result<Callee, Memory>
    ensures { IfOk result (λ g. called scope.now own meaning ≡ record { is_real = g.is_real; parameters = g.parameters; arguments = g.arguments }) }
{
    match meaning {
        Some(Meaning::Function(number)) => {
            let arguments = sorts_of_types(alloc, types_in(scope.signature(number)))?;
            Ok(Callee {
                is_real: true,
                parameters: 0,
                arguments,
            })
        }
        Some(Meaning::Ghost(number)) => {
            lemma_called(alloc, own, number, scope.ghost_declaration(number))
        }
        _ => Ok(Callee {
            is_real: false,
            parameters: 0,
            arguments: SortList::new(alloc),
        }),
    }
}

/// Expressions that pass for these sorts, one for each, from left to right.
fn all_passed(
    setting: &Setting<'_>,
    sorts: &SortList,
    next: usize,
    arguments: &GhostExprList,
) -> Result<Row, Memory>
    ensures { IfOk result (λ xs. xs ≡ all_passed (setting_of setting.now) sorts.now next arguments.now) }
{
    let mut row = Row {
        terms: TermList::new(setting.alloc),
        next,
    };
    for at in 0..arguments.len().min(sorts.len()) {
        let Some(sort) = sorts.get(at) else {
            return Ok(row);
        };
        let Some(argument) = arguments.get(at) else {
            return Ok(row);
        };
        let value = passed(setting, sort, row.next, argument)?;
        row.terms.push(value.term)?;
        row.next = value.next;
    }
    Ok(row)
}

/// The identity of what a call names at a place.
fn callee_identity(setting: &Setting<'_>, name: &Text, from: u32) -> Result<Text, Memory>
    ensures { IfOk result (λ i. i ≡ callee_identity (setting_of setting.now) name.now (declaration_seen (setting_of setting.now).scope name.now from)) }
{
    match declaration_seen(setting.scope, name.as_bytes(), from) {
        Some(declaration) => identity(
            setting.alloc,
            setting.paths,
            &declaration.files,
            name.as_bytes(),
        ),
        None => identity(
            setting.alloc,
            setting.paths,
            &NumberList::new(setting.alloc),
            name.as_bytes(),
        ),
    }
}

/// A call whose arguments are read: one of a function of C keeps none.
#[tactic(auto, using(crate::proofs::Calling::real_made, crate::proofs::Calling::lemma_made))]
fn call_made(place: Place, is_real: bool, callee: Text, row: Row) -> CommandReading
    ensures { result ≡ call_made place is_real callee row }
{
    if is_real {
        CommandReading {
            command: Command {
                place,
                node: CommandNode::CallReal,
            },
            next: row.next,
        }
    } else {
        CommandReading {
            command: Command {
                place,
                node: CommandNode::Call(callee, row.terms),
            },
            next: row.next,
        }
    }
}

/// A call at a place.
pub fn call_read(
    setting: &Setting<'_>,
    first: usize,
    place: Place,
    name: &Text,
    arguments: &GhostExprList,
) -> Result<CommandReading, Memory>
    ensures { IfOk result (λ x. x ≡ call_read (setting_of setting.now) first place name.now arguments.now) }
{
    let alloc = setting.alloc;
    let meaning = setting.scope.declaration(name, place.file);
    let callee = called(alloc, setting.scope, setting.context.own, meaning)?;
    let behind = behind(first, callee.parameters)?;
    let sorts = instances(
        alloc,
        setting.unknowns,
        first,
        callee.parameters,
        &callee.arguments,
    )?;
    let row = all_passed(setting, &sorts, behind, arguments)?;
    let lemma = callee_identity(setting, name, place.file)?;
    Ok(call_made(place, callee.is_real, lemma, row))
}

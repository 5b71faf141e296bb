//! Files of the first form.

ghost use Rattle.std.specs.Prelude.{◌≡◌, IfOk};
ghost use Rattle.vf_first.specs.FirstForm.{Gives, is_int_result, are_none, is_main, core_of, contract_of, function_of, item_of, first_form};

use crate::contracts::{postcondition_of, precondition_of};
use crate::statements::{Steps, is_int_form, steps_of};
use crate::stop::Stop;
use std::alloc::Global;
use vf_base::{Memory, Place, Sequence, Text};
use vf_syntax::contract::Contract as ContractTree;
use vf_syntax::item::{Body, Item, Parameters, Signature, Unit};
use vf_syntax::written::ResultType;
use vf_tree::{Contract, Core, Function, Plain};

fn is_int_result(of: &ResultType) -> bool
    ensures { result ≡ is_int_result of.now }
{
    match of {
        ResultType::Value(written) => is_int_form(&written.form),
        ResultType::Void(_) => false,
    }
}

fn are_none(parameters: &Parameters) -> bool
    ensures { result ≡ are_none parameters.now }
{
    match parameters {
        Parameters::Void => true,
        Parameters::Listed(typed) => typed.is_empty(),
    }
}

fn is_main(file: u32, signature: &Signature) -> bool
    ensures { result ≡ is_main file signature.now }
{
    is_int_result(&signature.result)
        && signature.name.text.as_bytes() == b"main".as_slice()
        && are_none(&signature.parameters)
        && signature.name.place.file == file
}

/// The core of a file that has `main` alone.
fn core_of(
    alloc: Global,
    path: &str,
    name: Place,
    contract: Contract,
    body: Steps,
    closing: Place,
) -> Result<Core, Memory>
    ensures { IfOk result (λ c. c ≡ core_of path.now name contract body.steps body.locals closing) }
{
    let Steps { steps, locals } = body;
    let mut identity = Text::from_bytes(alloc, path.as_bytes())?;
    identity.push_bytes(b"#main")?;
    let mut functions = Sequence::new(alloc);
    functions.push(Function {
        identity,
        locals,
        steps,
        closing,
    })?;
    let plain = Plain { functions, main: 0 };
    Ok(Core {
        plain,
        name,
        contract,
    })
}

fn contract_of(contract: &ContractTree) -> Option<Contract>
    ensures { result ≡ contract_of contract.now }
{
    let precondition = precondition_of(&contract.precondition)?;
    let postcondition = postcondition_of(&contract.postcondition)?;
    Some(Contract {
        precondition,
        postcondition,
    })
}

fn function_of(
    alloc: Global,
    path: &str,
    file: u32,
    signature: &Signature,
    contract: &ContractTree,
    body: &Body,
) -> Result<Core, Stop>
    ensures { Gives (λ c. c) result (function_of path.now file signature.now contract.now body.now) }
{
    if !is_main(file, signature) {
        return Err(Stop::Other);
    }
    let contract = contract_of(contract).ok_or(Stop::Other)?;
    let steps = steps_of(alloc, &body.statements)?;
    Ok(core_of(
        alloc,
        path,
        signature.name.place,
        contract,
        steps,
        body.last,
    )?)
}

fn item_of(alloc: Global, path: &str, file: u32, item: &Item) -> Result<Core, Stop>
    ensures { Gives (λ c. c) result (item_of path.now file item.now) }
{
    match item {
        Item::Function(signature, None, Some(contract), body) => {
            function_of(alloc, path, file, signature, contract, body)
        }
        _ => Err(Stop::Other),
    }
}

/// The core of a file that is of the first form, and nothing where it is not.
///
/// `file` is the number that places in the file have: main stands in the file itself and in none that it
/// includes. `path` is the file's, and part of main's identity.
pub fn first_form(alloc: Global, path: &str, file: u32, unit: &Unit) -> Result<Option<Core>, Memory>
    ensures { IfOk result (λ r. r ≡ first_form path.now file unit.now.items) }
{
    if unit.items.len() != 1 {
        return Ok(None);
    }
    let Some(item) = unit.items.get(0) else {
        return Ok(None);
    };
    match item_of(alloc, path, file, item) {
        Ok(core) => Ok(Some(core)),
        Err(Stop::Other) => Ok(None),
        Err(Stop::Memory) => Err(Memory),
    }
}

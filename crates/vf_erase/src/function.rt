//! Functions in steps without their annotations.

ghost use Rattle.std.specs.Prelude.{◌≡◌, IfOk, map};
ghost use Rattle.vf_cores.specs.Shown.{core_shown, cores_shown};
ghost use Rattle.vf_functions.specs.Erased.{erased_core};
ghost use Rattle.vf_erase.specs.Shown.{plain_shown, plains_shown};

use crate::nodes::erase_nodes;
use std::alloc::Global;
use vf_base::{Memory, Place, Sequence};
use vf_cores::Core;
use vf_declared::ctype::CType;
use vf_steps::Node;
use vf_syntax::written::Name;

/// A function in steps without its annotations: what runs.
#[derive(Drop)]
pub struct PlainFunction<'a> {
    /// Its name, where its body stands.
    pub name: &'a Name,
    /// The types of its locals by their numbers, the parameters first.
    pub locals: Sequence<CType>,
    /// What its body does.
    pub nodes: Vec<Node<'a>>,
    /// The place of the closing brace.
    pub closing: Place,
}

/// A function in steps without its annotations.
///
/// # Errors
///
/// Where memory ran out.
pub fn erase<'a>(alloc: Global, core: Core<'a>) -> Result<PlainFunction<'a>, Memory>
    ensures { IfOk result (λ f. plain_shown f ≡ erased_core (core_shown core.entry)) }
{
    let Core {
        name,
        contract: _,
        locals,
        nodes,
        closing,
    } = core;
    let nodes = erase_nodes(alloc, nodes)?;
    Ok(PlainFunction {
        name,
        locals,
        nodes,
        closing,
    })
}

/// Functions in steps without their annotations, in the same order.
///
/// # Errors
///
/// Where memory ran out.
pub fn erase_all<'a>(alloc: Global, cores: Vec<Core<'a>>) -> Result<Vec<PlainFunction<'a>>, Memory>
    ensures { IfOk result (λ fs. plains_shown fs.items ≡ map erased_core (cores_shown cores.entry.items)) }
{
    let mut plains = Vec::new(alloc);
    for core in cores {
        plains.push(erase(alloc, core)?)?;
    }
    Ok(plains)
}

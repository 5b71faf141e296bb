//! What a unit declares, each name with the items that declare it.

ghost use Rattle.std.specs.Prelude.{◌≡◌, List};
ghost use Rattle.std.specs.Option.{option_copied};
ghost use Rattle.vf_syntax.specs.declared.item.Item.{Item as ItemTree};
ghost use Rattle.vf_env.specs.Named.{named, tagged};
ghost use Rattle.vf_env.specs.Described.{AreDescribed, IsDescribed, declaring_among};

use crate::trees::{beside_names, beside_tags};
use std::alloc::Global;
use vf_base::{NumberList, RuleFault, Sequence, Text};
use vf_declared::locals::Locals;
use vf_declared::scope::Scope;
use vf_declared::stack::Stack;
use vf_defining::definitions;
use vf_definitions::Definitions;
use vf_syntax::item::Item;

/// What a unit declares, each name with its trees.
///
/// Items are told by their numbers in the unit, from 0. A function, predicate or lemma has the items that declare it
/// without a body and with one; a family has those of its bodies too.
#[derive(Drop)]
pub struct Env {
    /// What is declared.
    pub scope: Scope,
    /// For each name of file level by its number, the items that declare it, in the order of the text.
    pub trees: Stack<NumberList>,
    /// For each tag by its number, the items that declare it, in the order of the text.
    pub tag_trees: Stack<NumberList>,
    /// The fixpoints, as the prover unfolds them.
    pub definitions: Definitions,
}

impl Env {
    /// The items that declare a name of file level; none where it is not declared.
    pub fn trees_of(&self, name: &[u8]) -> Option<&NumberList>
        ensures { (items : List ItemTree) → IsDescribed items self.now → option_copied result ≡ declaring_among named self.now.scope.names name.now items }
    {
        let number = self.scope.names.number(name)?;
        self.trees.get(number)
    }

    /// The items that declare a tag; none where it is not declared.
    pub fn tag_trees_of(&self, tag: &[u8]) -> Option<&NumberList>
        ensures { (items : List ItemTree) → IsDescribed items self.now → option_copied result ≡ declaring_among tagged self.now.scope.tags tag.now items }
    {
        let number = self.scope.tags.number(tag)?;
        self.tag_trees.get(number)
    }
}

/// What a unit declares, with the items that declare each name and with its fixpoints as definitions of the prover. The
/// paths are those of its files, by their numbers; locals are forgotten.
///
/// This takes time near the number of the names that the items declare: each is looked up once; and the time in which the
/// bodies of fixpoints are sorted.
///
/// # Errors
///
/// Refused where the body of a fixpoint is refused with the names of file level that were declared up to it: in a unit
/// that was accepted, and whose files see through each other, no body is.
#[tactic(auto, using(crate::proofs::Describing::refused, crate::proofs::Describing::memory, crate::proofs::Describing::described))]
pub fn describe(
    alloc: Global,
    scope: Scope,
    paths: &[Text],
    items: &Sequence<Item>,
) -> Result<Env, RuleFault>
    ensures { AreDescribed scope paths.now items.now result }
{
    let mut scope = scope;
    let definitions = definitions(alloc, &mut scope, paths, items)?;
    scope.locals = Locals::new(alloc);
    let trees = beside_names(alloc, &scope.names, items)?;
    let tag_trees = beside_tags(alloc, &scope.tags, items)?;
    Ok(Env {
        scope,
        trees,
        tag_trees,
        definitions,
    })
}

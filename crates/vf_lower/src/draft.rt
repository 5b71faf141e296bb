//! What a body becomes, as far as it is lowered.

ghost use Rattle.std.specs.Prelude.{◌≡◌, ◌+◌, ◌++◌, [], ◌∷◌, length, OnOk};
ghost use Rattle.vf_steps.specs.Shown.{action_of, nodes_of};
ghost use Rattle.vf_steps.specs.Tree as steps;
ghost use Rattle.vf_lower.specs.Lowering.{does, taken};
ghost use Rattle.vf_lower.specs.Branches.{if_step, node};
ghost use Rattle.vf_lower.specs.Shown.{test_of};
ghost use Rattle.vf_lower.specs.Did.{Does, drawn};

use crate::test::Test;
use std::alloc::Global;
use vf_base::{Memory, Place, Sequence};
use vf_declared::ctype::CType;
use vf_steps::{Action, Node};

/// The nodes of a body so far, and the types of its locals so far.
#[derive(Drop)]
pub struct Draft<'a> {
    pub locals: Sequence<CType>,
    pub nodes: Vec<Node<'a>>,
}

impl<'a> Draft<'a> {
    /// Adds a node of the statement at a place.
    pub fn add(&mut self, statement: Place, action: Action<'a>) -> Result<(), Memory>
        ensures { Does (λ u. tt) (does statement (action_of action.entry)) self.old self.new result }
    {
        self.nodes.push(Node { statement, action })?;
        Ok(())
    }

    /// Takes a local of a type: its number.
    pub fn take(&mut self, ctype: CType) -> Result<usize, Memory>
        ensures { Does (λ n. n) (taken ctype) self.old self.new result }
    {
        let number = self.locals.len();
        self.locals.push(ctype)?;
        Ok(number)
    }

    /// A draft of the same locals without nodes, which goes on in place of this one.
    pub fn aside(&mut self, alloc: Global) -> Draft<'a>
        ensures locals { result.locals ≡ self.old.locals }
        ensures nodes { result.nodes.items ≡ [] }
        ensures kept { self.new.nodes ≡ self.old.nodes }
    {
        let locals = std::mem::replace(&mut self.locals, Sequence::new(alloc));
        Draft {
            locals,
            nodes: Vec::new(alloc),
        }
    }

    /// Adds the nodes of another draft.
    pub fn append(&mut self, mut nodes: Vec<Node<'a>>) -> Result<(), Memory>
        ensures nodes { OnOk result (drawn self.new ≡ drawn self.old ++ nodes_of nodes.entry.items) }
        ensures locals { OnOk result (self.new.locals ≡ self.old.locals) }
    {
        self.nodes.append(&mut nodes)?;
        Ok(())
    }

    /// Goes on behind two drafts: where a test holds the nodes of the first are done, and else those of the second. The
    /// locals are those of the second.
    pub fn join(
        &mut self,
        statement: Place,
        test: Test,
        mut first: Vec<Node<'a>>,
        second: Draft<'a>,
    ) -> Result<(), Memory>
        ensures nodes { OnOk result (drawn self.new ≡ drawn self.old ++ (node statement (if_step (test_of test) (length (nodes_of first.entry.items) + 1)) ∷ nodes_of first.entry.items ++ node statement (steps.jump (length (drawn second.entry))) ∷ drawn second.entry)) }
        ensures locals { OnOk result (self.new.locals ≡ second.entry.locals) }
    {
        let Draft { locals, nodes } = second;
        first.push(Node {
            statement,
            action: Action::Jump(nodes.len()),
        })?;
        self.add(statement, test.into_if(first.len()))?;
        self.append(first)?;
        self.append(nodes)?;
        self.locals = locals;
        Ok(())
    }
}

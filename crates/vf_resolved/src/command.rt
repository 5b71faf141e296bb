// Written by tools/gen_syntax.py: change it there.
//! Ghost commands.

ghost use Rattle.std.specs.Prelude.{◌≡◌, [], ◌∷◌, ◌++◌, length, slice_get, OnOk};
ghost use Rattle.std.specs.Option.{option_copied};

use crate::assertion::Assertion;
use crate::head::Head;
use crate::pattern::{Argument, Pattern, Share, Slot};
use crate::truth::Truth;
use std::alloc::Global;
use std::marker::Model;
use vf_base::{Memory, Place, Sequence, Text};
use vf_formula::{Term, TermList};

/// A ghost command, and the place of its first token.
#[cycle(command)]
#[derive(Drop)]
pub struct Command {
    pub place: Place,
    pub node: CommandNode,
}

#[cycle(command)]
#[derive(Drop)]
pub enum CommandNode {
    /// `open [s]p(..);`
    Open(Option<Share>, Head, Sequence<Pattern>),
    /// `close [s]p(..);`
    Close(Option<Share>, Head, Sequence<Argument>),
    /// `leak A;`
    Leak(Assertion),
    /// `assert A;`
    Assert(Assertion),
    /// A value for a ghost local, by its symbol, which is declared here or assigned.
    Set(Term, Term),
    /// A call of a lemma.
    Call(Text, TermList),
    /// A call of a function of C, which is refused.
    CallReal,
    /// `if (e) { .. } else { .. }`
    If(Truth, CommandList, CommandList),
    /// `switch (e) { .. }`
    Switch(Term, CommandBranchList),
    /// `{ .. }`
    Block(CommandList),
}

impl Model for Command {
    ghost use Rattle.vf_resolved.specs.CommandTree.{CommandTree};
    ghost use Rattle.vf_resolved.specs.CommandCodes.{coded_command};

    ghost Value = { CommandTree };

    ghost coded = { coded_command };

    ghost use Rattle.vf_resolved.specs.CommandTree.{command_nodes};
    ghost use Rattle.vf_resolved.specs.CommandShown.{command_of};

    ghost view = { λ x. command_of x.place x.node };

    ghost size = { command_nodes };
}

/// A case of a `switch` among ghost commands, and the place of its `case`, as a branch of an assertion has it.
#[cycle(command)]
#[derive(Drop)]
pub struct CommandBranch {
    pub place: Place,
    pub constructor: Text,
    pub number: usize,
    pub names: Sequence<Slot>,
    pub commands: CommandList,
}

impl Model for CommandBranch {
    ghost use Rattle.vf_resolved.specs.CommandTree.{CommandBranchTree};
    ghost use Rattle.vf_resolved.specs.CommandCodes.{coded_command_branch};

    ghost Value = { CommandBranchTree };

    ghost coded = { coded_command_branch };

    ghost use Rattle.vf_resolved.specs.CommandTree.{command_branch_nodes};
    ghost use Rattle.vf_resolved.specs.CommandTree as tree;
    ghost use Rattle.vf_resolved.specs.CommandTree.{command_list};

    ghost view = { λ x. tree.command_branch x.place x.constructor x.number x.names (command_list x.commands) };

    ghost size = { command_branch_nodes };
}

/// A list of these: [`Command`].
#[cycle(command)]
#[derive(Drop)]
pub struct CommandList {
    items: Vec<Command>,
}

impl Model for CommandList {
    ghost use Rattle.std.specs.Prelude.{List};
    ghost use Rattle.vf_resolved.specs.CommandTree.{CommandTree};
    ghost use Rattle.vf_resolved.specs.CommandCodes.{coded_command_list};

    ghost Value = { List CommandTree };

    ghost coded = { coded_command_list };

    ghost view = { λ l. l.items.items };

    ghost use Rattle.vf_resolved.specs.CommandTree.{command_nodes_all, command_list};

    ghost size = { λ xs. command_nodes_all (command_list xs) };

    ghost use Rattle.std.proofs.Common.{arith};
    ghost use Rattle.vf_resolved.specs.CommandTree.{most_le-command_nodes_all};

    ghost size_decreases = { λ l h. Prim.omega (arith, most_le-command_nodes_all l.items.items) };
}

impl CommandList {
    /// The empty list, which takes no memory.
    pub fn new(alloc: Global) -> CommandList
        ensures { result ≡ [] }
    {
        CommandList {
            items: Vec::new(alloc),
        }
    }

    /// Puts an item at the end.
    pub fn push(&mut self, item: Command) -> Result<(), Memory>
        ensures { OnOk result (self.new ≡ self.old ++ item ∷ []) }
    {
        self.items.push(item)?;
        Ok(())
    }

    /// How many items it has.
    pub fn len(&self) -> usize
        ensures { result ≡ length self.now }
    {
        self.items.len()
    }

    /// The item at an index, counted from 0.
    pub fn get(&self, at: usize) -> Option<&Command>
        ensures { option_copied result ≡ slice_get self.now at }
    {
        self.items.get(at)
    }
}

/// A list of these: [`CommandBranch`].
#[cycle(command)]
#[derive(Drop)]
pub struct CommandBranchList {
    items: Vec<CommandBranch>,
}

impl Model for CommandBranchList {
    ghost use Rattle.std.specs.Prelude.{List};
    ghost use Rattle.vf_resolved.specs.CommandTree.{CommandBranchTree};
    ghost use Rattle.vf_resolved.specs.CommandCodes.{coded_command_branch_list};

    ghost Value = { List CommandBranchTree };

    ghost coded = { coded_command_branch_list };

    ghost view = { λ l. l.items.items };

    ghost use Rattle.vf_resolved.specs.CommandTree.{command_branch_nodes_all, command_branch_list};

    ghost size = { λ xs. command_branch_nodes_all (command_branch_list xs) };

    ghost use Rattle.std.proofs.Common.{arith};
    ghost use Rattle.vf_resolved.specs.CommandTree.{most_le-command_branch_nodes_all};

    ghost size_decreases = { λ l h. Prim.omega (arith, most_le-command_branch_nodes_all l.items.items) };
}

impl CommandBranchList {
    /// The empty list, which takes no memory.
    pub fn new(alloc: Global) -> CommandBranchList
        ensures { result ≡ [] }
    {
        CommandBranchList {
            items: Vec::new(alloc),
        }
    }

    /// Puts an item at the end.
    pub fn push(&mut self, item: CommandBranch) -> Result<(), Memory>
        ensures { OnOk result (self.new ≡ self.old ++ item ∷ []) }
    {
        self.items.push(item)?;
        Ok(())
    }

    /// How many items it has.
    pub fn len(&self) -> usize
        ensures { result ≡ length self.now }
    {
        self.items.len()
    }

    /// The item at an index, counted from 0.
    pub fn get(&self, at: usize) -> Option<&CommandBranch>
        ensures { option_copied result ≡ slice_get self.now at }
    {
        self.items.get(at)
    }
}

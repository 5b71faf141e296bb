// Written by tools/gen_syntax.py: change it there.
//! Ghost commands.

ghost use Rattle.std.specs.Prelude.{◌≡◌, [], ◌∷◌, ◌++◌, length, slice_get, OnOk};
ghost use Rattle.std.specs.Option.{option_copied};

use crate::assertion::Assertion;
use crate::ghost_expr::{GhostExpr, GhostExprList};
use crate::pattern::{CasePattern, Pattern, Share};
use crate::sort::Sort;
use crate::written::Name;
use std::alloc::Global;
use std::marker::Model;
use vf_base::{Memory, Place, Sequence, Text};

/// A ghost command, and the place of its first token.
#[cycle(ghost_command)]
#[derive(Drop)]
pub struct GhostCommand {
    pub place: Place,
    pub node: GhostCommandNode,
}

#[cycle(ghost_command)]
#[derive(Drop)]
pub enum GhostCommandNode {
    /// `open [s]p(..)(..);`
    Open(Option<Share>, Name, Sequence<Pattern>, Option<Sequence<Pattern>>),
    /// `close [s]p(..)(..);`
    Close(Option<Share>, Name, Sequence<Pattern>, Option<Sequence<Pattern>>),
    /// `leak A;`
    Leak(Assertion),
    /// `assert A;`
    Assert(Assertion),
    /// `sort x = e;`
    Declaration(Sort, Name, GhostExpr),
    /// `x = e;`
    Assignment(Text, GhostExpr),
    /// `f(..);`
    Call(Text, GhostExprList),
    /// `if (e) { .. }`
    If(GhostExpr, GhostCommandList),
    /// `if (e) { .. } else { .. }`
    IfElse(GhostExpr, GhostCommandList, GhostCommandList),
    /// `switch (e) { .. }`
    Switch(GhostExpr, CommandCaseList),
    /// `{ .. }`
    Block(GhostCommandList),
}

impl Model for GhostCommand {
    ghost use Rattle.vf_syntax.specs.GhostCommandTree.{GhostCommandTree};
    ghost use Rattle.vf_syntax.specs.GhostCommandCodes.{coded_ghost_command};

    ghost Value = { GhostCommandTree };

    ghost coded = { coded_ghost_command };

    ghost use Rattle.vf_syntax.specs.GhostCommandTree.{ghost_command_nodes};
    ghost use Rattle.vf_syntax.specs.GhostCommandShown.{ghost_command_of};

    ghost view = { λ x. ghost_command_of x.place x.node };

    ghost size = { ghost_command_nodes };
}

/// A case of a `switch` among ghost commands, and the place of its `case`.
#[cycle(ghost_command)]
#[derive(Drop)]
pub struct CommandCase {
    pub place: Place,
    pub pattern: CasePattern,
    pub commands: GhostCommandList,
}

impl Model for CommandCase {
    ghost use Rattle.vf_syntax.specs.GhostCommandTree.{CommandCaseTree};
    ghost use Rattle.vf_syntax.specs.GhostCommandCodes.{coded_command_case};

    ghost Value = { CommandCaseTree };

    ghost coded = { coded_command_case };

    ghost use Rattle.vf_syntax.specs.GhostCommandTree.{command_case_nodes};
    ghost use Rattle.vf_syntax.specs.GhostCommandTree as tree;
    ghost use Rattle.vf_syntax.specs.GhostCommandTree.{ghost_command_list};

    ghost view = { λ x. tree.command_case x.place x.pattern (ghost_command_list x.commands) };

    ghost size = { command_case_nodes };
}

/// A list of these: [`GhostCommand`].
#[cycle(ghost_command)]
#[derive(Drop)]
pub struct GhostCommandList {
    items: Vec<GhostCommand>,
}

impl Model for GhostCommandList {
    ghost use Rattle.std.specs.Prelude.{List};
    ghost use Rattle.vf_syntax.specs.GhostCommandTree.{GhostCommandTree};
    ghost use Rattle.vf_syntax.specs.GhostCommandCodes.{coded_ghost_command_list};

    ghost Value = { List GhostCommandTree };

    ghost coded = { coded_ghost_command_list };

    ghost view = { λ l. l.items.items };

    ghost use Rattle.vf_syntax.specs.GhostCommandTree.{ghost_command_nodes_all, ghost_command_list};

    ghost size = { λ xs. ghost_command_nodes_all (ghost_command_list xs) };

    ghost use Rattle.std.proofs.Common.{arith};
    ghost use Rattle.vf_syntax.specs.GhostCommandTree.{most_le-ghost_command_nodes_all};

    ghost size_decreases = { λ l h. Prim.omega (arith, most_le-ghost_command_nodes_all l.items.items) };
}

impl GhostCommandList {
    /// The empty list, which takes no memory.
    pub fn new(alloc: Global) -> GhostCommandList
        ensures { result ≡ [] }
    {
        GhostCommandList {
            items: Vec::new(alloc),
        }
    }

    /// Puts an item at the end.
    pub fn push(&mut self, item: GhostCommand) -> Result<(), Memory>
        ensures { OnOk result (self.new ≡ self.old ++ item ∷ []) }
    {
        self.items.push(item)?;
        Ok(())
    }

    /// How many items it has.
    pub fn len(&self) -> usize
        ensures { result ≡ length self.now }
    {
        self.items.len()
    }

    /// The item at an index, counted from 0.
    pub fn get(&self, at: usize) -> Option<&GhostCommand>
        ensures { option_copied result ≡ slice_get self.now at }
    {
        self.items.get(at)
    }
}

/// A list of these: [`CommandCase`].
#[cycle(ghost_command)]
#[derive(Drop)]
pub struct CommandCaseList {
    items: Vec<CommandCase>,
}

impl Model for CommandCaseList {
    ghost use Rattle.std.specs.Prelude.{List};
    ghost use Rattle.vf_syntax.specs.GhostCommandTree.{CommandCaseTree};
    ghost use Rattle.vf_syntax.specs.GhostCommandCodes.{coded_command_case_list};

    ghost Value = { List CommandCaseTree };

    ghost coded = { coded_command_case_list };

    ghost view = { λ l. l.items.items };

    ghost use Rattle.vf_syntax.specs.GhostCommandTree.{command_case_nodes_all, command_case_list};

    ghost size = { λ xs. command_case_nodes_all (command_case_list xs) };

    ghost use Rattle.std.proofs.Common.{arith};
    ghost use Rattle.vf_syntax.specs.GhostCommandTree.{most_le-command_case_nodes_all};

    ghost size_decreases = { λ l h. Prim.omega (arith, most_le-command_case_nodes_all l.items.items) };
}

impl CommandCaseList {
    /// The empty list, which takes no memory.
    pub fn new(alloc: Global) -> CommandCaseList
        ensures { result ≡ [] }
    {
        CommandCaseList {
            items: Vec::new(alloc),
        }
    }

    /// Puts an item at the end.
    pub fn push(&mut self, item: CommandCase) -> Result<(), Memory>
        ensures { OnOk result (self.new ≡ self.old ++ item ∷ []) }
    {
        self.items.push(item)?;
        Ok(())
    }

    /// How many items it has.
    pub fn len(&self) -> usize
        ensures { result ≡ length self.now }
    {
        self.items.len()
    }

    /// The item at an index, counted from 0.
    pub fn get(&self, at: usize) -> Option<&CommandCase>
        ensures { option_copied result ≡ slice_get self.now at }
    {
        self.items.get(at)
    }
}

//! The last tokens of statements.

ghost use Rattle.std.specs.Prelude.{◌≡◌};
ghost use Rattle.vf_lower.specs.Statements.{last_of};

use vf_base::Place;
use vf_syntax::stmt::{Stmt, StmtNode};

/// The place of the last token of a statement; of a ghost command, which is no body of a loop, it is the first.
pub fn last_of(statement: &Stmt) -> Place
    ensures { result ≡ last_of statement.now }
{
    match &statement.node {
        StmtNode::Declaration(_, _, _, last)
        | StmtNode::Simple(_, last)
        | StmtNode::Return(_, last)
        | StmtNode::Block(_, last) => *last,
        StmtNode::If(_, inner)
        | StmtNode::IfElse(_, _, inner)
        | StmtNode::While(_, _, inner)
        | StmtNode::For(_, _, _, _, inner) => last_of(inner),
        StmtNode::Empty | StmtNode::Ghost(_) => statement.place,
    }
}

//! How the nodes of parts are put together behind a test, and in a loop.

ghost use Rattle.std.specs.Prelude.{◌≡◌, ◌++◌, OnOk, IfOk};
ghost use Rattle.vf_steps.specs.Shown.{nodes_of};
ghost use Rattle.vf_lower.specs.Did.{drawn};
ghost use Rattle.vf_lower.specs.Shown.{test_of};
ghost use Rattle.vf_bodies.specs.Joining.{around, skipped, turn};

use vf_base::{Memory, Place};
use vf_lower::{Draft, Test};
use vf_steps::{Action, Node};
use vf_syntax::contract::Invariant;

/// Goes on behind a part that is done only where a test holds. The locals are those of the part.
pub fn skip<'a>(
    draft: &mut Draft<'a>,
    statement: Place,
    test: Test,
    part: Draft<'a>,
) -> Result<(), Memory>
    ensures nodes { OnOk result (drawn draft.new ≡ drawn draft.old ++ skipped statement (test_of test) (drawn part.entry)) }
    ensures locals { OnOk result (draft.new.locals ≡ part.entry.locals) }
{
    let Draft { locals, nodes } = part;
    draft.add(statement, test.into_if(nodes.len()))?;
    draft.append(nodes)?;
    draft.locals = locals;
    Ok(())
}

/// One turn of a loop: the nodes of its test and those of its body.
fn turned<'a>(
    statement: Place,
    test: Test,
    mut first: Vec<Node<'a>>,
    mut second: Vec<Node<'a>>,
) -> Result<Vec<Node<'a>>, Memory>
    ensures { IfOk result (λ all. nodes_of all.items ≡ turn statement (test_of test) (nodes_of first.entry.items) (nodes_of second.entry.items)) }
{
    first.push(Node {
        statement,
        action: test.into_if(second.len() + 1),
    })?;
    first.append(&mut second)?;
    Ok(first)
}

/// Goes on behind a loop, whose body ends with a token, given the nodes of one turn.
fn enclose<'a>(
    draft: &mut Draft<'a>,
    statement: Place,
    invariant: &'a Option<Invariant>,
    last: Place,
    inside: Vec<Node<'a>>,
) -> Result<(), Memory>
    ensures nodes { OnOk result (drawn draft.new ≡ drawn draft.old ++ around statement invariant.now last (nodes_of inside.entry.items)) }
    ensures locals { OnOk result (draft.new.locals ≡ draft.old.locals) }
{
    let count = inside.len();
    draft.add(
        statement,
        Action::Loop {
            invariant,
            length: count + 1,
            last,
        },
    )?;
    draft.append(inside)?;
    draft.add(statement, Action::Back(count))?;
    draft.add(statement, Action::Exit)?;
    Ok(())
}

/// Goes on behind a loop, whose body ends with a token: as long as its test holds the nodes of the body are done, and
/// those of the test again. The locals are those of the body.
pub fn repeat<'a>(
    draft: &mut Draft<'a>,
    statement: Place,
    invariant: &'a Option<Invariant>,
    last: Place,
    test: Test,
    first: Vec<Node<'a>>,
    second: Draft<'a>,
) -> Result<(), Memory>
    ensures nodes { OnOk result (drawn draft.new ≡ drawn draft.old ++ around statement invariant.now last (turn statement (test_of test) (nodes_of first.entry.items) (drawn second.entry))) }
    ensures locals { OnOk result (draft.new.locals ≡ second.entry.locals) }
{
    let Draft { locals, nodes } = second;
    let inside = turned(statement, test, first, nodes)?;
    enclose(draft, statement, invariant, last, inside)?;
    draft.locals = locals;
    Ok(())
}

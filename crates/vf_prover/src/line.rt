//! The nodes between the root and a node.

ghost use Rattle.std.specs.Prelude.{◌≡◌, ◌≤◌, length, take, IfOk};
ghost use Rattle.vf_prover.specs.Along.{LeadTo};

use vf_base::Memory;
use vf_formula::Literal;
use vf_trail::{Node, Trail};

/// The nodes from the root, which is left out, to a node.
pub(crate) fn line_to(trail: &Trail<Literal>, at: Node) -> Result<Vec<Node>, Memory>
    requires { at.number ≤ length trail.now.facts }
    ensures { IfOk result (λ v. LeadTo trail.now.facts v.items at.number) }
{
    let alloc = trail.allocator();
    let mut line = Vec::new(alloc);
    let mut node = at;
    'climb: while node.number > 0 {
        line.push(node)?;
        node = trail.parent(node);
    }
    line.reverse();
    Ok(line)
}

/// How many nodes two lines have in common at their beginnings.
pub(crate) fn shared(a: &[Node], b: &[Node]) -> usize
    ensures first { result ≤ length a.now }
    ensures second { result ≤ length b.now }
    ensures same { take result a.now ≡ take result b.now }
{
    let mut count = 0;
    'walk: while count < a.len() && count < b.len() {
        if a[count].number != b[count].number {
            return count;
        }
        count += 1;
    }
    count
}

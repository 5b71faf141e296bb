//! What nodes are to the machine.

ghost use Rattle.std.specs.Prelude.{◌≡◌, ◌<◌, Some, length, slice_get};
ghost use Rattle.vf_flow.specs.Leads.{is_step, skips};

use vf_base::Sequence;

/// What a node of a body is to the machine.
#[derive(Clone, Copy, Debug, PartialEq, Eq)]
pub enum Flow {
    /// A step. Where it leads to nodes, it says itself.
    Step,
    /// No step, behind which so many nodes are skipped.
    Skip(usize),
    /// No step, behind which it goes on at the node that stands so many before.
    Back(usize),
    /// The end of the body, at which no step is left.
    End,
}

impl Flow {
    /// Whether it is a step.
    pub fn is_step(self) -> bool
        ensures { result ≡ is_step self }
    {
        match self {
            Flow::Step => true,
            _ => false,
        }
    }

    /// How many nodes it skips, if it leads forward and is no step.
    pub fn skips(self) -> Option<usize>
        ensures { result ≡ skips self }
    {
        match self {
            Flow::Skip(by) => Some(by),
            _ => None,
        }
    }
}

/// The node at an index.
pub fn flow_at(flows: &Sequence<Flow>, at: usize) -> Flow
    requires { at < length flows.now }
    ensures { slice_get flows.now at ≡ Some result }
{
    flows.as_slice()[at]
}

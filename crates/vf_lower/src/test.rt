//! Tests.

ghost use Rattle.std.specs.Prelude.{◌≡◌};
ghost use Rattle.vf_steps.specs.Shown.{action_of, value_of};
ghost use Rattle.vf_lower.specs.Branches.{if_step, opposite, test};
ghost use Rattle.vf_lower.specs.Shown.{test_of};

use vf_core::Comparison;
use vf_steps::{Action, Value};

/// A comparison of two values, or the opposite of it.
#[derive(Drop)]
pub struct Test {
    pub comparison: Comparison,
    pub first: Value,
    pub second: Value,
    pub is_opposite: bool,
}

impl Test {
    /// A comparison as it stands.
    pub fn new(comparison: Comparison, first: Value, second: Value) -> Test
        ensures { test_of result ≡ test comparison (value_of first) (value_of second) }
    {
        Test {
            comparison,
            first,
            second,
            is_opposite: false,
        }
    }

    /// The opposite of it.
    pub fn opposite(self) -> Test
        ensures { test_of result ≡ opposite (test_of self) }
    {
        let Test {
            comparison,
            first,
            second,
            is_opposite,
        } = self;
        Test {
            comparison,
            first,
            second,
            is_opposite: !is_opposite,
        }
    }

    /// The step that goes on where it holds, and else skips so many nodes.
    pub fn into_if<'a>(self, skipped: usize) -> Action<'a>
        ensures { action_of result ≡ if_step (test_of self) skipped }
    {
        let (so, otherwise) = if self.is_opposite {
            (skipped, 0)
        } else {
            (0, skipped)
        };
        let Test {
            comparison,
            first,
            second,
            is_opposite: _,
        } = self;
        Action::If {
            comparison,
            left: first,
            right: second,
            so,
            otherwise,
        }
    }
}

//! The order of texts by their bytes.

ghost use Rattle.std.specs.Prelude.{◌≡◌, ◌↔◌, IsTrue};
ghost use Rattle.std.specs.Cmp.Lexicographic.{slice_cmp};
ghost use Rattle.std.specs.Ordering.{nat_cmp};

use std::cmp::Ordering;

/// Whether a text stands before another in the order of bytes.
pub fn is_before(first: &[u8], second: &[u8]) -> bool
    ensures { IsTrue result ↔ (slice_cmp nat_cmp first.now second.now ≡ Ordering.Less) }
{
    matches!(first.cmp(second), Ordering::Less)
}

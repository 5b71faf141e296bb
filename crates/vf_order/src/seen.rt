//! What is kept of what an expression holds.

ghost use Rattle.std.specs.Prelude.{◌≡◌, [], None};
ghost use Rattle.vf_order.specs.Walked.{behind, beside, called, clash_seen, read_behind, seen};

use vf_base::Place;

/// Of an expression: whether it holds a call, where the first stands that it holds, and where it is refused first.
#[derive(Clone, Copy)]
pub struct Seen {
    pub has_call: bool,
    pub first: Option<Place>,
    pub refusal: Option<Place>,
}

/// Of an expression with reads and calls behind it: the operands of the last of these, and the whole.
#[derive(Clone, Copy)]
pub struct Parts {
    pub operands: Seen,
    pub whole: Seen,
}

impl Seen {
    /// What is kept of nothing.
    pub fn nothing() -> Seen
        ensures { result ≡ seen [] None }
    {
        Seen {
            has_call: false,
            first: None,
            refusal: None,
        }
    }

    /// Where an operand behind these is refused.
    pub fn clash(self, later: Seen) -> Option<Place>
        ensures { result ≡ clash_seen self later }
    {
        if self.first.is_some() && (self.has_call || later.has_call) {
            later.first
        } else {
            None
        }
    }

    /// These and an operand behind them, whose order is set.
    pub fn behind(self, later: Seen) -> Seen
        ensures { result ≡ behind self later }
    {
        Seen {
            has_call: self.has_call || later.has_call,
            first: self.first.or(later.first),
            refusal: self.refusal.or(later.refusal),
        }
    }

    /// These and an operand behind them, whose order is not set.
    pub fn beside(self, later: Seen) -> Seen
        ensures { result ≡ beside self later }
    {
        let refused = self.clash(later).or(later.refusal);
        Seen {
            has_call: self.has_call || later.has_call,
            first: self.first.or(later.first),
            refusal: self.refusal.or(refused),
        }
    }

    /// A call at a place, of which these are the operands.
    pub fn called(self, place: Place) -> Seen
        ensures { result ≡ called place self }
    {
        Seen {
            has_call: true,
            first: Some(place),
            refusal: self.refusal,
        }
    }

    /// A read at a place, of which these are the pointer, and the others all operands.
    pub fn read_behind(self, place: Place, operands: Seen) -> Seen
        ensures { result ≡ read_behind place self operands }
    {
        Seen {
            has_call: operands.has_call,
            first: self.first.or(Some(place)),
            refusal: operands.refusal,
        }
    }
}

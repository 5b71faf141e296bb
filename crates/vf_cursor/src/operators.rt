//! Which operator comes next.

ghost use Rattle.std.specs.Prelude.{◌≡◌};
ghost use Rattle.vf_cursor.specs.Parsing.{punctuator_of};
ghost use Rattle.vf_cursor.specs.Types.{next_mark, next_on, next_unary, next_assignment, next_step, on_level};

use crate::cursor::{Cursor, is_on};
use vf_lexer::{Kind, Punctuator};
use vf_syntax::operator::{AssignmentOperator, BinaryOperator, Level, StepOperator, UnaryOperator};
use vf_syntax::side::Side;

fn punctuator_of(kind: Kind) -> Option<Punctuator>
    ensures { result ≡ punctuator_of kind }
{
    match kind {
        Kind::Punctuator(punctuator) => Some(punctuator),
        _ => None,
    }
}

fn on_level(level: Level, operator: BinaryOperator) -> Option<BinaryOperator>
    ensures { result ≡ on_level level operator }
{
    if operator.level().looseness() == level.looseness() {
        Some(operator)
    } else {
        None
    }
}

impl<'a> Cursor<'a> {
    /// The punctuator that comes next.
    fn next_mark(&self, side: Side) -> Option<Punctuator>
        ensures { result ≡ next_mark side self.now.left.now }
    {
        match self.left {
            [] => None,
            [first, ..] => {
                if is_on(side, first) {
                    punctuator_of(first.kind)
                } else {
                    None
                }
            }
        }
    }

    /// The operator of a level that comes next.
    #[tactic(auto, unfolding(crate::specs::Types::next_on))]
    pub fn next_on(&self, side: Side, level: Level) -> Option<BinaryOperator>
        ensures { result ≡ next_on side level self.now.left.now }
    {
        let mark = self.next_mark(side)?;
        let operator = BinaryOperator::of(mark)?;
        on_level(level, operator)
    }

    /// The operator in front of an operand that comes next.
    #[tactic(auto, unfolding(crate::specs::Types::next_unary))]
    pub fn next_unary(&self, side: Side) -> Option<UnaryOperator>
        ensures { result ≡ next_unary side self.now.left.now }
    {
        let mark = self.next_mark(side)?;
        UnaryOperator::of(mark)
    }

    /// The operator of an assignment that comes next.
    #[tactic(auto, unfolding(crate::specs::Types::next_assignment))]
    pub fn next_assignment(&self) -> Option<AssignmentOperator>
        ensures { result ≡ next_assignment self.now.left.now }
    {
        let mark = self.next_mark(Side::Real)?;
        AssignmentOperator::of(mark)
    }

    /// The `++` or `--` that comes next.
    #[tactic(auto, unfolding(crate::specs::Types::next_step))]
    pub fn next_step(&self) -> Option<StepOperator>
        ensures { result ≡ next_step self.now.left.now }
    {
        let mark = self.next_mark(Side::Real)?;
        StepOperator::of(mark)
    }
}

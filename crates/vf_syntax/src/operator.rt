//! Operators.

ghost use Rattle.std.specs.Prelude.{◌≡◌};
ghost use Rattle.vf_syntax.specs.Written.{unary_mark, binary_mark, level_of, looseness, assignment_mark, step_mark, unary_of, binary_of, assignment_of, step_of};

use vf_lexer::Punctuator;

/// An operator in front of its operand (C11 6.5.3).
#[derive(Clone, Copy, Debug, PartialEq, Eq)]
pub enum UnaryOperator {
    /// `-`
    Minus,
    /// `!`
    Not,
}

/// An operator between two operands (C11 6.5.5, 6.5.6, 6.5.8, 6.5.9, 6.5.13 and 6.5.14).
#[derive(Clone, Copy, Debug, PartialEq, Eq)]
pub enum BinaryOperator {
    /// `*`
    Times,
    /// `/`
    Divide,
    /// `%`
    Remainder,
    /// `+`
    Plus,
    /// `-`
    Minus,
    /// `<`
    Less,
    /// `<=`
    LessOrEqual,
    /// `>`
    Greater,
    /// `>=`
    GreaterOrEqual,
    /// `==`
    Equal,
    /// `!=`
    NotEqual,
    /// `&&`
    And,
    /// `||`
    Or,
}

/// A level of operators: those of one level join from left to right, and each level joins the operands of the ones above it in this list.
#[derive(Clone, Copy, Debug, PartialEq, Eq)]
pub enum Level {
    /// `* / %`
    Multiplicative,
    /// `+ -`
    Additive,
    /// `< <= > >=`
    Relational,
    /// `== !=`
    Equality,
    /// `&&`
    And,
    /// `||`
    Or,
}

/// An operator of an assignment (C11 6.5.16).
#[derive(Clone, Copy, Debug, PartialEq, Eq)]
pub enum AssignmentOperator {
    /// `=`
    Becomes,
    /// `+=`
    PlusBecomes,
    /// `-=`
    MinusBecomes,
    /// `*=`
    TimesBecomes,
    /// `/=`
    DivideBecomes,
    /// `%=`
    RemainderBecomes,
}

/// `++` or `--` (C11 6.5.2.4 and 6.5.3.1).
#[derive(Clone, Copy, Debug, PartialEq, Eq)]
pub enum StepOperator {
    /// `++`
    Increment,
    /// `--`
    Decrement,
}

impl UnaryOperator {
    /// How it is written.
    pub fn mark(self) -> Punctuator
        ensures { result ≡ unary_mark self }
    {
        match self {
            UnaryOperator::Minus => Punctuator::Minus,
            UnaryOperator::Not => Punctuator::Not,
        }
    }

    /// The operator that is written so.
    pub fn of(punctuator: Punctuator) -> Option<UnaryOperator>
        ensures { result ≡ unary_of punctuator }
    {
        match punctuator {
            Punctuator::Minus => Some(UnaryOperator::Minus),
            Punctuator::Not => Some(UnaryOperator::Not),
            _ => None,
        }
    }
}

impl BinaryOperator {
    /// How it is written.
    pub fn mark(self) -> Punctuator
        ensures { result ≡ binary_mark self }
    {
        match self {
            BinaryOperator::Times => Punctuator::Star,
            BinaryOperator::Divide => Punctuator::Slash,
            BinaryOperator::Remainder => Punctuator::Percent,
            BinaryOperator::Plus => Punctuator::Plus,
            BinaryOperator::Minus => Punctuator::Minus,
            BinaryOperator::Less => Punctuator::Less,
            BinaryOperator::LessOrEqual => Punctuator::LessOrEqual,
            BinaryOperator::Greater => Punctuator::Greater,
            BinaryOperator::GreaterOrEqual => Punctuator::GreaterOrEqual,
            BinaryOperator::Equal => Punctuator::Equal,
            BinaryOperator::NotEqual => Punctuator::NotEqual,
            BinaryOperator::And => Punctuator::AndAnd,
            BinaryOperator::Or => Punctuator::OrOr,
        }
    }

    /// The operator that is written so.
    pub fn of(punctuator: Punctuator) -> Option<BinaryOperator>
        ensures { result ≡ binary_of punctuator }
    {
        match punctuator {
            Punctuator::Star => Some(BinaryOperator::Times),
            Punctuator::Slash => Some(BinaryOperator::Divide),
            Punctuator::Percent => Some(BinaryOperator::Remainder),
            Punctuator::Plus => Some(BinaryOperator::Plus),
            Punctuator::Minus => Some(BinaryOperator::Minus),
            Punctuator::Less => Some(BinaryOperator::Less),
            Punctuator::LessOrEqual => Some(BinaryOperator::LessOrEqual),
            Punctuator::Greater => Some(BinaryOperator::Greater),
            Punctuator::GreaterOrEqual => Some(BinaryOperator::GreaterOrEqual),
            Punctuator::Equal => Some(BinaryOperator::Equal),
            Punctuator::NotEqual => Some(BinaryOperator::NotEqual),
            Punctuator::AndAnd => Some(BinaryOperator::And),
            Punctuator::OrOr => Some(BinaryOperator::Or),
            _ => None,
        }
    }

    /// The level on which it stands.
    pub fn level(self) -> Level
        ensures { result ≡ level_of self }
    {
        match self {
            BinaryOperator::Times | BinaryOperator::Divide | BinaryOperator::Remainder => {
                Level::Multiplicative
            }
            BinaryOperator::Plus | BinaryOperator::Minus => Level::Additive,
            BinaryOperator::Less
            | BinaryOperator::LessOrEqual
            | BinaryOperator::Greater
            | BinaryOperator::GreaterOrEqual => Level::Relational,
            BinaryOperator::Equal | BinaryOperator::NotEqual => Level::Equality,
            BinaryOperator::And => Level::And,
            BinaryOperator::Or => Level::Or,
        }
    }
}

impl Level {
    /// How loosely it holds its operands together, from 3 to 8.
    pub fn looseness(self) -> u32
        ensures { result ≡ looseness self }
    {
        match self {
            Level::Multiplicative => 3,
            Level::Additive => 4,
            Level::Relational => 5,
            Level::Equality => 6,
            Level::And => 7,
            Level::Or => 8,
        }
    }
}

impl AssignmentOperator {
    /// How it is written.
    pub fn mark(self) -> Punctuator
        ensures { result ≡ assignment_mark self }
    {
        match self {
            AssignmentOperator::Becomes => Punctuator::Becomes,
            AssignmentOperator::PlusBecomes => Punctuator::PlusBecomes,
            AssignmentOperator::MinusBecomes => Punctuator::MinusBecomes,
            AssignmentOperator::TimesBecomes => Punctuator::StarBecomes,
            AssignmentOperator::DivideBecomes => Punctuator::SlashBecomes,
            AssignmentOperator::RemainderBecomes => Punctuator::PercentBecomes,
        }
    }

    /// The operator that is written so.
    pub fn of(punctuator: Punctuator) -> Option<AssignmentOperator>
        ensures { result ≡ assignment_of punctuator }
    {
        match punctuator {
            Punctuator::Becomes => Some(AssignmentOperator::Becomes),
            Punctuator::PlusBecomes => Some(AssignmentOperator::PlusBecomes),
            Punctuator::MinusBecomes => Some(AssignmentOperator::MinusBecomes),
            Punctuator::StarBecomes => Some(AssignmentOperator::TimesBecomes),
            Punctuator::SlashBecomes => Some(AssignmentOperator::DivideBecomes),
            Punctuator::PercentBecomes => Some(AssignmentOperator::RemainderBecomes),
            _ => None,
        }
    }
}

impl StepOperator {
    /// How it is written.
    pub fn mark(self) -> Punctuator
        ensures { result ≡ step_mark self }
    {
        match self {
            StepOperator::Increment => Punctuator::PlusPlus,
            StepOperator::Decrement => Punctuator::MinusMinus,
        }
    }

    /// The operator that is written so.
    pub fn of(punctuator: Punctuator) -> Option<StepOperator>
        ensures { result ≡ step_of punctuator }
    {
        match punctuator {
            Punctuator::PlusPlus => Some(StepOperator::Increment),
            Punctuator::MinusMinus => Some(StepOperator::Decrement),
            _ => None,
        }
    }
}

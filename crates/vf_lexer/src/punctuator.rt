//! Punctuators.

ghost use Rattle.std.specs.Prelude.{◌≡◌, ◌≤◌, List, ℕ, Bool, true, length, nat_eq, Contains, Some};
ghost use Rattle.std.specs.List.{starts_with};
ghost use Rattle.vf_lexer.specs.declared.punctuator.Punctuator.{Punctuator};
ghost use Rattle.vf_lexer.specs.Punctuators.{spelling, longest_of, punctuator_of, punctuators_in};

/// A punctuator of C or of ghost text.
#[derive(Clone, Copy, Debug, PartialEq, Eq)]
pub enum Punctuator {
    /// `(`
    OpenParenthesis,
    /// `)`
    CloseParenthesis,
    /// `{`
    OpenBrace,
    /// `}`
    CloseBrace,
    /// `[`
    OpenBracket,
    /// `]`
    CloseBracket,
    /// `;`
    Semicolon,
    /// `,`
    Comma,
    /// `:`
    Colon,
    /// `?`
    Question,
    /// `+`
    Plus,
    /// `-`
    Minus,
    /// `*`
    Star,
    /// `/`
    Slash,
    /// `%`
    Percent,
    /// `!`
    Not,
    /// `=`
    Becomes,
    /// `==`
    Equal,
    /// `!=`
    NotEqual,
    /// `<`
    Less,
    /// `<=`
    LessOrEqual,
    /// `>`
    Greater,
    /// `>=`
    GreaterOrEqual,
    /// `&&`
    AndAnd,
    /// `||`
    OrOr,
    /// `->`
    Arrow,
    /// `#`
    Hash,
    /// `++`
    PlusPlus,
    /// `--`
    MinusMinus,
    /// `+=`
    PlusBecomes,
    /// `-=`
    MinusBecomes,
    /// `*=`
    StarBecomes,
    /// `/=`
    SlashBecomes,
    /// `%=`
    PercentBecomes,
    /// `&`
    Ampersand,
    /// `|`
    Bar,
    /// `^`
    Caret,
    /// `~`
    Tilde,
    /// `<<`
    ShiftLeft,
    /// `>>`
    ShiftRight,
    /// `&=`
    AmpersandBecomes,
    /// `|=`
    BarBecomes,
    /// `^=`
    CaretBecomes,
    /// `<<=`
    ShiftLeftBecomes,
    /// `>>=`
    ShiftRightBecomes,
    /// `.`
    Dot,
    /// `...`
    Ellipsis,
    /// `&*&`
    SeparatingAnd,
    /// `|->`
    PointsTo,
}

/// The punctuators of real text, longer ones first.
const REAL: [Punctuator; 47] = [
    Punctuator::ShiftLeftBecomes,
    Punctuator::ShiftRightBecomes,
    Punctuator::Ellipsis,
    Punctuator::Equal,
    Punctuator::NotEqual,
    Punctuator::LessOrEqual,
    Punctuator::GreaterOrEqual,
    Punctuator::AndAnd,
    Punctuator::OrOr,
    Punctuator::Arrow,
    Punctuator::PlusPlus,
    Punctuator::MinusMinus,
    Punctuator::PlusBecomes,
    Punctuator::MinusBecomes,
    Punctuator::StarBecomes,
    Punctuator::SlashBecomes,
    Punctuator::PercentBecomes,
    Punctuator::ShiftLeft,
    Punctuator::ShiftRight,
    Punctuator::AmpersandBecomes,
    Punctuator::BarBecomes,
    Punctuator::CaretBecomes,
    Punctuator::OpenParenthesis,
    Punctuator::CloseParenthesis,
    Punctuator::OpenBrace,
    Punctuator::CloseBrace,
    Punctuator::OpenBracket,
    Punctuator::CloseBracket,
    Punctuator::Semicolon,
    Punctuator::Comma,
    Punctuator::Colon,
    Punctuator::Question,
    Punctuator::Plus,
    Punctuator::Minus,
    Punctuator::Star,
    Punctuator::Slash,
    Punctuator::Percent,
    Punctuator::Not,
    Punctuator::Becomes,
    Punctuator::Less,
    Punctuator::Greater,
    Punctuator::Hash,
    Punctuator::Ampersand,
    Punctuator::Bar,
    Punctuator::Caret,
    Punctuator::Tilde,
    Punctuator::Dot,
];

/// The punctuators of ghost text, longer ones first.
const GHOST: [Punctuator; 30] = [
    Punctuator::SeparatingAnd,
    Punctuator::PointsTo,
    Punctuator::Equal,
    Punctuator::NotEqual,
    Punctuator::LessOrEqual,
    Punctuator::GreaterOrEqual,
    Punctuator::AndAnd,
    Punctuator::OrOr,
    Punctuator::Arrow,
    Punctuator::OpenParenthesis,
    Punctuator::CloseParenthesis,
    Punctuator::OpenBrace,
    Punctuator::CloseBrace,
    Punctuator::OpenBracket,
    Punctuator::CloseBracket,
    Punctuator::Semicolon,
    Punctuator::Comma,
    Punctuator::Colon,
    Punctuator::Question,
    Punctuator::Plus,
    Punctuator::Minus,
    Punctuator::Star,
    Punctuator::Slash,
    Punctuator::Percent,
    Punctuator::Not,
    Punctuator::Becomes,
    Punctuator::Less,
    Punctuator::Greater,
    Punctuator::Hash,
    Punctuator::Bar,
];

impl Punctuator {
    /// How it is written.
    pub fn spelling(self) -> &'static [u8]
        ensures { result.now ≡ spelling self }
    {
        match self {
            Punctuator::OpenParenthesis => b"(",
            Punctuator::CloseParenthesis => b")",
            Punctuator::OpenBrace => b"{",
            Punctuator::CloseBrace => b"}",
            Punctuator::OpenBracket => b"[",
            Punctuator::CloseBracket => b"]",
            Punctuator::Semicolon => b";",
            Punctuator::Comma => b",",
            Punctuator::Colon => b":",
            Punctuator::Question => b"?",
            Punctuator::Plus => b"+",
            Punctuator::Minus => b"-",
            Punctuator::Star => b"*",
            Punctuator::Slash => b"/",
            Punctuator::Percent => b"%",
            Punctuator::Not => b"!",
            Punctuator::Becomes => b"=",
            Punctuator::Equal => b"==",
            Punctuator::NotEqual => b"!=",
            Punctuator::Less => b"<",
            Punctuator::LessOrEqual => b"<=",
            Punctuator::Greater => b">",
            Punctuator::GreaterOrEqual => b">=",
            Punctuator::AndAnd => b"&&",
            Punctuator::OrOr => b"||",
            Punctuator::Arrow => b"->",
            Punctuator::Hash => b"#",
            Punctuator::PlusPlus => b"++",
            Punctuator::MinusMinus => b"--",
            Punctuator::PlusBecomes => b"+=",
            Punctuator::MinusBecomes => b"-=",
            Punctuator::StarBecomes => b"*=",
            Punctuator::SlashBecomes => b"/=",
            Punctuator::PercentBecomes => b"%=",
            Punctuator::Ampersand => b"&",
            Punctuator::Bar => b"|",
            Punctuator::Caret => b"^",
            Punctuator::Tilde => b"~",
            Punctuator::ShiftLeft => b"<<",
            Punctuator::ShiftRight => b">>",
            Punctuator::AmpersandBecomes => b"&=",
            Punctuator::BarBecomes => b"|=",
            Punctuator::CaretBecomes => b"^=",
            Punctuator::ShiftLeftBecomes => b"<<=",
            Punctuator::ShiftRightBecomes => b">>=",
            Punctuator::Dot => b".",
            Punctuator::Ellipsis => b"...",
            Punctuator::SeparatingAnd => b"&*&",
            Punctuator::PointsTo => b"|->",
        }
    }
}

/// The first of some punctuators with which a text begins.
fn longest_of(punctuators: &[Punctuator], text: &[u8]) -> Option<Punctuator>
    ensures { result ≡ longest_of punctuators.now text.now }
{
    for punctuator in punctuators {
        if text.starts_with(punctuator.spelling()) {
            return Some(*punctuator);
        }
    }
    None
}

/// The longest punctuator with which a text begins.
#[tactic(auto, unfolding(crate::specs::Punctuators::punctuator_of))]
pub fn punctuator_of(ghost_text: bool, text: &[u8]) -> Option<Punctuator>
    ensures { result ≡ punctuator_of ghost_text text.now }
{
    if ghost_text {
        longest_of(&GHOST, text)
    } else {
        longest_of(&REAL, text)
    }
}

/// The punctuator in front of a text is the longest of those with which the text begins.
pub fn longest_punctuator()
    ensures { (ghost_text : Bool) (text : List ℕ) (p q : Punctuator)
        → punctuator_of ghost_text text ≡ Some p → Contains (punctuators_in ghost_text) q
        → starts_with nat_eq text (spelling q) ≡ true → length (spelling q) ≤ length (spelling p) }
{}

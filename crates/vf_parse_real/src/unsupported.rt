//! What C has and the language has not.

ghost use Rattle.std.specs.Prelude.{◌≡◌};
ghost use Rattle.std.specs.List.{list_any};
ghost use Rattle.vf_syntax.specs.Keywords.{is_spelled};
ghost use Rattle.vf_parse_real.specs.Unsupported.{is_unsupported_mark, is_unsupported_kind, is_unsupported, first_unsupported};

use vf_base::Place;
use vf_lexer::{Kind, Punctuator, Token};
use vf_syntax::keyword::Keyword;

/// Words of C that are refused.
const UNSUPPORTED_WORDS: [Keyword; 19] = [
    Keyword::Auto,
    Keyword::Break,
    Keyword::Case,
    Keyword::Const,
    Keyword::Continue,
    Keyword::Default,
    Keyword::Do,
    Keyword::Double,
    Keyword::Enum,
    Keyword::Extern,
    Keyword::Float,
    Keyword::Goto,
    Keyword::Inline,
    Keyword::Register,
    Keyword::Restrict,
    Keyword::Static,
    Keyword::Switch,
    Keyword::Union,
    Keyword::Volatile,
];

fn is_spelled(keywords: &[Keyword], word: &[u8]) -> bool
    ensures { result ≡ list_any (is_spelled word.now) keywords.now }
{
    for keyword in keywords {
        if word == keyword.spelling() {
            return true;
        }
    }
    false
}

/// Whether a mark is an operator on bits, `.` or `...`.
fn is_unsupported_mark(mark: Punctuator) -> bool
    ensures { result ≡ is_unsupported_mark mark }
{
    match mark {
        Punctuator::Ampersand => true,
        Punctuator::Bar => true,
        Punctuator::Caret => true,
        Punctuator::Tilde => true,
        Punctuator::ShiftLeft => true,
        Punctuator::ShiftRight => true,
        Punctuator::AmpersandBecomes => true,
        Punctuator::BarBecomes => true,
        Punctuator::CaretBecomes => true,
        Punctuator::ShiftLeftBecomes => true,
        Punctuator::ShiftRightBecomes => true,
        Punctuator::Dot => true,
        Punctuator::Ellipsis => true,
        _ => false,
    }
}

fn is_unsupported_kind(kind: Kind, text: &[u8]) -> bool
    ensures { result ≡ is_unsupported_kind kind text.now }
{
    match kind {
        Kind::Name => is_spelled(&UNSUPPORTED_WORDS, text),
        Kind::Literal => true,
        Kind::Punctuator(mark) => is_unsupported_mark(mark),
        _ => false,
    }
}

/// Whether a token is refused by name.
#[tactic(auto, unfolding(crate::specs::Unsupported::is_unsupported))]
pub fn is_unsupported(token: &Token) -> bool
    ensures { result ≡ is_unsupported token.now }
{
    !token.is_ghost && is_unsupported_kind(token.kind, token.text.as_bytes())
}

/// The place of the first token that is refused by name.
#[tactic(auto, using(crate::proofs::First::first_behind, crate::proofs::First::none_first))]
pub fn first_unsupported(tokens: &[Token]) -> Option<Place>
    ensures { result ≡ first_unsupported tokens.now }
{
    let mut left = tokens;
    while let [first, rest @ ..] = left {
        if is_unsupported(first) {
            return Some(first.place);
        }
        left = rest;
    }
    None
}

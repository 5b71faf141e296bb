//! The tokens of a text.

ghost use Rattle.std.specs.Prelude.{◌≡◌, ◌≤◌, List, ℕ, length, IfOk, IfErr, Bool};
ghost use Rattle.vf_base.specs.declared.place.Place.{Place};
ghost use Rattle.vf_lexer.specs.declared.token.Token.{Token};
ghost use Rattle.vf_lexer.specs.Tokens.{IfLex, IsSlice, IsPlaced};
ghost use Rattle.vf_lexer.specs.declared.token.Kind.{Kind};
ghost use Rattle.vf_lexer.specs.Spellings.{Spells, IsLongest};
ghost use Rattle.vf_lexer.specs.Cuts.{IsToken, HasTokens, HasFault};
ghost use Rattle.std.specs.List.{AllByRecursion};

use crate::cursor::Cursor;
use crate::fault::LexFault;
use crate::token::TokenList;
use std::alloc::Global;
use vf_base::Sequence;

/// The tokens of a text of a file with this number (C11 6.4). All are ghost where it is a ghost header.
///
/// `Lex` has the place of the first byte at which nothing can start or go on, and then the text has no tokens.
pub fn lex(
    alloc: Global,
    bytes: &[u8],
    file: u32,
    ghost_header: bool,
) -> Result<TokenList, LexFault>
    requires { length bytes.now ≤ 1048576 }
    ensures tokens { IfOk result (λ tokens. HasTokens ghost_header file bytes.now tokens) }
    ensures fault { IfErr result (λ e. IfLex e (λ p. HasFault ghost_header file bytes.now p)) }
    ensures none { IfErr result (λ e. IfLex e (λ _. (tokens : List Token)
        → HasTokens ghost_header file bytes.now tokens → ⊥)) }
{
    let mut tokens = Sequence::new(alloc);
    let mut cursor = Cursor::new(bytes, file, ghost_header);
    while cursor.len() > 0 {
        match cursor.next(alloc)? {
            Some(token) => tokens.push(token)?,
            None => {}
        }
    }
    Ok(tokens)
}

/// A text has the tokens of one cut, or one first byte at which nothing can start or go on, and never both.
pub fn one_reading()
    ensures tokens { (header : Bool) (file : ℕ) (bytes : List ℕ) (first second : List Token)
        → HasTokens header file bytes first → HasTokens header file bytes second → first ≡ second }
    ensures places { (header : Bool) (file : ℕ) (bytes : List ℕ) (p q : Place)
        → HasFault header file bytes p → HasFault header file bytes q → p ≡ q }
    ensures never_both { (header : Bool) (file : ℕ) (bytes : List ℕ) (tokens : List Token) (p : Place)
        → HasTokens header file bytes tokens → HasFault header file bytes p → ⊥ }
{}

/// Each token is the bytes of its text from its start to its end.
pub fn tokens_are_slices()
    ensures { (header : Bool) (file : ℕ) (bytes : List ℕ) (tokens : List Token)
        → HasTokens header file bytes tokens → AllByRecursion (IsSlice bytes) tokens }
{}

/// Each token's place is counted from the beginning of its text.
pub fn tokens_have_their_places()
    ensures { (header : Bool) (file : ℕ) (bytes : List ℕ) (tokens : List Token)
        → HasTokens header file bytes tokens → AllByRecursion (IsPlaced file bytes) tokens }
{}

/// Each token is written as its kind is, and none is written by its bytes and more of what follows (C11 6.4,
/// paragraph 4).
pub fn longest_token()
    ensures spelled { (ghost_text : Bool) (kind : Kind) (token rest : List ℕ)
        → IsToken ghost_text kind token rest → Spells ghost_text kind token }
    ensures longest { (ghost_text : Bool) (kind : Kind) (token rest : List ℕ)
        → IsToken ghost_text kind token rest → IsLongest ghost_text token rest }
{}

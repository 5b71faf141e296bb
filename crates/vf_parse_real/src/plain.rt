//! Files as a C compiler reads them: the tokens of real text alone.

ghost use Rattle.std.specs.Prelude.{◌≡◌, IfOk, Some, None, Err, ◌⊎◌};
ghost use Rattle.vf_base.specs.declared.place.Place.{Place};
ghost use Rattle.vf_syntax.specs.declared.side.Grammar.TheVariants.{Plain};
ghost use Rattle.vf_syntax.specs.Units.{Spells};
ghost use Rattle.vf_parse_real.specs.declared.fault.ParseFault.TheVariants as parse_faults;
ghost use Rattle.vf_parse_real.specs.Units.{plain_at, real_tokens};
ghost use Rattle.vf_parse_real.specs.Faults.{Answers};
ghost use Rattle.vf_parse_real.specs.Unsupported.{first_unsupported};

use crate::fault::ParseFault;
use crate::unit::parse_supported;
use crate::unsupported::first_unsupported;
use std::alloc::Global;
use vf_base::{Memory, NumberList, Place, Sequence};
use vf_lexer::{Token, TokenList};
use vf_parse_statement::annotations::NoGhost;
use vf_syntax::item::Unit;
use vf_syntax::side::Grammar;

/// A token like another.
fn copied(token: &Token) -> Result<Token, Memory>
    ensures { IfOk result (λ t. t ≡ token.now) }
{
    Ok(Token {
        kind: token.kind,
        text: token.text.copy()?,
        start: token.start,
        end: token.end,
        place: token.place,
        is_ghost: token.is_ghost,
    })
}

/// The tokens of real text.
fn real_tokens(alloc: Global, tokens: &[Token]) -> Result<TokenList, Memory>
    ensures { IfOk result (λ ts. ts ≡ real_tokens tokens.now) }
{
    let mut real = Sequence::new(alloc);
    for token in tokens {
        if !token.is_ghost {
            real.push(copied(token)?)?;
        }
    }
    Ok(real)
}

/// Reads the tokens of real text of a file by the grammar without annotations.
pub fn parse_plain(
    alloc: Global,
    tokens: &[Token],
    headers: NumberList,
    end: Place,
) -> Result<Unit, ParseFault>
    ensures spelled { IfOk result (λ u. Spells Plain 128 u (real_tokens tokens.now)) }
    ensures unsupported { (p : Place) → first_unsupported tokens.now ≡ Some p → result ≡ Err (parse_faults.Unsupported p) }
    ensures read { first_unsupported tokens.now ≡ None → Answers result end (real_tokens tokens.now) (plain_at 128 (real_tokens tokens.now)) }
    ensures headers { IfOk result (λ u. u.headers ≡ headers) }
{
    if let Some(place) = first_unsupported(tokens) {
        return Err(ParseFault::Unsupported(place));
    }
    let real = real_tokens(alloc, tokens)?;
    parse_supported(
        alloc,
        &NoGhost,
        Grammar::Plain,
        real.as_slice(),
        headers,
        end,
    )
}

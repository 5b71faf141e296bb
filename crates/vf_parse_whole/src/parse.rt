//! Files of the whole language.

ghost use Rattle.std.specs.Prelude.{◌≡◌, IfOk, Some, None, Err};
ghost use Rattle.vf_base.specs.declared.place.Place.{Place};
ghost use Rattle.vf_syntax.specs.declared.side.Grammar.TheVariants.{Whole};
ghost use Rattle.vf_syntax.specs.Units.{Spells};
ghost use Rattle.vf_parse_real.specs.declared.fault.ParseFault.TheVariants as parse_faults;
ghost use Rattle.vf_parse_real.specs.Faults.{Answers};
ghost use Rattle.vf_parse_real.specs.Unsupported.{first_unsupported};
ghost use Rattle.vf_parse_whole.specs.Wholes.{whole_at};

use crate::annotations::Annotations;
use std::alloc::Global;
use vf_base::{NumberList, Place};
use vf_lexer::Token;
use vf_parse_real::fault::ParseFault;
use vf_parse_real::unit::parse_by;
use vf_syntax::item::Unit;
use vf_syntax::side::Grammar;

/// Reads the tokens of a file by the whole grammar, with the numbers of its headers and the place of its end.
pub fn parse(
    alloc: Global,
    tokens: &[Token],
    headers: NumberList,
    end: Place,
) -> Result<Unit, ParseFault>
    ensures spelled { IfOk result (λ u. Spells Whole 128 u tokens.now) }
    ensures unsupported { (p : Place) → first_unsupported tokens.now ≡ Some p → result ≡ Err (parse_faults.Unsupported p) }
    ensures read { first_unsupported tokens.now ≡ None → Answers result end tokens.now (whole_at 128 tokens.now) }
    ensures headers { IfOk result (λ u. u.headers ≡ headers) }
{
    parse_by(alloc, &Annotations, Grammar::Whole, tokens, headers, end)
}

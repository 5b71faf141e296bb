//! Units as a C compiler reads them.

ghost use Rattle.std.specs.Prelude.{◌≡◌, IfOk, Some, None, Err};
ghost use Rattle.vf_base.specs.declared.place.Place.{Place};
ghost use Rattle.vf_syntax.specs.declared.item.Unit.{Unit as FileUnit};
ghost use Rattle.vf_syntax.specs.declared.side.Grammar.TheVariants.{Plain};
ghost use Rattle.vf_syntax.specs.Units.{Spells};
ghost use Rattle.vf_parse_real.specs.declared.fault.ParseFault.TheVariants as parse_faults;
ghost use Rattle.vf_parse_real.specs.Faults.{Answers};
ghost use Rattle.vf_parse_real.specs.Units.{plain_at, real_tokens};
ghost use Rattle.vf_parse_real.specs.Unsupported.{first_unsupported};
ghost use Rattle.vf_grammar_read.specs.units.Laws.{IsRead};
ghost use Rattle.vf_grammar_stops.specs.units.Laws.{NoUnitBegins};
ghost use Rattle.vf_grammar_depth.specs.units.Deep.{GoesOnWith};

use std::alloc::Global;
use vf_expand::UnitTokens;
use vf_parse_real::fault::ParseFault;
use vf_parse_real::plain::parse_plain as parse_real;
use vf_parse_real::unsupported::first_unsupported;
use vf_syntax::item::Unit;

/// The tree of the tokens of real text of a unit, or where reading it stops.
fn read(alloc: Global, unit: &UnitTokens) -> Result<Unit, ParseFault>
    ensures spelled { IfOk result (λ u. Spells Plain 128 u (real_tokens unit.now.tokens)) }
    ensures unsupported { (p : Place) → first_unsupported unit.now.tokens ≡ Some p → result ≡ Err (parse_faults.Unsupported p) }
    ensures read { first_unsupported unit.now.tokens ≡ None → Answers result unit.now.end (real_tokens unit.now.tokens) (plain_at 128 (real_tokens unit.now.tokens)) }
    ensures headers { IfOk result (λ u. u.headers ≡ unit.now.headers) }
{
    if let Some(place) = first_unsupported(unit.tokens.as_slice()) {
        return Err(ParseFault::Unsupported(place));
    }
    let headers = unit.headers.copy()?;
    parse_real(alloc, unit.tokens.as_slice(), headers, unit.end)
}

/// Reads the tokens of real text of a unit by the grammar without annotations.
///
/// # Errors
///
/// As of [`parse`](crate::whole::parse), for the tokens of real text and that grammar.
pub fn parse_plain(alloc: Global, unit: &UnitTokens) -> Result<Unit, ParseFault>
    ensures spelled { IfOk result (λ u. Spells Plain 128 u (real_tokens unit.now.tokens)) }
    ensures only { (u : FileUnit) → Spells Plain 128 u (real_tokens unit.now.tokens) → IsRead result u }
    ensures unsupported { (p : Place) → first_unsupported unit.now.tokens ≡ Some p → result ≡ Err (parse_faults.Unsupported p) }
    ensures named { (p : Place) → result ≡ Err (parse_faults.Unsupported p) → first_unsupported unit.now.tokens ≡ Some p }
    ensures syntax { (p : Place) → result ≡ Err (parse_faults.Syntax p) → (first_unsupported unit.now.tokens ≡ None) × NoUnitBegins Plain (real_tokens unit.now.tokens) unit.now.end p }
    ensures depth { (p : Place) → result ≡ Err (parse_faults.Depth p) → (first_unsupported unit.now.tokens ≡ None) × GoesOnWith plain_at 128 (real_tokens unit.now.tokens) p }
    ensures read { first_unsupported unit.now.tokens ≡ None → Answers result unit.now.end (real_tokens unit.now.tokens) (plain_at 128 (real_tokens unit.now.tokens)) }
    ensures headers { IfOk result (λ u. u.headers ≡ unit.now.headers) }
{
    read(alloc, unit)
}

//! Units of the whole grammar.

ghost use Rattle.std.specs.Prelude.{◌≡◌, IfOk, Some, None, Err};
ghost use Rattle.vf_base.specs.declared.place.Place.{Place};
ghost use Rattle.vf_syntax.specs.declared.item.Unit.{Unit as FileUnit};
ghost use Rattle.vf_syntax.specs.declared.side.Grammar.TheVariants.{Whole};
ghost use Rattle.vf_syntax.specs.Units.{Spells};
ghost use Rattle.vf_parse_real.specs.declared.fault.ParseFault.TheVariants as parse_faults;
ghost use Rattle.vf_parse_real.specs.Faults.{Answers};
ghost use Rattle.vf_parse_real.specs.Unsupported.{first_unsupported};
ghost use Rattle.vf_parse_whole.specs.Wholes.{whole_at};
ghost use Rattle.vf_grammar_read.specs.units.Laws.{IsRead};
ghost use Rattle.vf_grammar_stops.specs.units.Laws.{NoUnitBegins};
ghost use Rattle.vf_grammar_depth.specs.whole_units.Deep.{WholeGoesOn};

use std::alloc::Global;
use vf_expand::UnitTokens;
use vf_parse_real::fault::ParseFault;
use vf_parse_real::unit::parse_supported;
use vf_parse_real::unsupported::first_unsupported;
use vf_parse_whole::annotations::Annotations;
use vf_syntax::item::Unit;
use vf_syntax::side::Grammar;

/// The tree of a unit, or where reading it stops.
fn read(alloc: Global, unit: &UnitTokens) -> Result<Unit, ParseFault>
    ensures spelled { IfOk result (λ u. Spells Whole 128 u unit.now.tokens) }
    ensures unsupported { (p : Place) → first_unsupported unit.now.tokens ≡ Some p → result ≡ Err (parse_faults.Unsupported p) }
    ensures read { first_unsupported unit.now.tokens ≡ None → Answers result unit.now.end unit.now.tokens (whole_at 128 unit.now.tokens) }
    ensures headers { IfOk result (λ u. u.headers ≡ unit.now.headers) }
{
    if let Some(place) = first_unsupported(unit.tokens.as_slice()) {
        return Err(ParseFault::Unsupported(place));
    }
    let headers = unit.headers.copy()?;
    parse_supported(
        alloc,
        &Annotations,
        Grammar::Whole,
        unit.tokens.as_slice(),
        headers,
        unit.end,
    )
}

/// Reads the tokens of a unit by the whole grammar.
///
/// # Errors
///
/// Unsupported at the first token that the language names as one that it has not; else Syntax, where no unit
/// begins with the tokens up to the place, which may be the end of the file; else Depth, at a token that stands
/// more than 128 deep; and Memory.
pub fn parse(alloc: Global, unit: &UnitTokens) -> Result<Unit, ParseFault>
    ensures spelled { IfOk result (λ u. Spells Whole 128 u unit.now.tokens) }
    ensures only { (u : FileUnit) → Spells Whole 128 u unit.now.tokens → IsRead result u }
    ensures unsupported { (p : Place) → first_unsupported unit.now.tokens ≡ Some p → result ≡ Err (parse_faults.Unsupported p) }
    ensures named { (p : Place) → result ≡ Err (parse_faults.Unsupported p) → first_unsupported unit.now.tokens ≡ Some p }
    ensures syntax { (p : Place) → result ≡ Err (parse_faults.Syntax p) → (first_unsupported unit.now.tokens ≡ None) × NoUnitBegins Whole unit.now.tokens unit.now.end p }
    ensures depth { (p : Place) → result ≡ Err (parse_faults.Depth p) → (first_unsupported unit.now.tokens ≡ None) × WholeGoesOn 128 unit.now.tokens p }
    ensures read { first_unsupported unit.now.tokens ≡ None → Answers result unit.now.end unit.now.tokens (whole_at 128 unit.now.tokens) }
    ensures headers { IfOk result (λ u. u.headers ≡ unit.now.headers) }
{
    read(alloc, unit)
}

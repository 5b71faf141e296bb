//! From the tokens of a unit to its tree.

ghost use Rattle.std.specs.Prelude.{◌≡◌, IfOk, Some};
ghost use Rattle.vf_expand.specs.Wholes.{text_of};
ghost use Rattle.vf_module.specs.Parsing.{items_of, parsed_items, refusal_at, refused};

use std::alloc::Global;
use vf_base::{Memory, Place, Refusal, Rule, Shown};
use vf_expand::UnitTokens;
use vf_parse_c::whole::parse;
use vf_parse_real::fault::ParseFault;
use vf_syntax::item::Unit;

/// What came of parsing a unit's tokens.
#[derive(Drop)]
pub enum Parsed {
    Unit(Unit),
    /// Its first refusal.
    Refused(Refusal),
}

/// A refusal by a rule at a place.
pub fn refusal_at(rule: Rule, place: Place) -> Refusal
    ensures { result ≡ refusal_at rule place }
{
    Refusal {
        rule,
        place,
        shown: Shown::Nothing,
    }
}

/// The refusal for a fault of the parser.
fn refused(fault: ParseFault) -> Result<Refusal, Memory>
    ensures { IfOk result (λ r. refused fault ≡ Some r) }
{
    match fault {
        ParseFault::Unsupported(place) => Ok(refusal_at(Rule::Unsupported, place)),
        ParseFault::Syntax(place) => Ok(refusal_at(Rule::Syntax, place)),
        ParseFault::Depth(place) => Ok(refusal_at(Rule::Depth, place)),
        ParseFault::Memory => Err(Memory),
    }
}

/// The unit of tokens, or their first refusal: a token that is not supported, that cannot stand where it does, or that
/// stands too deep.
pub fn parse_unit(alloc: Global, tokens: &UnitTokens) -> Result<Parsed, Memory>
    ensures { IfOk result (λ p. items_of (text_of tokens.now) ≡ parsed_items p) }
{
    match parse(alloc, tokens) {
        Ok(unit) => Ok(Parsed::Unit(unit)),
        Err(fault) => Ok(Parsed::Refused(refused(fault)?)),
    }
}

//! Contracts, claims and invariants.

ghost use Rattle.std.specs.Prelude.{◌≡◌};
ghost use Rattle.vf_cursor.specs.Parsing.{Gives};
ghost use Rattle.vf_parse_ghost.specs.Clauses.{claim_at, clause_at, contract_at, invariant_at, any_contract_at};

use vf_base::Place;
use vf_cursor::cursor::Cursor;
use vf_cursor::fault::Stop;
use vf_lexer::Punctuator;
use vf_parse_assertion::assertions::assertion;
use vf_syntax::assertion::Assertion;
use vf_syntax::contract::{Claim, Contract, Invariant};
use vf_syntax::keyword::Keyword;
use vf_syntax::side::Side;

/// A claim.
#[tactic(auto, unfolding(crate::specs::Clauses::claim_at))]
pub fn claim(cursor: &mut Cursor) -> Result<Claim, Stop>
    ensures { Gives result cursor.new.left.now (claim_at cursor.old.left.now) }
{
    let place = cursor.mark(Side::Ghost, Punctuator::Colon)?;
    let name = cursor.name(Side::Ghost)?;
    Ok(Claim { place, name })
}

/// A word, an assertion behind it and a `;`: the place of the word, and the assertion.
#[tactic(auto, unfolding(crate::specs::Clauses::clause_at))]
fn clause(cursor: &mut Cursor, keyword: Keyword, depth: u32) -> Result<(Place, Assertion), Stop>
    ensures { Gives result cursor.new.left.now (clause_at keyword depth cursor.old.left.now) }
{
    let place = cursor.word(Side::Ghost, keyword)?;
    let read = assertion(cursor, depth)?;
    cursor.mark(Side::Ghost, Punctuator::Semicolon)?;
    Ok((place, read))
}

/// A contract whose assertions nest at most so deep, themselves counted.
#[tactic(auto, unfolding(crate::specs::Clauses::contract_at))]
pub fn contract(cursor: &mut Cursor, depth: u32) -> Result<Contract, Stop>
    ensures { Gives result cursor.new.left.now (contract_at depth cursor.old.left.now) }
{
    let (place, precondition) = clause(cursor, Keyword::Requires, depth)?;
    let (_, postcondition) = clause(cursor, Keyword::Ensures, depth)?;
    Ok(Contract {
        place,
        precondition,
        postcondition,
    })
}

/// An invariant whose assertion nests at most so deep, itself counted.
#[tactic(auto, unfolding(crate::specs::Clauses::invariant_at))]
pub fn invariant(cursor: &mut Cursor, depth: u32) -> Result<Invariant, Stop>
    ensures { Gives result cursor.new.left.now (invariant_at depth cursor.old.left.now) }
{
    let (place, assertion) = clause(cursor, Keyword::Invariant, depth)?;
    Ok(Invariant { place, assertion })
}

/// A contract, or none where no `requires` comes next.
#[tactic(auto, unfolding(crate::specs::Clauses::any_contract_at))]
pub fn any_contract(cursor: &mut Cursor, depth: u32) -> Result<Option<Contract>, Stop>
    ensures { Gives result cursor.new.left.now (any_contract_at depth cursor.old.left.now) }
{
    if cursor.sees_word(Side::Ghost, Keyword::Requires) {
        let read = contract(cursor, depth)?;
        return Ok(Some(read));
    }
    Ok(None)
}

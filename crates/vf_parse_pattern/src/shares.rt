//! Shares.

ghost use Rattle.std.specs.Prelude.{◌≡◌};
ghost use Rattle.vf_syntax.specs.Walks.{head_has};
ghost use Rattle.vf_cursor.specs.Parsing.{Gives, many};
ghost use Rattle.vf_parse_pattern.specs.Shares.{number_factor_at, factor_at, is_factor_mark, factor_link_at, factor_step, product_at, amount_at, share_at, any_share_at};

use vf_base::Sequence;
use vf_cursor::cursor::{Cursor, is_mark};
use vf_cursor::fault::Stop;
use vf_lexer::Punctuator;
use vf_syntax::pattern::{Amount, Factor, FactorLink, Share};
use vf_syntax::side::Side;

#[tactic(auto, unfolding(crate::specs::Shares::number_factor_at))]
fn number_factor(cursor: &mut Cursor) -> Result<Factor, Stop>
    ensures { Gives result cursor.new.left.now (number_factor_at cursor.old.left.now) }
{
    let place = cursor.here()?;
    let (value, int_type) = cursor.number(Side::Ghost)?;
    Ok(Factor::Number(value, int_type, place))
}

#[tactic(auto, unfolding(crate::specs::Shares::factor_at))]
fn factor(cursor: &mut Cursor) -> Result<Factor, Stop>
    ensures { Gives result cursor.new.left.now (factor_at cursor.old.left.now) }
{
    if cursor.sees_name(Side::Ghost) {
        let name = cursor.name(Side::Ghost)?;
        return Ok(Factor::Name(name));
    }
    number_factor(cursor)
}

/// Whether `*` or `/` comes next.
#[tactic(auto, unfolding(crate::specs::Shares::is_factor_mark))]
fn sees_factor_mark(cursor: &Cursor) -> bool
    ensures { result ≡ head_has is_factor_mark cursor.now.left.now }
{
    match cursor.left {
        [] => false,
        [first, ..] => {
            is_mark(Side::Ghost, Punctuator::Star, first)
                || is_mark(Side::Ghost, Punctuator::Slash, first)
        }
    }
}

/// `*` or `/`, and the factor behind it.
#[tactic(auto, unfolding(crate::specs::Shares::factor_link_at))]
fn factor_link(cursor: &mut Cursor) -> Result<FactorLink, Stop>
    ensures { Gives result cursor.new.left.now (factor_link_at cursor.old.left.now) }
{
    if cursor.sees_mark(Side::Ghost, Punctuator::Slash) {
        cursor.mark(Side::Ghost, Punctuator::Slash)?;
        let factor = factor(cursor)?;
        return Ok(FactorLink {
            divides: true,
            factor,
        });
    }
    cursor.mark(Side::Ghost, Punctuator::Star)?;
    let factor = factor(cursor)?;
    Ok(FactorLink {
        divides: false,
        factor,
    })
}

/// One more factor.
#[tactic(auto, unfolding(crate::specs::Shares::factor_step))]
fn one_more_factor(
    cursor: &mut Cursor,
    before: Sequence<FactorLink>,
) -> Result<Sequence<FactorLink>, Stop>
    ensures { Gives result cursor.new.left.now (factor_step before cursor.old.left.now) }
{
    let mut links = before;
    let next = factor_link(cursor)?;
    links.push(next)?;
    Ok(links)
}

#[tactic(auto, using(vf_cursor::proofs::Loop::many_stops, vf_cursor::proofs::Loop::many_goes, vf_cursor::proofs::Loop::many_fails))]
fn more_factors(
    cursor: &mut Cursor,
    first: Sequence<FactorLink>,
) -> Result<Sequence<FactorLink>, Stop>
    ensures { Gives result cursor.new.left.now (many is_factor_mark factor_step first cursor.old.left.now) }
{
    let mut links = first;
    let most = cursor.left.len();
    for i in 0..most {
        if !sees_factor_mark(cursor) {
            return Ok(links);
        }
        links = one_more_factor(cursor, links)?;
    }
    Ok(links)
}

#[tactic(auto, unfolding(crate::specs::Shares::product_at))]
fn product(cursor: &mut Cursor) -> Result<Amount, Stop>
    ensures { Gives result cursor.new.left.now (product_at cursor.old.left.now) }
{
    let first = factor(cursor)?;
    let links = more_factors(cursor, Sequence::new(cursor.alloc))?;
    Ok(Amount::Product(first, links))
}

#[tactic(auto, unfolding(crate::specs::Shares::amount_at))]
fn amount(cursor: &mut Cursor) -> Result<Amount, Stop>
    ensures { Gives result cursor.new.left.now (amount_at cursor.old.left.now) }
{
    if cursor.sees_mark(Side::Ghost, Punctuator::Question) {
        let place = cursor.mark(Side::Ghost, Punctuator::Question)?;
        let name = cursor.name(Side::Ghost)?;
        return Ok(Amount::Binds(place, name));
    }
    product(cursor)
}

/// A share.
#[tactic(auto, unfolding(crate::specs::Shares::share_at))]
pub fn share(cursor: &mut Cursor) -> Result<Share, Stop>
    ensures { Gives result cursor.new.left.now (share_at cursor.old.left.now) }
{
    let place = cursor.mark(Side::Ghost, Punctuator::OpenBracket)?;
    let amount = amount(cursor)?;
    cursor.mark(Side::Ghost, Punctuator::CloseBracket)?;
    Ok(Share { place, amount })
}

/// A share, where one stands there.
#[tactic(auto, unfolding(crate::specs::Shares::any_share_at))]
pub fn any_share(cursor: &mut Cursor) -> Result<Option<Share>, Stop>
    ensures { Gives result cursor.new.left.now (any_share_at cursor.old.left.now) }
{
    if cursor.sees_mark(Side::Ghost, Punctuator::OpenBracket) {
        let share = share(cursor)?;
        return Ok(Some(share));
    }
    Ok(None)
}

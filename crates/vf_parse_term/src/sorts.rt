//! Sorts.

ghost use Rattle.std.specs.Prelude.{◌≡◌, ◌*◌, ◌+◌};
ghost use Rattle.vf_lexer.specs.declared.punctuator.Punctuator.TheVariants.{Comma, CloseParenthesis};
ghost use Rattle.vf_syntax.specs.declared.side.Side.TheVariants.{Ghost};
ghost use Rattle.vf_syntax.specs.Walks.{head_has, is_mark};
ghost use Rattle.vf_cursor.specs.Parsing.{Gives, many};
ghost use Rattle.vf_parse_term.specs.Pieces.{too_deep_at, behind_comma, comma_step, some_at, any_at};
ghost use Rattle.vf_parse_term.specs.Sorts.{begins_sort, applied_sort_at, named_sort_at, predicate_sort_at, sort_form_at, sort_at};

use vf_base::{Place, Text};
use vf_cursor::cursor::{Cursor, is_name, is_word};
use vf_cursor::fault::Stop;
use vf_lexer::{Punctuator, Token};
use vf_syntax::keyword::Keyword;
use vf_syntax::side::Side;
use vf_syntax::sort::{Sort, SortList, SortNode};
use vf_syntax::written::{CType, TypeForm};

/// Whether a sort can begin with what comes next.
#[tactic(auto, unfolding(crate::specs::Sorts::begins_sort))]
pub fn sees_sort(cursor: &Cursor) -> bool
    ensures { result ≡ head_has begins_sort cursor.now.left.now }
{
    match cursor.left {
        [] => false,
        [first, ..] => {
            is_word(Side::Ghost, Keyword::Real, first)
                || is_word(Side::Ghost, Keyword::Any, first)
                || is_word(Side::Ghost, Keyword::Predicate, first)
                || is_name(Side::Ghost, first)
                || cursor.sees_type_word(Side::Ghost)
        }
    }
}

/// A sort may not stand there, since it stands too deep.
#[tactic(auto, unfolding(crate::specs::Pieces::too_deep_at))]
fn too_deep(cursor: &Cursor) -> Result<Sort, Stop>
    ensures { Gives result cursor.now.left.now (too_deep_at begins_sort cursor.now.left.now) }
{
    if sees_sort(cursor) {
        Err(cursor.depth())
    } else {
        Err(cursor.syntax())
    }
}

/// A sort in which fewer than `depth` stand in one another.
#[cycle(sort)]
#[tactic(auto, unfolding(crate::specs::Sorts::sort_at))]
pub fn sort(cursor: &mut Cursor, depth: u32) -> Result<Sort, Stop>
    ensures { Gives result cursor.new.left.now (sort_at depth cursor.old.left.now) }
{
    if depth == 0 {
        return too_deep(cursor);
    }
    let place = cursor.here()?;
    sort_form(cursor, depth - 1, place)
}

#[cycle(sort)]
#[tactic(auto, unfolding(crate::specs::Sorts::sort_form_at))]
fn sort_form(cursor: &mut Cursor, depth: u32, place: Place) -> Result<Sort, Stop>
    ensures { Gives result cursor.new.left.now (sort_form_at (sort_at depth) place cursor.old.left.now) }
{
    if cursor.sees_word(Side::Ghost, Keyword::Real) {
        cursor.word(Side::Ghost, Keyword::Real)?;
        return Ok(Sort {
            place,
            node: SortNode::Real,
        });
    }
    if cursor.sees_word(Side::Ghost, Keyword::Any) {
        cursor.word(Side::Ghost, Keyword::Any)?;
        return Ok(Sort {
            place,
            node: SortNode::Any,
        });
    }
    if cursor.sees_word(Side::Ghost, Keyword::Predicate) {
        return predicate_sort(cursor, depth, place);
    }
    if cursor.sees_name(Side::Ghost) {
        let name = cursor.name(Side::Ghost)?;
        return named_sort(cursor, depth, place, name.text);
    }
    let written = cursor.ctype(Side::Ghost)?;
    Ok(Sort {
        place,
        node: SortNode::Type(written),
    })
}

#[cycle(sort)]
#[tactic(auto, unfolding(crate::specs::Sorts::predicate_sort_at))]
fn predicate_sort(cursor: &mut Cursor, depth: u32, place: Place) -> Result<Sort, Stop>
    ensures { Gives result cursor.new.left.now (predicate_sort_at (sort_at depth) place cursor.old.left.now) }
{
    cursor.word(Side::Ghost, Keyword::Predicate)?;
    cursor.mark(Side::Ghost, Punctuator::OpenParenthesis)?;
    let sorts = any_sorts(cursor, depth)?;
    cursor.mark(Side::Ghost, Punctuator::CloseParenthesis)?;
    Ok(Sort {
        place,
        node: SortNode::Predicate(sorts),
    })
}

/// A sort that begins with a name, behind the name.
#[cycle(sort)]
#[tactic(auto, unfolding(crate::specs::Sorts::named_sort_at))]
fn named_sort(cursor: &mut Cursor, depth: u32, place: Place, name: Text) -> Result<Sort, Stop>
    ensures { Gives result cursor.new.left.now (named_sort_at (sort_at depth) place name cursor.old.left.now) }
{
    if cursor.sees_mark(Side::Ghost, Punctuator::Star) {
        cursor.mark(Side::Ghost, Punctuator::Star)?;
        let form = TypeForm::NamedPointer(name);
        let node = SortNode::Type(CType { place, form });
        return Ok(Sort { place, node });
    }
    if cursor.sees_mark(Side::Ghost, Punctuator::Less) {
        return applied_sort(cursor, depth, place, name);
    }
    let node = SortNode::Name(name, SortList::new(cursor.alloc));
    Ok(Sort { place, node })
}

/// The sorts between `<` and `>` behind a name.
#[cycle(sort)]
#[tactic(auto, unfolding(crate::specs::Sorts::applied_sort_at))]
fn applied_sort(cursor: &mut Cursor, depth: u32, place: Place, name: Text) -> Result<Sort, Stop>
    ensures { Gives result cursor.new.left.now (applied_sort_at (sort_at depth) place name cursor.old.left.now) }
{
    cursor.mark(Side::Ghost, Punctuator::Less)?;
    let sorts = some_sorts(cursor, depth)?;
    cursor.mark(Side::Ghost, Punctuator::Greater)?;
    Ok(Sort {
        place,
        node: SortNode::Name(name, sorts),
    })
}

#[cycle(sort)]
#[tactic(auto, unfolding(crate::specs::Pieces::any_at))]
fn any_sorts(cursor: &mut Cursor, depth: u32) -> Result<SortList, Stop>
    ensures { Gives result cursor.new.left.now (any_at (is_mark Ghost CloseParenthesis) (sort_at depth) cursor.old.left.now) }
{
    if cursor.sees_mark(Side::Ghost, Punctuator::CloseParenthesis) {
        return Ok(SortList::new(cursor.alloc));
    }
    some_sorts(cursor, depth)
}

#[cycle(sort)]
#[tactic(auto, unfolding(crate::specs::Pieces::some_at))]
fn some_sorts(cursor: &mut Cursor, depth: u32) -> Result<SortList, Stop>
    ensures { Gives result cursor.new.left.now (some_at (sort_at depth) cursor.old.left.now) }
{
    let first = sort(cursor, depth)?;
    let mut sorts = SortList::new(cursor.alloc);
    sorts.push(first)?;
    more_sorts(cursor, depth, sorts)
}

#[cycle(sort)]
#[tactic(auto, using(vf_cursor::proofs::Loop::many_stops, vf_cursor::proofs::Loop::many_goes, vf_cursor::proofs::Loop::many_fails))]
fn more_sorts(cursor: &mut Cursor, depth: u32, first: SortList) -> Result<SortList, Stop>
    ensures { Gives result cursor.new.left.now (many (is_mark Ghost Comma) (comma_step (sort_at depth)) first cursor.old.left.now) }
{
    let mut sorts = first;
    let most = cursor.left.len();
    for i in 0..most {
        if !cursor.sees_mark(Side::Ghost, Punctuator::Comma) {
            return Ok(sorts);
        }
        sorts = one_more_sort(cursor, depth, sorts)?;
    }
    Ok(sorts)
}

/// One more sort, behind a comma.
#[cycle(sort)]
#[tactic(auto, unfolding(crate::specs::Pieces::comma_step, crate::specs::Pieces::behind_comma))]
fn one_more_sort(cursor: &mut Cursor, depth: u32, before: SortList) -> Result<SortList, Stop>
    ensures { Gives result cursor.new.left.now (comma_step (sort_at depth) before cursor.old.left.now) }
{
    let mut sorts = before;
    cursor.mark(Side::Ghost, Punctuator::Comma)?;
    let next = sort(cursor, depth)?;
    sorts.push(next)?;
    Ok(sorts)
}

//! Patterns.

ghost use Rattle.std.specs.Prelude.{◌≡◌, [], ◌∷◌, ◌++◌, IfOk, OnOk};
ghost use Rattle.vf_lexer.specs.declared.punctuator.Punctuator.TheVariants.{Comma, CloseParenthesis};
ghost use Rattle.vf_syntax.specs.declared.side.Side.TheVariants.{Ghost};
ghost use Rattle.vf_syntax.specs.Walks.{is_mark};
ghost use Rattle.vf_syntax.specs.Assertions.{is_value_pattern, are_value_patterns};
ghost use Rattle.vf_cursor.specs.Parsing.{Gives, many};
ghost use Rattle.vf_parse_term.specs.Pieces.{comma_step, some_at, any_at};
ghost use Rattle.vf_parse_pattern.specs.Patterns.{pattern_at, patterns_at, any_patterns_at, terms_of};

use std::alloc::Global;
use std::marker::Model;
use vf_base::{Memory, Sequence};
use vf_cursor::cursor::Cursor;
use vf_cursor::fault::Stop;
use vf_lexer::Punctuator;
use vf_parse_term::terms::term;
use vf_syntax::ghost_expr::GhostExprList;
use vf_syntax::pattern::Pattern;
use vf_syntax::side::Side;

/// Patterns that were read, which can be taken out again.
#[derive(Drop)]
pub struct Patterns {
    alloc: Global,
    items: Vec<Pattern>,
}

impl Model for Patterns {
    ghost use Rattle.std.specs.Prelude.{List};
    ghost use Rattle.std.specs.Coded.{coded_list};
    ghost use Rattle.vf_syntax.specs.declared.pattern.Pattern.{Pattern};
    ghost use Rattle.vf_syntax.specs.contracts.pattern.Pattern as pattern_row;

    ghost Value = { List Pattern };

    ghost coded = { coded_list pattern_row.the_row.coded };

    ghost view = { λ s. s.items.items };
}

fn is_value_pattern(pattern: &Pattern) -> bool
    ensures { result ≡ is_value_pattern pattern.now }
{
    match pattern {
        Pattern::Is(_) => true,
        _ => false,
    }
}

/// The expression of a pattern behind others, where it is one.
#[tactic(auto, using(crate::proofs::Lists::nothing_more))]
fn with_term(before: GhostExprList, pattern: Pattern) -> Result<GhostExprList, Memory>
    ensures { IfOk result (λ s. s ≡ before ++ terms_of (pattern ∷ [])) }
{
    let mut terms = before;
    if let Pattern::Is(term) = pattern {
        terms.push(term)?;
    }
    Ok(terms)
}

fn all_values(patterns: &[Pattern]) -> bool
    ensures { result ≡ are_value_patterns patterns.now }
{
    for pattern in patterns {
        if !is_value_pattern(pattern) {
            return false;
        }
    }
    true
}

impl Patterns {
    fn new(alloc: Global) -> Patterns
        ensures { result ≡ [] }
    {
        let items = Vec::new(alloc);
        Patterns { alloc, items }
    }

    fn push(&mut self, item: Pattern) -> Result<(), Memory>
        ensures { OnOk result (self.new ≡ self.old ++ item ∷ []) }
    {
        self.items.push(item)?;
        Ok(())
    }

    /// Whether all are expressions.
    pub fn are_values(&self) -> bool
        ensures { result ≡ are_value_patterns self.now }
    {
        all_values(self.items.as_slice())
    }

    /// The same patterns.
    pub fn into_sequence(self) -> Result<Sequence<Pattern>, Memory>
        ensures { IfOk result (λ s. s ≡ self) }
    {
        let mut patterns = Sequence::new(self.alloc);
        for pattern in self.items {
            patterns.push(pattern)?;
        }
        Ok(patterns)
    }

    /// The expressions among them.
    #[tactic(auto, using(crate::proofs::Lists::terms_of_more))]
    pub fn into_terms(self) -> Result<GhostExprList, Memory>
        ensures { IfOk result (λ s. s ≡ terms_of self) }
    {
        let mut terms = GhostExprList::new(self.alloc);
        for pattern in self.items {
            terms = with_term(terms, pattern)?;
        }
        Ok(terms)
    }
}

/// A pattern, in whose expression fewer than `depth` stand in one another.
#[tactic(auto, unfolding(crate::specs::Patterns::pattern_at))]
pub fn pattern(cursor: &mut Cursor, depth: u32) -> Result<Pattern, Stop>
    ensures { Gives result cursor.new.left.now (pattern_at depth cursor.old.left.now) }
{
    if cursor.sees_mark(Side::Ghost, Punctuator::Question) {
        let place = cursor.mark(Side::Ghost, Punctuator::Question)?;
        let name = cursor.name(Side::Ghost)?;
        return Ok(Pattern::Binds(place, name));
    }
    if cursor.sees_wild() {
        let place = cursor.wild()?;
        return Ok(Pattern::Wild(place));
    }
    let value = term(cursor, depth)?;
    Ok(Pattern::Is(value))
}

/// One more pattern, behind a comma.
#[tactic(auto, unfolding(vf_parse_term::specs::Pieces::comma_step, vf_parse_term::specs::Pieces::behind_comma))]
fn one_more_pattern(cursor: &mut Cursor, depth: u32, before: Patterns) -> Result<Patterns, Stop>
    ensures { Gives result cursor.new.left.now (comma_step (pattern_at depth) before cursor.old.left.now) }
{
    let mut patterns = before;
    cursor.mark(Side::Ghost, Punctuator::Comma)?;
    let next = pattern(cursor, depth)?;
    patterns.push(next)?;
    Ok(patterns)
}

#[tactic(auto, using(vf_cursor::proofs::Loop::many_stops, vf_cursor::proofs::Loop::many_goes, vf_cursor::proofs::Loop::many_fails))]
fn more_patterns(cursor: &mut Cursor, depth: u32, first: Patterns) -> Result<Patterns, Stop>
    ensures { Gives result cursor.new.left.now (many (is_mark Ghost Comma) (comma_step (pattern_at depth)) first cursor.old.left.now) }
{
    let mut patterns = first;
    let most = cursor.left.len();
    for i in 0..most {
        if !cursor.sees_mark(Side::Ghost, Punctuator::Comma) {
            return Ok(patterns);
        }
        patterns = one_more_pattern(cursor, depth, patterns)?;
    }
    Ok(patterns)
}

#[tactic(auto, unfolding(vf_parse_term::specs::Pieces::some_at))]
fn some_patterns(cursor: &mut Cursor, depth: u32) -> Result<Patterns, Stop>
    ensures { Gives result cursor.new.left.now (some_at (pattern_at depth) cursor.old.left.now) }
{
    let first = pattern(cursor, depth)?;
    let mut patterns = Patterns::new(cursor.alloc);
    patterns.push(first)?;
    more_patterns(cursor, depth, patterns)
}

#[tactic(auto, unfolding(vf_parse_term::specs::Pieces::any_at))]
fn patterns_inside(cursor: &mut Cursor, depth: u32) -> Result<Patterns, Stop>
    ensures { Gives result cursor.new.left.now (any_at (is_mark Ghost CloseParenthesis) (pattern_at depth) cursor.old.left.now) }
{
    if cursor.sees_mark(Side::Ghost, Punctuator::CloseParenthesis) {
        return Ok(Patterns::new(cursor.alloc));
    }
    some_patterns(cursor, depth)
}

/// Patterns between parentheses.
#[tactic(auto, unfolding(crate::specs::Patterns::patterns_at))]
pub fn pattern_list(cursor: &mut Cursor, depth: u32) -> Result<Patterns, Stop>
    ensures { Gives result cursor.new.left.now (patterns_at depth cursor.old.left.now) }
{
    cursor.mark(Side::Ghost, Punctuator::OpenParenthesis)?;
    let inside = patterns_inside(cursor, depth)?;
    cursor.mark(Side::Ghost, Punctuator::CloseParenthesis)?;
    Ok(inside)
}

/// Patterns between parentheses, where they stand there.
#[tactic(auto, unfolding(crate::specs::Patterns::any_patterns_at))]
pub fn any_patterns(cursor: &mut Cursor, depth: u32) -> Result<Option<Sequence<Pattern>>, Stop>
    ensures { Gives result cursor.new.left.now (any_patterns_at depth cursor.old.left.now) }
{
    if cursor.sees_mark(Side::Ghost, Punctuator::OpenParenthesis) {
        let inside = pattern_list(cursor, depth)?;
        return Ok(Some(inside.into_sequence()?));
    }
    Ok(None)
}

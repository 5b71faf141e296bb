//! Structs and signatures, which hold no annotation.

ghost use Rattle.std.specs.Prelude.{◌≡◌, [], ◌∷◌};
ghost use Rattle.vf_cursor.specs.Parsing.{Gives};
ghost use Rattle.vf_parse_item.specs.Parsers.{typed_at, field_at, field_list_at, fields_at, struct_at, sees_struct, sees_void, result_type_at, next_parameter_at, more_parameters_at, parameter_list_at, parameters_inside_at, parameters_at, signature_at};

use vf_base::Sequence;
use vf_cursor::cursor::Cursor;
use vf_cursor::fault::Stop;
use vf_lexer::Punctuator;
use vf_parse_expression::operands::behind;
use vf_parse_simple::simple::declared;
use vf_parse_statement::flat::sees_inside;
use vf_syntax::item::{Item, Parameters, Signature, Typed};
use vf_syntax::keyword::Keyword;
use vf_syntax::side::Side;
use vf_syntax::written::ResultType;

/// A type and a name, as a parameter or a field.
#[tactic(auto, unfolding(crate::specs::Parsers::typed_at))]
fn typed(cursor: &mut Cursor) -> Result<Typed, Stop>
    ensures { Gives result cursor.new.left.now (typed_at cursor.old.left.now) }
{
    let (written, name) = declared(cursor)?;
    Ok(Typed { written, name })
}

#[tactic(auto, unfolding(crate::specs::Parsers::field_at))]
fn field(cursor: &mut Cursor) -> Result<Typed, Stop>
    ensures { Gives result cursor.new.left.now (field_at cursor.old.left.now) }
{
    let read = typed(cursor)?;
    cursor.mark(Side::Real, Punctuator::Semicolon)?;
    Ok(read)
}

/// Fields up to a `}`.
#[tactic(auto, unfolding(crate::specs::Parsers::field_list_at), using(vf_cursor::proofs::Loop::many_stops, vf_parse_expression::proofs::Items::items_go, vf_parse_expression::proofs::Items::items_fail))]
fn field_list(cursor: &mut Cursor) -> Result<Sequence<Typed>, Stop>
    ensures { Gives result cursor.new.left.now (field_list_at cursor.old.left.now) }
{
    let mut fields = Sequence::new(cursor.alloc);
    let most = cursor.left.len();
    for i in 0..most {
        if !sees_inside(cursor) {
            return Ok(fields);
        }
        let next = field(cursor)?;
        fields.push(next)?;
    }
    Ok(fields)
}

/// Fields between braces, and the `;` behind them.
#[tactic(auto, unfolding(crate::specs::Parsers::fields_at))]
fn fields(cursor: &mut Cursor) -> Result<Sequence<Typed>, Stop>
    ensures { Gives result cursor.new.left.now (fields_at cursor.old.left.now) }
{
    cursor.mark(Side::Real, Punctuator::OpenBrace)?;
    let fields = field_list(cursor)?;
    cursor.mark(Side::Real, Punctuator::CloseBrace)?;
    cursor.mark(Side::Real, Punctuator::Semicolon)?;
    Ok(fields)
}

/// A struct, with or without its fields.
#[tactic(auto, unfolding(crate::specs::Parsers::struct_at))]
pub fn structure(cursor: &mut Cursor) -> Result<Item, Stop>
    ensures { Gives result cursor.new.left.now (struct_at cursor.old.left.now) }
{
    let place = cursor.word(Side::Real, Keyword::Struct)?;
    let tag = cursor.name(Side::Real)?;
    if cursor.sees_mark(Side::Real, Punctuator::Semicolon) {
        cursor.mark(Side::Real, Punctuator::Semicolon)?;
        return Ok(Item::Opaque(place, tag));
    }
    let fields = fields(cursor)?;
    Ok(Item::Struct(place, tag, fields))
}

/// Whether a struct is declared next: a `;` or a `{` stands behind its tag.
#[tactic(auto, unfolding(crate::specs::Parsers::sees_struct))]
pub fn sees_struct(cursor: &Cursor) -> bool
    ensures { result ≡ sees_struct cursor.now.left.now }
{
    let tag = behind(cursor);
    let third = behind(&tag);
    cursor.sees_word(Side::Real, Keyword::Struct)
        && (third.sees_mark(Side::Real, Punctuator::Semicolon)
            || third.sees_mark(Side::Real, Punctuator::OpenBrace))
}

/// Whether `void` comes next, and no pointer to it.
#[tactic(auto, unfolding(crate::specs::Parsers::sees_void))]
fn sees_void(cursor: &Cursor) -> bool
    ensures { result ≡ sees_void cursor.now.left.now }
{
    let second = behind(cursor);
    cursor.sees_word(Side::Real, Keyword::Void) && !second.sees_mark(Side::Real, Punctuator::Star)
}

/// What a function returns.
#[tactic(auto, unfolding(crate::specs::Parsers::result_type_at))]
fn result_type(cursor: &mut Cursor) -> Result<ResultType, Stop>
    ensures { Gives result cursor.new.left.now (result_type_at cursor.old.left.now) }
{
    if sees_void(cursor) {
        let place = cursor.word(Side::Real, Keyword::Void)?;
        return Ok(ResultType::Void(place));
    }
    let written = cursor.ctype(Side::Real)?;
    Ok(ResultType::Value(written))
}

/// A comma and the parameter behind it.
#[tactic(auto, unfolding(crate::specs::Parsers::next_parameter_at))]
fn next_parameter(cursor: &mut Cursor) -> Result<Typed, Stop>
    ensures { Gives result cursor.new.left.now (next_parameter_at cursor.old.left.now) }
{
    cursor.mark(Side::Real, Punctuator::Comma)?;
    typed(cursor)
}

/// The parameters behind the first.
#[tactic(auto, unfolding(crate::specs::Parsers::more_parameters_at), using(vf_cursor::proofs::Loop::many_stops, vf_parse_expression::proofs::Items::items_go, vf_parse_expression::proofs::Items::items_fail))]
fn more_parameters(cursor: &mut Cursor, first: Sequence<Typed>) -> Result<Sequence<Typed>, Stop>
    ensures { Gives result cursor.new.left.now (more_parameters_at first cursor.old.left.now) }
{
    let mut given = first;
    let most = cursor.left.len();
    for i in 0..most {
        if !cursor.sees_mark(Side::Real, Punctuator::Comma) {
            return Ok(given);
        }
        let next = next_parameter(cursor)?;
        given.push(next)?;
    }
    Ok(given)
}

/// Parameters with commas between them, or none where `)` comes next.
#[tactic(auto, unfolding(crate::specs::Parsers::parameter_list_at))]
fn parameter_list(cursor: &mut Cursor) -> Result<Sequence<Typed>, Stop>
    ensures { Gives result cursor.new.left.now (parameter_list_at cursor.old.left.now) }
{
    let mut given = Sequence::new(cursor.alloc);
    if cursor.sees_mark(Side::Real, Punctuator::CloseParenthesis) {
        return Ok(given);
    }
    let first = typed(cursor)?;
    given.push(first)?;
    more_parameters(cursor, given)
}

#[tactic(auto, unfolding(crate::specs::Parsers::parameters_inside_at))]
fn parameters_inside(cursor: &mut Cursor) -> Result<Parameters, Stop>
    ensures { Gives result cursor.new.left.now (parameters_inside_at cursor.old.left.now) }
{
    if sees_void(cursor) {
        cursor.word(Side::Real, Keyword::Void)?;
        return Ok(Parameters::Void);
    }
    let given = parameter_list(cursor)?;
    Ok(Parameters::Listed(given))
}

/// Parameters between parentheses.
#[tactic(auto, unfolding(crate::specs::Parsers::parameters_at))]
fn parameters(cursor: &mut Cursor) -> Result<Parameters, Stop>
    ensures { Gives result cursor.new.left.now (parameters_at cursor.old.left.now) }
{
    cursor.mark(Side::Real, Punctuator::OpenParenthesis)?;
    let given = parameters_inside(cursor)?;
    cursor.mark(Side::Real, Punctuator::CloseParenthesis)?;
    Ok(given)
}

/// The result, the name and the parameters of a function.
#[tactic(auto, unfolding(crate::specs::Parsers::signature_at))]
pub fn signature(cursor: &mut Cursor) -> Result<Signature, Stop>
    ensures { Gives result cursor.new.left.now (signature_at cursor.old.left.now) }
{
    let returned = result_type(cursor)?;
    let name = cursor.name(Side::Real)?;
    let parameters = parameters(cursor)?;
    Ok(Signature {
        result: returned,
        name,
        parameters,
    })
}

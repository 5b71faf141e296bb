//! Types.

ghost use Rattle.std.specs.Prelude.{◌≡◌};
ghost use Rattle.vf_syntax.specs.Walks.{head_has};
ghost use Rattle.vf_cursor.specs.Parsing.{Gives};
ghost use Rattle.vf_cursor.specs.Types.{is_sign, is_width, is_type_word, sign_at, short_at, long_at, long_long_at, width_at, signed_width_at, integer_at, number_type_at, struct_pointer_at, type_form_at, ctype_at, is_int_alone};

use crate::cursor::{Cursor, is_word};
use crate::fault::Stop;
use vf_lexer::{Punctuator, Token};
use vf_syntax::keyword::Keyword;
use vf_syntax::side::Side;
use vf_syntax::written::{CType, IntegerWords, Sign, TypeForm, Width};

#[tactic(auto, unfolding(crate::specs::Types::is_sign))]
fn is_sign(side: Side, token: &Token) -> bool
    ensures { result ≡ is_sign side token.now }
{
    is_word(side, Keyword::Signed, token) || is_word(side, Keyword::Unsigned, token)
}

#[tactic(auto, unfolding(crate::specs::Types::is_width))]
fn is_width(side: Side, token: &Token) -> bool
    ensures { result ≡ is_width side token.now }
{
    is_word(side, Keyword::Char, token)
        || is_word(side, Keyword::Short, token)
        || is_word(side, Keyword::Int, token)
        || is_word(side, Keyword::Long, token)
}

#[tactic(auto, unfolding(crate::specs::Types::is_type_word))]
fn is_type_word(side: Side, token: &Token) -> bool
    ensures { result ≡ is_type_word side token.now }
{
    is_sign(side, token)
        || is_width(side, token)
        || is_word(side, Keyword::Bool, token)
        || is_word(side, Keyword::Void, token)
        || is_word(side, Keyword::Struct, token)
}

fn is_int_alone(words: IntegerWords) -> bool
    ensures { result ≡ is_int_alone words }
{
    match words {
        IntegerWords::Width(Width::Int) => true,
        _ => false,
    }
}

impl<'a> Cursor<'a> {
    /// Whether `signed` or `unsigned` comes next.
    fn sees_sign(&self, side: Side) -> bool
        ensures { result ≡ head_has (is_sign side) self.now.left.now }
    {
        match self.left {
            [] => false,
            [first, ..] => is_sign(side, first),
        }
    }

    /// Whether a word of a width comes next.
    fn sees_width(&self, side: Side) -> bool
        ensures { result ≡ head_has (is_width side) self.now.left.now }
    {
        match self.left {
            [] => false,
            [first, ..] => is_width(side, first),
        }
    }

    /// Whether a word comes next that begins a type and nothing else.
    pub fn sees_type_word(&self, side: Side) -> bool
        ensures { result ≡ head_has (is_type_word side) self.now.left.now }
    {
        match self.left {
            [] => false,
            [first, ..] => is_type_word(side, first),
        }
    }

    #[tactic(auto, unfolding(crate::specs::Types::sign_at))]
    fn sign(&mut self, side: Side) -> Result<Sign, Stop>
        ensures { Gives result self.new.left.now (sign_at side self.old.left.now) }
    {
        if self.sees_word(side, Keyword::Signed) {
            self.word(side, Keyword::Signed)?;
            Ok(Sign::Signed)
        } else {
            self.word(side, Keyword::Unsigned)?;
            Ok(Sign::Unsigned)
        }
    }

    /// The words behind `short`.
    #[tactic(auto, unfolding(crate::specs::Types::short_at))]
    fn short_width(&mut self, side: Side) -> Result<Width, Stop>
        ensures { Gives result self.new.left.now (short_at side self.old.left.now) }
    {
        if self.sees_word(side, Keyword::Int) {
            self.word(side, Keyword::Int)?;
            Ok(Width::ShortInt)
        } else {
            Ok(Width::Short)
        }
    }

    /// The words behind `long long`.
    #[tactic(auto, unfolding(crate::specs::Types::long_long_at))]
    fn long_long_width(&mut self, side: Side) -> Result<Width, Stop>
        ensures { Gives result self.new.left.now (long_long_at side self.old.left.now) }
    {
        if self.sees_word(side, Keyword::Int) {
            self.word(side, Keyword::Int)?;
            Ok(Width::LongLongInt)
        } else {
            Ok(Width::LongLong)
        }
    }

    /// The words behind `long`.
    #[tactic(auto, unfolding(crate::specs::Types::long_at))]
    fn long_width(&mut self, side: Side) -> Result<Width, Stop>
        ensures { Gives result self.new.left.now (long_at side self.old.left.now) }
    {
        if self.sees_word(side, Keyword::Int) {
            self.word(side, Keyword::Int)?;
            return Ok(Width::LongInt);
        }
        if self.sees_word(side, Keyword::Long) {
            self.word(side, Keyword::Long)?;
            self.long_long_width(side)
        } else {
            Ok(Width::Long)
        }
    }

    #[tactic(auto, unfolding(crate::specs::Types::width_at))]
    fn width(&mut self, side: Side) -> Result<Width, Stop>
        ensures { Gives result self.new.left.now (width_at side self.old.left.now) }
    {
        if self.sees_word(side, Keyword::Char) {
            self.word(side, Keyword::Char)?;
            return Ok(Width::Char);
        }
        if self.sees_word(side, Keyword::Short) {
            self.word(side, Keyword::Short)?;
            return self.short_width(side);
        }
        if self.sees_word(side, Keyword::Long) {
            self.word(side, Keyword::Long)?;
            return self.long_width(side);
        }
        self.word(side, Keyword::Int)?;
        Ok(Width::Int)
    }

    /// The words behind a sign.
    #[tactic(auto, unfolding(crate::specs::Types::signed_width_at))]
    fn signed_width(&mut self, side: Side, sign: Sign) -> Result<IntegerWords, Stop>
        ensures { Gives result self.new.left.now (signed_width_at side sign self.old.left.now) }
    {
        if self.sees_width(side) {
            let width = self.width(side)?;
            Ok(IntegerWords::Both(sign, width))
        } else {
            Ok(IntegerWords::Sign(sign))
        }
    }

    #[tactic(auto, unfolding(crate::specs::Types::integer_at))]
    fn integer(&mut self, side: Side) -> Result<IntegerWords, Stop>
        ensures { Gives result self.new.left.now (integer_at side self.old.left.now) }
    {
        if self.sees_sign(side) {
            let sign = self.sign(side)?;
            self.signed_width(side, sign)
        } else {
            let width = self.width(side)?;
            Ok(IntegerWords::Width(width))
        }
    }

    /// An integer type, or a pointer to `int`.
    #[tactic(auto, unfolding(crate::specs::Types::number_type_at))]
    fn number_type(&mut self, side: Side) -> Result<TypeForm, Stop>
        ensures { Gives result self.new.left.now (number_type_at side self.old.left.now) }
    {
        let words = self.integer(side)?;
        if is_int_alone(words) && self.sees_mark(side, Punctuator::Star) {
            self.mark(side, Punctuator::Star)?;
            Ok(TypeForm::IntPointer)
        } else {
            Ok(TypeForm::Integer(words))
        }
    }

    /// A tag and the `*` behind it.
    #[tactic(auto, unfolding(crate::specs::Types::struct_pointer_at))]
    fn struct_pointer(&mut self, side: Side) -> Result<TypeForm, Stop>
        ensures { Gives result self.new.left.now (struct_pointer_at side self.old.left.now) }
    {
        let tag = self.name(side)?;
        self.mark(side, Punctuator::Star)?;
        Ok(TypeForm::StructPointer(tag))
    }

    #[tactic(auto, unfolding(crate::specs::Types::type_form_at))]
    fn type_form(&mut self, side: Side) -> Result<TypeForm, Stop>
        ensures { Gives result self.new.left.now (type_form_at side self.old.left.now) }
    {
        if self.sees_word(side, Keyword::Bool) {
            self.word(side, Keyword::Bool)?;
            return Ok(TypeForm::Bool);
        }
        if self.sees_word(side, Keyword::Void) {
            self.word(side, Keyword::Void)?;
            self.mark(side, Punctuator::Star)?;
            return Ok(TypeForm::VoidPointer);
        }
        if self.sees_word(side, Keyword::Struct) {
            self.word(side, Keyword::Struct)?;
            return self.struct_pointer(side);
        }
        if self.sees_name(side) {
            let name = self.name(side)?;
            self.mark(side, Punctuator::Star)?;
            return Ok(TypeForm::NamedPointer(name.text));
        }
        self.number_type(side)
    }

    /// A type.
    #[tactic(auto, unfolding(crate::specs::Types::ctype_at))]
    pub fn ctype(&mut self, side: Side) -> Result<CType, Stop>
        ensures { Gives result self.new.left.now (ctype_at side self.old.left.now) }
    {
        let place = self.here()?;
        let form = self.type_form(side)?;
        Ok(CType { place, form })
    }
}

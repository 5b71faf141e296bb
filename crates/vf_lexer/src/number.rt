//! Numbers.

ghost use Rattle.std.specs.Prelude.{◌≡◌, ◌≤◌, length};
ghost use Rattle.std.specs.List.{find, list_any};
ghost use Rattle.std.specs.Str.{bytes_eq};
ghost use Rattle.std.specs.Str.Parse.{AllDigits};
ghost use Rattle.vf_lexer.specs.Numbers.{most_of, is_unsigned, longs_of, is_listed, is_fit, type_of, type_in, is_u, suffix_longs, suffix_of, digits_len, value_of, real_type, ghost_type, number_with, split_number, number_of};

use vf_base::IntType;

/// What the suffix of a number asks for.
#[derive(Clone, Copy, Debug)]
pub struct Suffix {
    /// Whether the type has to be unsigned.
    pub unsigned: bool,
    /// How many times the type has to be long at least, two at most.
    pub longs: u8,
}

/// The types that numbers have, in the order in which they are tried.
const NUMBER_TYPES: [IntType; 6] = [
    IntType::Int,
    IntType::UInt,
    IntType::Long,
    IntType::ULong,
    IntType::LongLong,
    IntType::ULongLong,
];

const PLAIN_SUFFIXES: [&str; 3] = ["", "u", "U"];

const LONG_SUFFIXES: [&str; 10] = ["l", "L", "ul", "uL", "Ul", "UL", "lu", "lU", "Lu", "LU"];

const LONG_LONG_SUFFIXES: [&str; 10] = [
    "ll", "LL", "ull", "uLL", "Ull", "ULL", "llu", "llU", "LLu", "LLU",
];

/// The greatest number of a type.
fn most_of(int_type: IntType) -> u64
    ensures { result ≡ most_of int_type }
{
    match int_type {
        IntType::Bool => 1,
        IntType::Char => 127,
        IntType::UChar => 255,
        IntType::Short => 32_767,
        IntType::UShort => 65_535,
        IntType::Int => 2_147_483_647,
        IntType::UInt => 4_294_967_295,
        IntType::Long | IntType::LongLong => 9_223_372_036_854_775_807,
        IntType::ULong | IntType::ULongLong => 18_446_744_073_709_551_615,
    }
}

fn is_unsigned(int_type: IntType) -> bool
    ensures { result ≡ is_unsigned int_type }
{
    matches!(
        int_type,
        IntType::UInt | IntType::ULong | IntType::ULongLong
    )
}

/// How many times a type is long.
fn longs_of(int_type: IntType) -> u8
    ensures { result ≡ longs_of int_type }
{
    match int_type {
        IntType::Long | IntType::ULong => 1,
        IntType::LongLong | IntType::ULongLong => 2,
        _ => 0,
    }
}

/// Whether the list of a number's types has this one.
fn is_listed(suffix: Suffix, decimal: bool, int_type: IntType) -> bool
    ensures { result ≡ is_listed suffix decimal int_type }
{
    suffix.longs <= longs_of(int_type)
        && if is_unsigned(int_type) {
            suffix.unsigned || !decimal
        } else {
            !suffix.unsigned
        }
}

/// Whether the list of a number's types has this one, and it holds the number.
fn is_fit(suffix: Suffix, decimal: bool, value: u64, int_type: IntType) -> bool
    ensures { result ≡ is_fit suffix decimal value int_type }
{
    is_listed(suffix, decimal, int_type) && value <= most_of(int_type)
}

fn first_fit(types: &[IntType], suffix: Suffix, decimal: bool, value: u64) -> Option<IntType>
    ensures { result ≡ find (is_fit suffix decimal value) types.now }
{
    for int_type in types {
        if is_fit(suffix, decimal, value, *int_type) {
            return Some(*int_type);
        }
    }
    None
}

/// The first type of its list that holds a number.
#[tactic(auto, unfolding(crate::specs::Numbers::type_of))]
fn type_of(suffix: Suffix, decimal: bool, value: u64) -> Option<IntType>
    ensures { result ≡ type_of suffix decimal value }
{
    first_fit(&NUMBER_TYPES, suffix, decimal, value)
}

fn is_among(words: &[&str], word: &[u8]) -> bool
    ensures { result ≡ list_any (λ w. bytes_eq word.now w.now) words.now }
{
    for other in words {
        if word == other.as_bytes() {
            return true;
        }
    }
    false
}

#[tactic(auto, unfolding(crate::specs::Numbers::suffix_longs))]
fn suffix_longs(suffix: &[u8]) -> Option<u8>
    ensures { result ≡ suffix_longs suffix.now }
{
    if is_among(&PLAIN_SUFFIXES, suffix) {
        return Some(0);
    }
    if is_among(&LONG_SUFFIXES, suffix) {
        return Some(1);
    }
    if is_among(&LONG_LONG_SUFFIXES, suffix) {
        return Some(2);
    }
    None
}

fn is_u(byte: u8) -> bool
    ensures { result ≡ is_u byte }
{
    byte == b'u' || byte == b'U'
}

fn has_u(suffix: &[u8]) -> bool
    ensures { result ≡ list_any is_u suffix.now }
{
    for byte in suffix {
        if is_u(*byte) {
            return true;
        }
    }
    false
}

/// What a suffix asks for.
#[tactic(auto, unfolding(crate::specs::Numbers::suffix_of))]
fn suffix_of(suffix: &[u8]) -> Option<Suffix>
    ensures { result ≡ suffix_of suffix.now }
{
    let longs = suffix_longs(suffix)?;
    Some(Suffix {
        unsigned: has_u(suffix),
        longs,
    })
}

fn digits_len(text: &[u8], base: u8) -> usize
    requires base { (2 ≤ base) × (base ≤ 16) }
    ensures same { result ≡ digits_len base text.now }
    ensures within { result ≤ length text.now }
{
    let mut len = 0;
    while len < text.len() && char::from(text[len]).is_digit(u32::from(base)) {
        len += 1;
    }
    len
}

/// The number that digits write, where one of 64 bits is it.
#[tactic(auto, using(crate::proofs::Steps::no_value), unfolding(crate::specs::Numbers::value_of))]
fn value_of(digits: &[u8], base: u8) -> Option<u64>
    requires base { (2 ≤ base) × (base ≤ 16) }
    requires digits { AllDigits base digits.now }
    ensures { result ≡ value_of base digits.now }
{
    let mut value: u64 = 0;
    let mut left = digits;
    while let [first, rest @ ..] = left {
        let digit = char::from(*first).to_digit(u32::from(base))?;
        let next = u128::from(value) * u128::from(base) + u128::from(digit);
        if next > u128::from(u64::MAX) {
            return None;
        }
        value = next as u64;
        left = rest;
    }
    Some(value)
}

/// The type of a number of real text.
#[tactic(auto, unfolding(crate::specs::Numbers::real_type))]
fn real_type(suffix: &[u8], decimal: bool, value: u64) -> Option<IntType>
    ensures { result ≡ real_type suffix.now decimal value }
{
    type_of(suffix_of(suffix)?, decimal, value)
}

/// The type of a number of ghost text, which has no suffix.
#[tactic(auto, unfolding(crate::specs::Numbers::ghost_type))]
fn ghost_type(suffix: &[u8], decimal: bool, value: u64) -> Option<IntType>
    ensures { result ≡ ghost_type suffix.now decimal value }
{
    match suffix {
        [] => {
            let plain = Suffix {
                unsigned: false,
                longs: 0,
            };
            match type_of(plain, decimal, value) {
                Some(int_type) => Some(int_type),
                None => Some(IntType::ULongLong),
            }
        }
        _ => None,
    }
}

fn type_in(ghost_text: bool, suffix: &[u8], decimal: bool, value: u64) -> Option<IntType>
    ensures { result ≡ type_in ghost_text suffix.now decimal value }
{
    if ghost_text {
        ghost_type(suffix, decimal, value)
    } else {
        real_type(suffix, decimal, value)
    }
}

/// The number that digits write which a suffix follows, and its type.
#[tactic(auto, unfolding(crate::specs::Numbers::number_with))]
fn number_with(ghost_text: bool, base: u8, digits: &[u8], suffix: &[u8]) -> Option<(u64, IntType)>
    requires base { (2 ≤ base) × (base ≤ 16) }
    requires digits { AllDigits base digits.now }
    ensures { result ≡ number_with ghost_text base digits.now suffix.now }
{
    if digits.is_empty() {
        return None;
    }
    let value = value_of(digits, base)?;
    let int_type = type_in(ghost_text, suffix, base == 10, value)?;
    Some((value, int_type))
}

fn split_number(ghost_text: bool, base: u8, text: &[u8]) -> Option<(u64, IntType)>
    requires base { (2 ≤ base) × (base ≤ 16) }
    ensures { result ≡ split_number ghost_text base text.now }
{
    let (digits, suffix) = text.split_at(digits_len(text, base));
    number_with(ghost_text, base, digits, suffix)
}

/// The number that a whole text writes, and its type.
#[tactic(auto, unfolding(crate::specs::Numbers::number_of))]
pub fn number_of(ghost_text: bool, text: &[u8]) -> Option<(u64, IntType)>
    ensures { result ≡ number_of ghost_text text.now }
{
    if text.starts_with(b"0x") {
        return split_number(ghost_text, 16, &text[2..]);
    }
    if text.starts_with(b"0") {
        return split_number(ghost_text, 8, text);
    }
    split_number(ghost_text, 10, text)
}

// Written by tools/gen_syntax.py: change it there.
//! Keywords.

ghost use Rattle.std.specs.Prelude.{◌≡◌};
ghost use Rattle.std.specs.List.{list_any};
ghost use Rattle.vf_syntax.specs.Keywords.{spelling, is_spelled, is_keyword};

/// A word that is no name, in real and in ghost text (C11 6.4.1, and the words of annotations).
#[derive(Clone, Copy, Debug, PartialEq, Eq)]
pub enum Keyword {
    /// `struct`
    Struct,
    /// `typedef`
    Typedef,
    /// `void`
    Void,
    /// `bool`
    Bool,
    /// `signed`
    Signed,
    /// `unsigned`
    Unsigned,
    /// `char`
    Char,
    /// `short`
    Short,
    /// `int`
    Int,
    /// `long`
    Long,
    /// `if`
    If,
    /// `else`
    Else,
    /// `while`
    While,
    /// `for`
    For,
    /// `return`
    Return,
    /// `true`
    True,
    /// `false`
    False,
    /// `malloc`
    Malloc,
    /// `sizeof`
    Sizeof,
    /// `requires`
    Requires,
    /// `ensures`
    Ensures,
    /// `invariant`
    Invariant,
    /// `inductive`
    Inductive,
    /// `fixpoint`
    Fixpoint,
    /// `switch`
    Switch,
    /// `case`
    Case,
    /// `predicate`
    Predicate,
    /// `predicate_family`
    PredicateFamily,
    /// `predicate_family_instance`
    PredicateFamilyInstance,
    /// `predicate_ctor`
    PredicateCtor,
    /// `lemma`
    Lemma,
    /// `real`
    Real,
    /// `any`
    Any,
    /// `emp`
    Emp,
    /// `result`
    Result,
    /// `this`
    This,
    /// `currentThread`
    CurrentThread,
    /// `open`
    Open,
    /// `close`
    Close,
    /// `leak`
    Leak,
    /// `assert`
    Assert,
    /// `auto`
    Auto,
    /// `break`
    Break,
    /// `const`
    Const,
    /// `continue`
    Continue,
    /// `default`
    Default,
    /// `do`
    Do,
    /// `double`
    Double,
    /// `enum`
    Enum,
    /// `extern`
    Extern,
    /// `float`
    Float,
    /// `goto`
    Goto,
    /// `inline`
    Inline,
    /// `register`
    Register,
    /// `restrict`
    Restrict,
    /// `static`
    Static,
    /// `union`
    Union,
    /// `volatile`
    Volatile,
}

/// All keywords.
const KEYWORDS: [Keyword; 58] = [
    Keyword::Struct,
    Keyword::Typedef,
    Keyword::Void,
    Keyword::Bool,
    Keyword::Signed,
    Keyword::Unsigned,
    Keyword::Char,
    Keyword::Short,
    Keyword::Int,
    Keyword::Long,
    Keyword::If,
    Keyword::Else,
    Keyword::While,
    Keyword::For,
    Keyword::Return,
    Keyword::True,
    Keyword::False,
    Keyword::Malloc,
    Keyword::Sizeof,
    Keyword::Requires,
    Keyword::Ensures,
    Keyword::Invariant,
    Keyword::Inductive,
    Keyword::Fixpoint,
    Keyword::Switch,
    Keyword::Case,
    Keyword::Predicate,
    Keyword::PredicateFamily,
    Keyword::PredicateFamilyInstance,
    Keyword::PredicateCtor,
    Keyword::Lemma,
    Keyword::Real,
    Keyword::Any,
    Keyword::Emp,
    Keyword::Result,
    Keyword::This,
    Keyword::CurrentThread,
    Keyword::Open,
    Keyword::Close,
    Keyword::Leak,
    Keyword::Assert,
    Keyword::Auto,
    Keyword::Break,
    Keyword::Const,
    Keyword::Continue,
    Keyword::Default,
    Keyword::Do,
    Keyword::Double,
    Keyword::Enum,
    Keyword::Extern,
    Keyword::Float,
    Keyword::Goto,
    Keyword::Inline,
    Keyword::Register,
    Keyword::Restrict,
    Keyword::Static,
    Keyword::Union,
    Keyword::Volatile,
];

impl Keyword {
    /// How it is written.
    pub fn spelling(self) -> &'static [u8]
        ensures { result.now ≡ spelling self }
    {
        match self {
            Keyword::Struct => b"struct",
            Keyword::Typedef => b"typedef",
            Keyword::Void => b"void",
            Keyword::Bool => b"bool",
            Keyword::Signed => b"signed",
            Keyword::Unsigned => b"unsigned",
            Keyword::Char => b"char",
            Keyword::Short => b"short",
            Keyword::Int => b"int",
            Keyword::Long => b"long",
            Keyword::If => b"if",
            Keyword::Else => b"else",
            Keyword::While => b"while",
            Keyword::For => b"for",
            Keyword::Return => b"return",
            Keyword::True => b"true",
            Keyword::False => b"false",
            Keyword::Malloc => b"malloc",
            Keyword::Sizeof => b"sizeof",
            Keyword::Requires => b"requires",
            Keyword::Ensures => b"ensures",
            Keyword::Invariant => b"invariant",
            Keyword::Inductive => b"inductive",
            Keyword::Fixpoint => b"fixpoint",
            Keyword::Switch => b"switch",
            Keyword::Case => b"case",
            Keyword::Predicate => b"predicate",
            Keyword::PredicateFamily => b"predicate_family",
            Keyword::PredicateFamilyInstance => b"predicate_family_instance",
            Keyword::PredicateCtor => b"predicate_ctor",
            Keyword::Lemma => b"lemma",
            Keyword::Real => b"real",
            Keyword::Any => b"any",
            Keyword::Emp => b"emp",
            Keyword::Result => b"result",
            Keyword::This => b"this",
            Keyword::CurrentThread => b"currentThread",
            Keyword::Open => b"open",
            Keyword::Close => b"close",
            Keyword::Leak => b"leak",
            Keyword::Assert => b"assert",
            Keyword::Auto => b"auto",
            Keyword::Break => b"break",
            Keyword::Const => b"const",
            Keyword::Continue => b"continue",
            Keyword::Default => b"default",
            Keyword::Do => b"do",
            Keyword::Double => b"double",
            Keyword::Enum => b"enum",
            Keyword::Extern => b"extern",
            Keyword::Float => b"float",
            Keyword::Goto => b"goto",
            Keyword::Inline => b"inline",
            Keyword::Register => b"register",
            Keyword::Restrict => b"restrict",
            Keyword::Static => b"static",
            Keyword::Union => b"union",
            Keyword::Volatile => b"volatile",
        }
    }
}

/// Whether a word is a keyword.
#[tactic(auto, unfolding(crate::specs::Keywords::is_keyword))]
pub fn is_keyword(word: &[u8]) -> bool
    ensures { result ≡ is_keyword word.now }
{
    is_spelled(&KEYWORDS, word)
}

fn is_spelled(keywords: &[Keyword], word: &[u8]) -> bool
    ensures { result ≡ list_any (is_spelled word.now) keywords.now }
{
    for keyword in keywords {
        if word == keyword.spelling() {
            return true;
        }
    }
    false
}

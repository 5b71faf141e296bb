//! Refusal rules.

ghost use Rattle.std.specs.Prelude.{◌≡◌};
ghost use Rattle.vf_base.specs.Rule.{number_of, name_of};

/// A rule by which a file, a link, a schedule or a certificate is refused.
#[derive(Clone, Copy, Debug, PartialEq, Eq)]
pub enum Rule {
    /// 1, `lex`: no token begins or goes on at the byte.
    Lex,
    /// 2, `include`: an included file is missing, is being expanded already, stands deeper than 32 includes, or is no prelude.
    Include,
    /// 3, `directive`: a directive is not of the forms that there are.
    Directive,
    /// 4, `syntax`: no unit begins with the tokens up to there.
    Syntax,
    /// 5, `name`: a name is not declared, declared twice, or hides a local.
    Name,
    /// 6, `type`: types or sorts disagree.
    Typing,
    /// 7, `ghostinreal`: real text uses a ghost name, ghost text assigns a C local, or a ghost name equals a C name.
    GhostInReal,
    /// 8, `order`: the order of two effects in one expression is not determined.
    Order,
    /// 9, `inductive`: a datatype has no value, or uses one that is declared later.
    Inductive,
    /// 10, `fixpoint`: a fixpoint lacks or doubles a case, or does not recurse on a component.
    Fixpoint,
    /// 11, `unsupported`: the form is not one of the profile.
    Unsupported,
    /// 20, `range`: a value is not shown to fit its type.
    Range,
    /// 21, `divisor`: a divisor is not shown to be other than 0, or a quotient not shown to fit.
    Divisor,
    /// 22, `nochunk`: no chunk of the heap fits.
    NoChunk,
    /// 23, `unset`: a value is asked of content that is not known to be set.
    Unset,
    /// 24, `pure`: a pure part is not shown to hold.
    Pure,
    /// 25, `nobody`: no body of the predicate is visible.
    NoBody,
    /// 26, `leak`: chunks are left over.
    Leak,
    /// 27, `termination`: a lemma call meets no termination rule.
    Termination,
    /// 28, `contract`: a contract is missing or does not refine another, or main asks for something.
    Contract,
    /// 29, `claim`: a claim names no function type of the signature.
    Claim,
    /// 30, `pointer`: a called pointer is not shown to have the function type.
    Pointer,
    /// 32, `noreturn`: a body that owes a value reaches its end.
    NoReturn,
    /// 33, `realcall`: ghost code calls a C function.
    RealCall,
    /// 40, `depth`: nesting passes 128.
    Depth,
    /// 41, `paths`: branch ends or facts pass their limits.
    Paths,
    /// 42, `terms`: one question has more than 1,024 terms.
    Terms,
    /// 43, `size`: a file or a unit is too large.
    Size,
    /// 44, `fraction`: a share is too fine or too large.
    Fraction,
    /// 50, `unmet`: a required function or lemma is not provided.
    Unmet,
    /// 51, `duplicate`: a function or lemma is provided twice.
    Duplicate,
    /// 52, `headerdiffers`: a header has two digests.
    HeaderDiffers,
    /// 53, `lemmacycle`: a lemma reaches itself over calls.
    LemmaCycle,
    /// 54, `nomain`: there is not just one main.
    NoMain,
    /// 55, `manifestsyntax`: a manifest has no reading.
    ManifestSyntax,
    /// 56, `twobodies`: a predicate, struct or instance has two bodies.
    TwoBodies,
    /// 57, `signature`: a required signature does not agree with the provided one.
    Signature,
    /// 60, `schedulesyntax`: a schedule has no reading.
    ScheduleSyntax,
    /// 61, `certsyntax`: a certificate has no reading.
    CertificateSyntax,
    /// 62, `certdiffers`: the files are not those of the certificate.
    CertificateDiffers,
    /// 63, `certfalse`: an answer of the certificate does not hold.
    CertificateFalse,
    /// 64, `certlength`: the certificate has too few or too many answers.
    CertificateLength,
}

impl Rule {
    /// The number under which the rule is printed.
    pub fn number(&self) -> u32
        ensures { result ≡ number_of self.now }
    {
        match self {
            Rule::Lex => 1,
            Rule::Include => 2,
            Rule::Directive => 3,
            Rule::Syntax => 4,
            Rule::Name => 5,
            Rule::Typing => 6,
            Rule::GhostInReal => 7,
            Rule::Order => 8,
            Rule::Inductive => 9,
            Rule::Fixpoint => 10,
            Rule::Unsupported => 11,
            Rule::Range => 20,
            Rule::Divisor => 21,
            Rule::NoChunk => 22,
            Rule::Unset => 23,
            Rule::Pure => 24,
            Rule::NoBody => 25,
            Rule::Leak => 26,
            Rule::Termination => 27,
            Rule::Contract => 28,
            Rule::Claim => 29,
            Rule::Pointer => 30,
            Rule::NoReturn => 32,
            Rule::RealCall => 33,
            Rule::Depth => 40,
            Rule::Paths => 41,
            Rule::Terms => 42,
            Rule::Size => 43,
            Rule::Fraction => 44,
            Rule::Unmet => 50,
            Rule::Duplicate => 51,
            Rule::HeaderDiffers => 52,
            Rule::LemmaCycle => 53,
            Rule::NoMain => 54,
            Rule::ManifestSyntax => 55,
            Rule::TwoBodies => 56,
            Rule::Signature => 57,
            Rule::ScheduleSyntax => 60,
            Rule::CertificateSyntax => 61,
            Rule::CertificateDiffers => 62,
            Rule::CertificateFalse => 63,
            Rule::CertificateLength => 64,
        }
    }

    /// The name under which the rule is printed.
    pub fn name(&self) -> &'static str
        ensures { result.now ≡ name_of self.now }
    {
        match self {
            Rule::Lex => "lex",
            Rule::Include => "include",
            Rule::Directive => "directive",
            Rule::Syntax => "syntax",
            Rule::Name => "name",
            Rule::Typing => "type",
            Rule::GhostInReal => "ghostinreal",
            Rule::Order => "order",
            Rule::Inductive => "inductive",
            Rule::Fixpoint => "fixpoint",
            Rule::Unsupported => "unsupported",
            Rule::Range => "range",
            Rule::Divisor => "divisor",
            Rule::NoChunk => "nochunk",
            Rule::Unset => "unset",
            Rule::Pure => "pure",
            Rule::NoBody => "nobody",
            Rule::Leak => "leak",
            Rule::Termination => "termination",
            Rule::Contract => "contract",
            Rule::Claim => "claim",
            Rule::Pointer => "pointer",
            Rule::NoReturn => "noreturn",
            Rule::RealCall => "realcall",
            Rule::Depth => "depth",
            Rule::Paths => "paths",
            Rule::Terms => "terms",
            Rule::Size => "size",
            Rule::Fraction => "fraction",
            Rule::Unmet => "unmet",
            Rule::Duplicate => "duplicate",
            Rule::HeaderDiffers => "headerdiffers",
            Rule::LemmaCycle => "lemmacycle",
            Rule::NoMain => "nomain",
            Rule::ManifestSyntax => "manifestsyntax",
            Rule::TwoBodies => "twobodies",
            Rule::Signature => "signature",
            Rule::ScheduleSyntax => "schedulesyntax",
            Rule::CertificateSyntax => "certsyntax",
            Rule::CertificateDiffers => "certdiffers",
            Rule::CertificateFalse => "certfalse",
            Rule::CertificateLength => "certlength",
        }
    }
}

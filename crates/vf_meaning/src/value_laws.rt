//! Laws of values and ghost expressions. Each function does nothing; its contract is the law.

ghost use Rattle.vf_meaning.specs.ValueLaws.{TellsValues, TellsNames, ValuesAgree, DividesByNought, TellsClaims};

/// Two values are one where the test on them says so.
pub fn tells_values()
    ensures { TellsValues }
{}

/// Two names are one where the test on them says so.
pub fn tells_names()
    ensures { TellsNames }
{}

/// An expression has one value under all valuations that agree on its names.
pub fn values_agree()
    ensures { ValuesAgree }
{}

/// Division and remainder by 0 are 0.
pub fn divides_by_nought()
    ensures { DividesByNought }
{}

/// A claim is true just of a function whose declaration claims the type.
pub fn tells_claims()
    ensures { TellsClaims }
{}

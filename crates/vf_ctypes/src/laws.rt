//! Laws of integer types. Each function does nothing; its contract is the law.

ghost use Rattle.vf_ctypes.specs.Laws.{PromotionKeeps, CommonTypesAreWide, CommonTypesAreMutual, CommonTypesStay, ConversionsFit, ConversionsKeep};

/// Promotion keeps each number of a type.
pub fn promotion_keeps()
    ensures { PromotionKeeps }
{}

/// No type of lower rank than `int` is a common type.
pub fn common_types_are_wide()
    ensures { CommonTypesAreWide }
{}

/// Two operands have one common type, whichever stands first.
pub fn common_types_are_mutual()
    ensures { CommonTypesAreMutual }
{}

/// A type that is a common type is the common type of itself and itself.
pub fn common_types_stay()
    ensures { CommonTypesStay }
{}

/// What a conversion gives is a number of the type.
pub fn conversions_fit()
    ensures { ConversionsFit }
{}

/// A number of a type is what it is converted to.
pub fn conversions_keep()
    ensures { ConversionsKeep }
{}

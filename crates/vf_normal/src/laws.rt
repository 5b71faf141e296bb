//! Laws of normal forms. Each function does nothing; its contract is the law.

ghost use Rattle.vf_normal.specs.Laws.{ComparisonLiteralsMeanIt, NormalFormsKeepValues, NormalFormsLookNormal, NormalFormsStay, OrderIsTotal};

/// The order of terms is total, and terms that it takes for equal are one term.
pub fn order_is_total()
    ensures { OrderIsTotal }
{}

/// Whatever is declared, in every valuation, a term and its normal form have one value.
pub fn normal_forms_keep_values()
    ensures { NormalFormsKeepValues }
{}

/// A term that looks normal, with all its subterms, is its own normal form.
pub fn normal_forms_stay()
    ensures { NormalFormsStay }
{}

/// The normal form of each term looks normal, with all its subterms, and is its own normal form.
pub fn normal_forms_look_normal()
    ensures { NormalFormsLookNormal }
{}

/// Whatever is declared, a valuation meets the literal of a comparison of integer terms exactly where
/// the comparison holds.
pub fn comparison_literals_mean_it()
    ensures { ComparisonLiteralsMeanIt }
{}

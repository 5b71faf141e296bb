//! Laws of the terms of ghost expressions. Each function does nothing; its contract is the law.

ghost use Rattle.vf_fixpoint_laws.specs.values.Agreement.{AgreementGoesBack};
ghost use Rattle.vf_fixpoint_laws.specs.values.Covering.{CoversCompose, CoversKeepValues, EachCoversItself};
ghost use Rattle.vf_fixpoint_laws.specs.values.Example.{FirstHasItsSort};
ghost use Rattle.vf_fixpoint_laws.specs.values.Laws.{ReadingsFollowSorting, TermsKeepAll, ValuesHaveSorts};
ghost use Rattle.vf_fixpoint_laws.specs.values.Telling.{SortsTellValues};

/// Sorts for the unknown ones that agree with what is known behind an expression agree with what was known in front of
/// it; so those that agree with what is known in the end agree with it behind each expression.
pub fn agreement_goes_back()
    ensures { AgreementGoesBack }
{}

/// What is declared covers itself.
pub fn each_covers_itself()
    ensures { EachCoversItself }
{}

/// What covers a cover covers what that one does.
pub fn covers_compose()
    ensures { CoversCompose }
{}

/// Values of sorts stay values of these where more is declared, and may be built.
pub fn covers_keep_values()
    ensures { CoversKeepValues }
{}

/// Where the terms that stand in a setting have values of their sorts, the term of an expression that has a sort has a
/// value of that sort as it is known in the end, if the fixpoints that the term applies keep sorts there: whatever sorts
/// stand for the type parameters of the text, and whatever values pass for those of type parameters in these. And the
/// unknown sorts behind the expression are numbered as they are where it is sorted. The values may be told where more is
/// declared than in the setting.
pub fn readings_follow_sorting()
    ensures { ReadingsFollowSorting }
{}

/// Where fixpoints keep sorts at all values, those that a term applies keep sorts there.
pub fn terms_keep_all()
    ensures { TermsKeepAll }
{}

/// Where the terms that stand in a setting have values of their sorts and fixpoints keep sorts, the term of an
/// expression that has a sort, or passes for a wanted one, has a value of that sort as it is known in the end; here too
/// more may be declared where values are told.
pub fn values_have_sorts()
    ensures { ValuesHaveSorts }
{}

/// The sorts of integers, of truth values, of pointers and of fractions have such values alone, and a datatype terms of
/// its constructors; sorts that are alike but for what pointers tell have the same values; and `any` has each value that
/// a sort has.
pub fn sorts_tell_values()
    ensures { SortsTellValues }
{}

/// Lists over a type parameter with two fixpoints, which keep sorts: `first(cons(1, nil), 2)` has an unknown sort, which
/// is that of whole numbers in the end, and its value is the number 1, of that sort.
pub fn first_has_its_sort()
    ensures { FirstHasItsSort }
{}

//! Subterms.

ghost use Rattle.std.specs.Prelude.{◌↔◌, IsTrue};
ghost use Rattle.vf_closure.specs.Terms.{IsWithin};

use vf_formula::Term;

/// Whether a term is another one, or a subterm of it.
pub(crate) fn is_within(term: &Term, whole: &Term) -> bool
    ensures { IsTrue result ↔ IsWithin term.now whole.now }
{
    if whole.same(term) {
        return true;
    }
    for part in whole.parts.as_slice() {
        if is_within(term, part) {
            return true;
        }
    }
    false
}

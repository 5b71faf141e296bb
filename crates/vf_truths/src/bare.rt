//! Terms without the negations and the truth values that they are compared with.

ghost use Rattle.std.specs.Prelude.{◌≡◌, false};
ghost use Rattle.vf_formula.specs.Rows.{truth_in};
ghost use Rattle.vf_truths.specs.Truths.{turned, beside, bare};
ghost use Rattle.vf_truths.specs.Shown.{statement_of};

use vf_core::Comparison;
use vf_formula::{Head, Term};

/// A term that is to be true, or is denied.
#[derive(Clone, Copy, Debug)]
pub(crate) struct Statement<'a> {
    pub subject: &'a Term,
    pub is_denied: bool,
}

/// A statement, or its denial.
fn turned<'a>(is_denied: bool, of: Statement<'a>) -> Statement<'a>
    ensures { statement_of result ≡ turned is_denied (statement_of of.entry) }
{
    Statement {
        subject: of.subject,
        is_denied: is_denied != of.is_denied,
    }
}

/// A term as it stands.
fn itself(term: &Term) -> Statement<'_>
    ensures { statement_of result ≡ record { subject = term.now; is_denied = false } }
{
    Statement {
        subject: term,
        is_denied: false,
    }
}

/// The statement that two terms are equal, or that they are not.
#[cycle(bare)]
fn beside<'a>(is_different: bool, whole: &'a Term, left: &'a Term, right: &'a Term) -> Statement<'a>
    ensures { statement_of result ≡ beside is_different (truth_in left.now) (truth_in right.now) (record { subject = whole.now; is_denied = false }) (bare left.now) (bare right.now) }
{
    match right.truth() {
        Some(truth) => turned(is_different == truth, bare(left)),
        None => match left.truth() {
            Some(truth) => turned(is_different == truth, bare(right)),
            None => itself(whole),
        },
    }
}

/// The statement of a term without the negations and the truth values that it is compared with.
#[cycle(bare)]
pub(crate) fn bare(term: &Term) -> Statement<'_>
    ensures { statement_of result ≡ bare term.now }
{
    match &term.head {
        Head::Not => {
            if term.parts.len() != 1 {
                return itself(term);
            }
            turned(true, bare(&term.parts.as_slice()[0]))
        }
        Head::Compare(Comparison::Equal) => {
            if term.parts.len() != 2 {
                return itself(term);
            }
            let parts = term.parts.as_slice();
            beside(false, term, &parts[0], &parts[1])
        }
        Head::Compare(Comparison::NotEqual) => {
            if term.parts.len() != 2 {
                return itself(term);
            }
            let parts = term.parts.as_slice();
            beside(true, term, &parts[0], &parts[1])
        }
        _ => itself(term),
    }
}

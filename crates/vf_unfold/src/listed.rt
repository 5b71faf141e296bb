//! Unfoldings that are listed.

ghost use Rattle.std.specs.Prelude.{◌≡◌, ◌↔◌, IsTrue, IfOk, MatchOption};
ghost use Rattle.vf_unfold.specs.Rows.{row_for, HavePlainBodies};

use crate::unfolder::Unfolder;
use std::alloc::Global;
use std::marker::Model;
use vf_base::Memory;
use vf_formula::Term;
use vf_question::is_plain;

/// Unfolds by equations, each between an application and what it is unfolded to. An application of one
/// argument goes by it, and is what the equation of its fixpoint at a constructor's term says.
#[derive(Debug, Drop)]
pub struct Listed {
    rows: Vec<(Term, Term)>,
}

impl Model for Listed {
    ghost use Rattle.std.specs.Prelude.{List};
    ghost use Rattle.std.specs.Coded.{coded_list, coded×};
    ghost use Rattle.vf_closure.specs.Terms as pure;
    ghost use Rattle.vf_formula.specs.Codes.{coded_term};

    ghost Value = { List (pure.Term × pure.Term) };

    ghost coded = { coded_list (coded× coded_term coded_term) };

    ghost use Rattle.vf_unfold.specs.Rows.{HavePlainBodies};

    ghost view = { λ l. l.rows.items };

    ghost invariant = { λ l. HavePlainBodies l.rows.items };
}

/// What the first equation for a term says that it is.
fn row_for(alloc: Global, rows: &[(Term, Term)], term: &Term) -> Result<Option<Term>, Memory>
    ensures { IfOk result (λ o. o ≡ row_for rows.now term.now) }
{
    for row in rows {
        if row.0.compare(term).is_eq() {
            return Ok(Some(row.1.copy(alloc)?));
        }
    }
    Ok(None)
}

/// Whether what the equations say is plain.
fn have_plain_bodies(rows: &[(Term, Term)]) -> bool
    ensures { IsTrue result ↔ HavePlainBodies rows.now }
{
    for row in rows {
        if !is_plain(&row.1) {
            return false;
        }
    }
    true
}

impl Listed {
    /// Unfolds by these equations; none where a number in what they say is not small or has parts.
    pub fn new(rows: Vec<(Term, Term)>) -> Option<Listed>
        ensures { MatchOption result (HavePlainBodies rows.items → ⊥) (λ l. l ≡ rows.items) }
    {
        if !have_plain_bodies(&rows) {
            return None;
        }
        Some(Listed { rows })
    }
}

impl Unfolder for Listed {
    ghost use Rattle.vf_unfold.specs.Rows.{by_rows};

    ghost unfoldings = { by_rows };

    fn body(&self, alloc: Global, application: &Term) -> Result<Option<Term>, Memory> {
        let body = row_for(alloc, &self.rows, application)?;
        Ok(body)
    }

    fn switched<'a>(&self, application: &'a Term) -> Option<&'a Term> {
        application.parts.get(0)
    }

    fn case(&self, alloc: Global, application: &Term, by: &Term) -> Result<Option<Term>, Memory> {
        let at = Term::with_one(alloc, application.head.copy()?, by.copy(alloc)?)?;
        let body = row_for(alloc, &self.rows, &at)?;
        Ok(body)
    }
}

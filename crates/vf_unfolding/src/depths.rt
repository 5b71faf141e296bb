//! The depths at which terms arise.

ghost use Rattle.std.specs.Prelude.{◌≡◌, ◌≤◌, ◌<◌, ◌+◌, ◌^◌, [], pos, min, cond, length, IfOk};
ghost use Rattle.vf_closure.specs.Terms.{number};
ghost use Rattle.vf_question.specs.Numbered.{with_term};
ghost use Rattle.vf_question.specs.Unfolded.{is_in, least_depth};
ghost use Rattle.vf_unfolding.specs.Searched.{IsDepth, AreDepths};

use crate::marking::is_among;
use crate::within::is_within;
use std::alloc::Global;
use vf_base::Memory;
use vf_formula::Term;
use vf_question::Unfolding;

/// The lesser of a depth and one more than that of an unfolding, where the term is within what this is
/// unfolded to.
fn lesser_depth(unfolding: &Unfolding, term: &Term, least: u32) -> u32
    requires { least ≤ 5 }
    ensures { result ≡ cond (is_in term.now (with_term unfolding.now.body [])) (min (unfolding.now.depth + 1) least) least }
{
    if unfolding.depth >= least {
        return least;
    }
    if is_within(term, &unfolding.body) {
        return unfolding.depth + 1;
    }
    least
}

/// One more than the least depth of the unfoldings to a term that has the given one within it, and 5
/// where there are none.
fn least_depth(made: &[Unfolding], term: &Term) -> u32
    ensures { result ≡ least_depth made.now term.now }
{
    let mut least = 5;
    for unfolding in made {
        least = lesser_depth(unfolding, term, least);
    }
    least
}

/// The depth of a numbered term: 0 for 0 and for those of the question.
fn depth_at(asked: &[u32], made: &[Unfolding], terms: &[Term], zero: &Term, place: u32) -> u32
    requires zero { zero.now ≡ number (pos 0) }
    requires there { place < length terms.now }
    ensures { IsDepth asked.now made.now terms.now place result }
{
    let term = &terms[place as usize];
    if term.same(zero) {
        return 0;
    }
    if is_among(asked, place) {
        return 0;
    }
    least_depth(made, term)
}

/// The depths of the numbered terms.
pub(crate) fn depths(
    alloc: Global,
    asked: &[u32],
    made: &[Unfolding],
    terms: &[Term],
) -> Result<Vec<u32>, Memory>
    requires few { length terms.now < 2 ^ 32 }
    ensures { IfOk result (λ v. AreDepths asked.now made.now terms.now v.items) }
{
    let zero = Term::of_number(alloc, 0);
    let mut depths = Vec::new(alloc);
    for i in 0..terms.len() as u32 {
        depths.push(depth_at(asked, made, terms, &zero, i))?;
    }
    Ok(depths)
}

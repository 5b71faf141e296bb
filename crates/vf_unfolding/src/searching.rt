//! The search for the next unfolding.

ghost use Rattle.std.specs.Prelude.{◌≡◌, ◌<◌, ◌≤◌, ◌^◌, ◌↔◌, ℕ, length, All, Some, IsTrue, IfOk, MatchOption, slice_index};
ghost use Rattle.vf_closure.specs.Closure.{no_unfoldings, Same, Conflict};
ghost use Rattle.vf_question.specs.Numbered.{all_terms};
ghost use Rattle.vf_question.specs.Plain.{IsPlain};
ghost use Rattle.vf_question.specs.Questions.{at};
ghost use Rattle.vf_question.specs.Unfolded.{WasMade};
ghost use Rattle.vf_unfolding.specs.Searched.{IsOfConstructor, IsExhausted, IsNew, IsCaseExhausted, IsNewCase, AreCasesExhausted, IsNewSwitched, IsUnfolded, IsNewOf};

use std::alloc::Global;
use vf_base::Memory;
use vf_formula::{Head, Term};
use vf_interning::{Interning, place};
use vf_question::Unfolding;
use vf_unfold::Unfolder;

/// The depth to which applications are unfolded.
const MOST_DEPTH: u32 = 4;

/// Whether applications at a depth are unfolded.
fn is_unfolded_at(depth: u32) -> bool
    ensures { IsTrue result ↔ (depth < 4) }
{
    depth < MOST_DEPTH
}

/// Whether a term is one of a constructor.
fn is_of_constructor(term: &Term) -> bool
    ensures { IsTrue result ↔ IsOfConstructor term.now }
{
    match &term.head {
        Head::Constructor(_) => true,
        _ => false,
    }
}

/// Whether an unfolding is that of an application to a body, at no greater depth.
fn is_such(unfolding: &Unfolding, application: &Term, body: &Term, depth: u32) -> bool
    ensures { IsTrue result ↔ (unfolding.now.application ≡ application.now) × (unfolding.now.body ≡ body.now) × (unfolding.now.depth ≤ depth) }
{
    if unfolding.depth > depth {
        return false;
    }
    if !unfolding.application.same(application) {
        return false;
    }
    unfolding.body.same(body)
}

/// Whether the unfolding of an application to a body was made, at no greater depth.
fn was_made(made: &[Unfolding], application: &Term, body: &Term, depth: u32) -> bool
    ensures { IsTrue result ↔ WasMade made.now application.now body.now depth }
{
    for unfolding in made {
        if is_such(unfolding, application, body, depth) {
            return true;
        }
    }
    false
}

/// The unfolding of an application to a body, where it was not made.
fn unless_made(
    alloc: Global,
    made: &[Unfolding],
    application: &Term,
    body: Term,
    depth: u32,
) -> Result<Option<Unfolding>, Memory>
    requires low { depth < 4 }
    requires plain { IsPlain body }
    ensures { IfOk result
        (λ o. MatchOption o (WasMade made.now application.now body depth)
        (λ m. IsNew made.now application.now depth (Some body) m)) }
{
    if was_made(made, application, &body, depth) {
        return Ok(None);
    }
    Ok(Some(Unfolding {
        application: application.copy(alloc)?,
        body,
        depth,
    }))
}

/// The unfolding of an application to its body, where it was not made.
fn next_body<U: Unfolder>(
    alloc: Global,
    unfolder: &U,
    made: &[Unfolding],
    application: &Term,
    depth: u32,
) -> Result<Option<Unfolding>, Memory>
    requires plain { IsPlain application.now }
    ensures { IfOk result
        (λ o. MatchOption o (IsExhausted made.now application.now depth ((U.unfoldings unfolder.now).body application.now))
        (λ m. IsNew made.now application.now depth ((U.unfoldings unfolder.now).body application.now) m)) }
{
    if !is_unfolded_at(depth) {
        return Ok(None);
    }
    match unfolder.body(alloc, application)? {
        Some(body) => Ok(unless_made(alloc, made, application, body, depth)?),
        None => Ok(None),
    }
}

/// The unfolding of an application by a term of a constructor, where it was not made.
fn next_case<U: Unfolder>(
    alloc: Global,
    unfolder: &U,
    made: &[Unfolding],
    application: &Term,
    by: &Term,
    depth: u32,
) -> Result<Option<Unfolding>, Memory>
    requires plain { IsPlain application.now }
    requires by { IsPlain by.now }
    ensures { IfOk result
        (λ o. MatchOption o (IsExhausted made.now application.now depth ((U.unfoldings unfolder.now).case application.now by.now))
        (λ m. IsNew made.now application.now depth ((U.unfoldings unfolder.now).case application.now by.now) m)) }
{
    if !is_unfolded_at(depth) {
        return Ok(None);
    }
    match unfolder.case(alloc, application, by)? {
        Some(body) => Ok(unless_made(alloc, made, application, body, depth)?),
        None => Ok(None),
    }
}

/// Whether two of the terms, by their numbers, are equal.
fn are_equal(interning: &Interning, terms: &[Term], a: u32, b: u32) -> bool
    requires fine { Conflict no_unfoldings interning.now.literals → ⊥ }
    requires terms { terms.now ≡ all_terms interning.now.literals }
    requires left { a < length terms.now }
    requires right { b < length terms.now }
    ensures { IsTrue result ↔ Same no_unfoldings interning.now.literals (at terms.now a) (at terms.now b) }
{
    let _ = terms;
    interning.same(a, b)
}

/// The same, where the term is a constructor's and equal to the argument that the application goes by.
fn next_by<U: Unfolder>(
    alloc: Global,
    unfolder: &U,
    made: &[Unfolding],
    terms: &[Term],
    depths: &[u32],
    interning: &Interning,
    application: &Term,
    depth: u32,
    switched: u32,
    by: u32,
) -> Result<Option<Unfolding>, Memory>
    requires fine { Conflict no_unfoldings interning.now.literals → ⊥ }
    requires terms { terms.now ≡ all_terms interning.now.literals }
    requires few { length terms.now < 2 ^ 32 }
    requires depths { length depths.now ≡ length terms.now }
    requires plain { All IsPlain terms.now }
    requires application { IsPlain application.now }
    requires switched { switched < length terms.now }
    requires by { by < length terms.now }
    ensures { IfOk result
        (λ o. MatchOption o (IsCaseExhausted (U.unfoldings unfolder.now) made.now interning.now.literals terms.now depths.now application.now depth switched by)
        (λ m. IsNewCase (U.unfoldings unfolder.now) made.now interning.now.literals terms.now depths.now application.now depth switched by m)) }
{
    let term = &terms[by as usize];
    if !is_of_constructor(term) {
        return Ok(None);
    }
    if !are_equal(interning, terms, switched, by) {
        return Ok(None);
    }
    let deepest = depth.max(depths[by as usize]);
    let next = next_case(alloc, unfolder, made, application, term, deepest)?;
    Ok(next)
}

/// The same with each term in turn.
fn next_by_any<U: Unfolder>(
    alloc: Global,
    unfolder: &U,
    made: &[Unfolding],
    terms: &[Term],
    depths: &[u32],
    interning: &Interning,
    application: &Term,
    depth: u32,
    switched: u32,
) -> Result<Option<Unfolding>, Memory>
    requires fine { Conflict no_unfoldings interning.now.literals → ⊥ }
    requires terms { terms.now ≡ all_terms interning.now.literals }
    requires few { length terms.now < 2 ^ 32 }
    requires depths { length depths.now ≡ length terms.now }
    requires plain { All IsPlain terms.now }
    requires application { IsPlain application.now }
    requires switched { switched < length terms.now }
    ensures { IfOk result
        (λ o. MatchOption o ((k : ℕ) → k < length terms.now → IsCaseExhausted (U.unfoldings unfolder.now) made.now interning.now.literals terms.now depths.now application.now depth switched k)
        (λ m. (k : ℕ) × (k < length terms.now) × IsNewCase (U.unfoldings unfolder.now) made.now interning.now.literals terms.now depths.now application.now depth switched k m)) }
{
    for by in 0..terms.len() as u32 {
        if let Some(next) = next_by(
            alloc,
            unfolder,
            made,
            terms,
            depths,
            interning,
            application,
            depth,
            switched,
            by,
        )? {
            return Ok(Some(next));
        }
    }
    Ok(None)
}

/// The unfolding of an application by a term that is equal to the argument that it goes by, where it was
/// not made.
fn next_switched<U: Unfolder>(
    alloc: Global,
    unfolder: &U,
    made: &[Unfolding],
    terms: &[Term],
    depths: &[u32],
    interning: &Interning,
    application: &Term,
    depth: u32,
) -> Result<Option<Unfolding>, Memory>
    requires fine { Conflict no_unfoldings interning.now.literals → ⊥ }
    requires terms { terms.now ≡ all_terms interning.now.literals }
    requires few { length terms.now < 2 ^ 32 }
    requires depths { length depths.now ≡ length terms.now }
    requires plain { All IsPlain terms.now }
    requires application { IsPlain application.now }
    ensures { IfOk result
        (λ o. MatchOption o (AreCasesExhausted (U.unfoldings unfolder.now) made.now interning.now.literals terms.now depths.now application.now depth)
        (λ m. IsNewSwitched (U.unfoldings unfolder.now) made.now interning.now.literals terms.now depths.now application.now depth m)) }
{
    match unfolder.switched(application) {
        Some(argument) => {
            let switched = place(terms, argument);
            if switched >= terms.len() {
                return Ok(None);
            }
            let next = next_by_any(
                alloc,
                unfolder,
                made,
                terms,
                depths,
                interning,
                application,
                depth,
                switched as u32,
            )?;
            Ok(next)
        }
        None => Ok(None),
    }
}

/// The unfolding of an application, to its body or by a case, where it was not made.
fn next_of<U: Unfolder>(
    alloc: Global,
    unfolder: &U,
    made: &[Unfolding],
    terms: &[Term],
    depths: &[u32],
    interning: &Interning,
    application: &Term,
    depth: u32,
) -> Result<Option<Unfolding>, Memory>
    requires fine { Conflict no_unfoldings interning.now.literals → ⊥ }
    requires terms { terms.now ≡ all_terms interning.now.literals }
    requires few { length terms.now < 2 ^ 32 }
    requires depths { length depths.now ≡ length terms.now }
    requires plain { All IsPlain terms.now }
    requires application { IsPlain application.now }
    ensures { IfOk result
        (λ o. MatchOption o (IsUnfolded (U.unfoldings unfolder.now) made.now interning.now.literals terms.now depths.now application.now depth)
        (λ m. IsNewOf (U.unfoldings unfolder.now) made.now interning.now.literals terms.now depths.now application.now depth m)) }
{
    if let Some(next) = next_body(alloc, unfolder, made, application, depth)? {
        return Ok(Some(next));
    }
    let next = next_switched(
        alloc,
        unfolder,
        made,
        terms,
        depths,
        interning,
        application,
        depth,
    )?;
    Ok(next)
}

/// The next unfolding of one of the terms, none where all were made.
pub(crate) fn find_next<U: Unfolder>(
    alloc: Global,
    unfolder: &U,
    made: &[Unfolding],
    terms: &[Term],
    depths: &[u32],
    interning: &Interning,
) -> Result<Option<Unfolding>, Memory>
    requires fine { Conflict no_unfoldings interning.now.literals → ⊥ }
    requires terms { terms.now ≡ all_terms interning.now.literals }
    requires few { length terms.now < 2 ^ 32 }
    requires depths { length depths.now ≡ length terms.now }
    requires plain { All IsPlain terms.now }
    ensures { IfOk result
        (λ o. MatchOption o ((i : ℕ) → i < length terms.now → IsUnfolded (U.unfoldings unfolder.now) made.now interning.now.literals terms.now depths.now (at terms.now i) (slice_index depths.now i))
        (λ m. (i : ℕ) × (i < length terms.now) × IsNewOf (U.unfoldings unfolder.now) made.now interning.now.literals terms.now depths.now (at terms.now i) (slice_index depths.now i) m)) }
{
    for i in 0..terms.len() {
        if let Some(next) = next_of(
            alloc, unfolder, made, terms, depths, interning, &terms[i], depths[i],
        )? {
            return Ok(Some(next));
        }
    }
    Ok(None)
}

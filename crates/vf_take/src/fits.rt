//! Whether a chunk fits what is wanted.

ghost use Rattle.std.specs.Prelude.{◌≡◌, ◌<◌, IfSome, length, true, false};
ghost use Rattle.std.specs.Option.{option_copied};
ghost use Rattle.vf_equality.specs.Equality.{CanBeCompared};
ghost use Rattle.vf_base.specs.declared.refusal.RuleFault.TheVariants.{Refused};
ghost use Rattle.vf_asking.specs.Course.{Says, refusal};
ghost use Rattle.vf_asking.specs.Journal.{Grew, HasNode, path_at, seen};
ghost use Rattle.vf_take.specs.Usable.{ArgumentCanBeCompared, ArgumentsCanBeCompared, PatternCanBeCompared, PatternsCanBeCompared, ChunkCanBeCompared, WantedCanBeCompared, known_at};
ghost use Rattle.vf_take.specs.Fits.{matches, is_different, so_far, all_match, portion, shared, suits, tries};
ghost use Rattle.vf_take.specs.Results.{Gives};

use crate::wanted::{Match, Pattern, Places, Portion, SharePattern, Wanted};
use std::alloc::Global;
use vf_asking::Asker;
use vf_base::{Place, Refusal, Rule, RuleFault, Shown};
use vf_chunk::{Argument, Chunk, Ratio, Share};
use vf_equality::{all_equal, are_equal};
use vf_formula::Term;
use vf_trail::Node;

/// A refusal by a rule at a place.
pub fn refused(rule: Rule, place: Place) -> RuleFault
    ensures { result ≡ Refused (refusal rule place) }
{
    RuleFault::Refused(Refusal {
        rule,
        place,
        shown: Shown::Nothing,
    })
}

/// The term of the argument at a place, if it is there and known.
#[tactic(auto, using(crate::proofs::Known::knowing))]
pub fn known_at(arguments: &[Argument], index: usize) -> Option<&Term>
    requires { ArgumentsCanBeCompared arguments.now }
    ensures value { option_copied result ≡ known_at arguments.now index }
    ensures compared { IfSome result (λ t. CanBeCompared t.now) }
{
    if index >= arguments.len() {
        return None;
    }
    match &arguments[index] {
        Argument::Known(term) => Some(term),
        Argument::Unknown => None,
    }
}

/// How an argument meets a pattern.
#[tactic(auto, using(vf_asking::proofs::Following::follows, vf_asking::proofs::Seeing::grew_not), unfolding(crate::specs::Fits::matches))]
fn compare_argument<A: Asker>(
    alloc: Global,
    asker: &mut A,
    at: Node,
    argument: &Argument,
    pattern: &Pattern,
    place: Place,
) -> Result<Match, RuleFault>
    requires begun { 0 < length (A.journal asker.old).units }
    requires there { HasNode (A.journal asker.old) at }
    requires argument { ArgumentCanBeCompared argument.now }
    requires pattern { PatternCanBeCompared pattern.now }
    ensures says { Says (matches place (path_at (A.journal asker.old) at) argument.now pattern.now) (λ m. m)
        (seen (A.journal asker.old)) (seen (A.journal asker.new)) result }
    ensures grew { Grew (A.journal asker.old) (A.journal asker.new) }
    ensures origin { A.origin asker.new ≡ A.origin asker.old }
{
    match argument {
        Argument::Known(term) => match pattern {
            Pattern::Is(wanted) => {
                let equal = are_equal(alloc, asker, at, term, wanted, place)?;
                if equal {
                    Ok(Match::Matches)
                } else {
                    Ok(Match::Differs)
                }
            }
            Pattern::Name => Ok(Match::Matches),
            Pattern::Wild => Ok(Match::Matches),
        },
        Argument::Unknown => match pattern {
            Pattern::Is(_) => Ok(Match::Lacks),
            Pattern::Name => Ok(Match::Lacks),
            Pattern::Wild => Ok(Match::Matches),
        },
    }
}

/// Whether an argument differs.
fn is_different(found: Match) -> bool
    ensures { result ≡ is_different found }
{
    match found {
        Match::Matches => false,
        Match::Lacks => false,
        Match::Differs => true,
    }
}

/// Whether one of some arguments lacks its value, when one more is compared.
fn so_far(lacks: bool, found: Match) -> bool
    ensures { result ≡ so_far lacks found }
{
    match found {
        Match::Matches => lacks,
        Match::Lacks => true,
        Match::Differs => lacks,
    }
}

/// How arguments meet as many patterns: from the left up to the first that differs.
fn compare_arguments<A: Asker>(
    alloc: Global,
    asker: &mut A,
    at: Node,
    arguments: &[Argument],
    patterns: &[Pattern],
    place: Place,
) -> Result<Match, RuleFault>
    requires begun { 0 < length (A.journal asker.old).units }
    requires there { HasNode (A.journal asker.old) at }
    requires arguments { ArgumentsCanBeCompared arguments.now }
    requires patterns { PatternsCanBeCompared patterns.now }
    requires as_many { length arguments.now ≡ length patterns.now }
    ensures says { Says (all_match place (path_at (A.journal asker.old) at) false arguments.now patterns.now) (λ m. m)
        (seen (A.journal asker.old)) (seen (A.journal asker.new)) result }
    ensures grew { Grew (A.journal asker.old) (A.journal asker.new) }
    ensures origin { A.origin asker.new ≡ A.origin asker.old }
{
    let mut lacks = false;
    for index in 0..arguments.len() {
        let found = match compare_argument(
            alloc,
            asker,
            at,
            &arguments[index],
            &patterns[index],
            place,
        ) {
            Ok(found) => found,
            Err(fault) => return Err(fault),
        };
        if is_different(found) {
            return Ok(Match::Differs);
        }
        lacks = so_far(lacks, found);
    }
    if lacks {
        return Ok(Match::Lacks);
    }
    Ok(Match::Matches)
}

/// What is taken of a share, if it fits.
#[tactic(auto, using(crate::proofs::Shares::portions))]
fn portion(
    alloc: Global,
    wanted: &SharePattern,
    share: &Share,
    place: Place,
) -> Result<Option<Portion>, RuleFault>
    ensures { Gives (portion place wanted.now share.now) (λ p. p) result }
{
    match wanted {
        SharePattern::Is(wanted) => {
            if !wanted.can_be_taken_of(share) {
                return Ok(None);
            }
            if share.coefficient.is_at_most(wanted.coefficient) {
                return Ok(Some(Portion::Whole(None)));
            }
            Ok(Some(Portion::Part(wanted.coefficient)))
        }
        SharePattern::Name(scale) => match share.over(alloc, scale)? {
            Ratio::Share(bound) => Ok(Some(Portion::Whole(Some(bound)))),
            Ratio::NoForm => Err(refused(Rule::Fraction, place)),
            Ratio::NoShare => Ok(None),
        },
    }
}

/// What is taken of a chunk whose arguments are compared.
#[tactic(auto, using(crate::proofs::Shares::sharing))]
fn shared(
    alloc: Global,
    found: Match,
    wanted: &SharePattern,
    share: &Share,
    places: Places,
) -> Result<Option<Portion>, RuleFault>
    ensures { Gives (shared places found wanted.now share.now) (λ p. p) result }
{
    match found {
        Match::Differs => Ok(None),
        Match::Matches => {
            let portion = portion(alloc, wanted, share, places.statement)?;
            Ok(portion)
        }
        Match::Lacks => {
            let portion = portion(alloc, wanted, share, places.statement)?;
            match portion {
                None => Ok(None),
                Some(_) => Err(refused(Rule::Unset, places.part)),
            }
        }
    }
}

/// What is taken of a chunk whose head terms are equal, if it fits.
#[tactic(auto, using(crate::proofs::Trying::suiting))]
fn suit<A: Asker>(
    alloc: Global,
    asker: &mut A,
    at: Node,
    wanted: &Wanted,
    chunk: &Chunk,
    places: Places,
) -> Result<Option<Portion>, RuleFault>
    requires begun { 0 < length (A.journal asker.old).units }
    requires there { HasNode (A.journal asker.old) at }
    requires wanted { WantedCanBeCompared wanted.now }
    requires chunk { ChunkCanBeCompared chunk.now }
    requires as_many { length chunk.now.arguments ≡ length wanted.now.patterns }
    ensures says { Says (suits places (path_at (A.journal asker.old) at) wanted.now chunk.now true) (λ p. p)
        (seen (A.journal asker.old)) (seen (A.journal asker.new)) result }
    ensures grew { Grew (A.journal asker.old) (A.journal asker.new) }
    ensures origin { A.origin asker.new ≡ A.origin asker.old }
{
    let found = compare_arguments(
        alloc,
        asker,
        at,
        chunk.arguments.as_slice(),
        wanted.patterns.as_slice(),
        places.statement,
    )?;
    let portion = shared(alloc, found, &wanted.share, &chunk.share, places)?;
    Ok(portion)
}

/// What is taken of a chunk of the wanted head, if it fits.
#[tactic(auto, using(crate::proofs::Trying::trying))]
pub(crate) fn try_chunk<A: Asker>(
    alloc: Global,
    asker: &mut A,
    at: Node,
    wanted: &Wanted,
    chunk: &Chunk,
    places: Places,
) -> Result<Option<Portion>, RuleFault>
    requires begun { 0 < length (A.journal asker.old).units }
    requires there { HasNode (A.journal asker.old) at }
    requires wanted { WantedCanBeCompared wanted.now }
    requires chunk { ChunkCanBeCompared chunk.now }
    ensures says { Says (tries places (path_at (A.journal asker.old) at) wanted.now chunk.now) (λ p. p)
        (seen (A.journal asker.old)) (seen (A.journal asker.new)) result }
    ensures grew { Grew (A.journal asker.old) (A.journal asker.new) }
    ensures origin { A.origin asker.new ≡ A.origin asker.old }
{
    if chunk.arguments.len() != wanted.patterns.len() {
        return Ok(None);
    }
    let heads = all_equal(
        alloc,
        asker,
        at,
        chunk.head.terms.as_slice(),
        wanted.head.terms.as_slice(),
        places.statement,
    )?;
    if !heads {
        return Ok(None);
    }
    let portion = suit(alloc, asker, at, wanted, chunk, places)?;
    Ok(portion)
}

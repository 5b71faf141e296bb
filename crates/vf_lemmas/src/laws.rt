//! Laws of accepted lemmas. Each function does nothing; its contract is the law.

ghost use Rattle.vf_lemmas.specs.Calls.{AssertingIsProved, CallingKeeps, ComponentsAreSmaller};
ghost use Rattle.vf_lemmas.specs.Laws.{AcceptedLemmasHold};
ghost use Rattle.vf_lemmas.specs.Openings.{OpeningGoesLower};
ghost use Rattle.vf_lemmas.specs.Shares.{ChunksAreShared, NamedSharesAreHalved, OpeningShareGoesLower, WrittenSharesAreAdded};

/// Each accepted lemma gives, from every part of memory that satisfies its precondition, a part not
/// greater that satisfies its postcondition; the difference is leaked, and is nothing where it does not leak.
pub fn accepted_lemmas_hold()
    ensures { AcceptedLemmasHold }
{}

/// A call of a lemma that holds, from any state, keeps what the state stands for, but for what is leaked.
pub fn calling_keeps()
    ensures { CallingKeeps }
{}

/// Each argument of a constructor's term is smaller than the term.
pub fn components_are_smaller()
    ensures { ComponentsAreSmaller }
{}

/// `assert` in a lemma's body: an assertion is consumed, and then the chunks are as before.
pub fn asserting_is_proved()
    ensures { AssertingIsProved }
{}

/// Where the whole of a predicate's chunk is opened, what is in the predicate's body holds less deep.
pub fn opening_goes_lower()
    ensures { OpeningGoesLower }
{}

/// A chunk that is set aside is two chunks of shares whose sum is its share.
pub fn chunks_are_shared()
    ensures { ChunksAreShared }
{}

/// A share that has a name is two halves of it.
pub fn named_shares_are_halved()
    ensures { NamedSharesAreHalved }
{}

/// Where a share of a predicate's chunk is opened, what is in the predicate's body holds less deep.
pub fn opening_share_goes_lower()
    ensures { OpeningShareGoesLower }
{}

/// A share whose number is a sum is the sum of the shares of both.
pub fn written_shares_are_added()
    ensures { WrittenSharesAreAdded }
{}

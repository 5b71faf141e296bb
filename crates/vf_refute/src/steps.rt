//! Facts over a table of terms, and steps.

/// A fact between terms, which stand for their numbers in a table.
#[derive(Clone, Copy, Debug)]
pub enum Fact {
    Equal(u32, u32),
    NotEqual(u32, u32),
    /// The first less the second is at most the number.
    AtMost(u32, u32, i128),
    /// The first less the second is the number.
    Difference(u32, u32, i128),
    /// The first less the second is not the number.
    NotDifference(u32, u32, i128),
    /// What nothing meets.
    False,
}

/// What a step derived.
#[derive(Clone, Copy, Debug)]
pub enum Derived {
    AreEqual(u32, u32),
    /// The first less the second is at most the number.
    AreWithin(u32, u32, i128),
    /// The first less the second is the number.
    HaveDifference(u32, u32, i128),
}

/// The numbers of steps.
#[derive(Debug, Drop)]
pub struct Numbers {
    pub numbers: Vec<u32>,
}

/// A step; it names earlier ones by number, counted from 0.
#[derive(Debug, Drop)]
pub enum Step {
    /// A fact, or the goal's negation, by its number among the facts.
    Fact(u32),
    /// A term is equal to itself.
    Reflexive(u32),
    /// An equality the other way round.
    Symmetric(u32),
    /// Two equalities that meet.
    Transitive(u32, u32),
    /// Two terms of one head, and for each place the step that says that their parts are equal.
    Congruent(u32, u32, Numbers),
    /// The part at a place of two equal terms of one constructor.
    Part(u32, u32),
    /// The upper bound between a sum and its part, or a number and the zero that is named.
    Above(u32, u32),
    /// The lower bound between a sum and its part, or a number and the zero that is named.
    Below(u32, u32),
    /// The upper bound of an equality of integer terms, or of a difference.
    LevelAbove(u32),
    /// The lower bound of an equality of integer terms, or of a difference.
    LevelBelow(u32),
    /// Two bounds that meet.
    Chain(u32, u32),
    /// The equality of two bounds 0 between the same integer terms.
    Squeezed(u32, u32),
    /// The last step: what a step derived cannot be.
    Conflict(u32),
    /// The last step: two bounds say the difference that a fact denies.
    DeniedDifference(u32, u32),
    /// The last step: a fact that nothing meets, by its number among the facts.
    Falsehood(u32),
}

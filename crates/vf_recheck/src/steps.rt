//! Steps.

/// A step over the terms that are numbered so far; it names terms by their numbers, and earlier steps
/// by theirs, both counted from 0.
#[derive(Debug, Drop)]
pub enum Step {
    /// A step that unfolds nothing.
    Plain(vf_refute::Step),
    /// An application of a fixpoint without a switch is equal to its body.
    ToBody(u32),
    /// An application of a fixpoint with a switch is equal to its case for the constructor's term to
    /// which a step says that the argument that it goes by is equal.
    ByCase(u32, u32),
}

/// The steps of a refutation, in order.
#[derive(Debug, Drop)]
pub struct Refutation {
    pub steps: Vec<Step>,
}

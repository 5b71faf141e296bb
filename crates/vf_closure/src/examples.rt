//! Worked examples of refutations. Each function does nothing; its contract is the example.

ghost use Rattle.vf_closure.specs.Examples.{ByCongruence, ByInjectivity, ByChain, BySqueeze, ByUnfolding, NotBySymbols};

/// Equal arguments give equal applications.
pub fn refutes_by_congruence()
    ensures { ByCongruence }
{}

/// Equal terms of one constructor have equal arguments.
pub fn refutes_by_injectivity()
    ensures { ByInjectivity }
{}

/// `x <= y` gives `x + 1 <= y + 1`.
pub fn refutes_by_a_chain()
    ensures { ByChain }
{}

/// `x <= y` and `y <= x` give `f(x) == f(y)`.
pub fn refutes_by_a_squeeze()
    ensures { BySqueeze }
{}

/// An application is what it is unfolded to.
pub fn refutes_by_unfolding()
    ensures { ByUnfolding }
{}

/// Nothing says that two symbols are equal.
pub fn does_not_refute_symbols()
    ensures { NotBySymbols }
{}

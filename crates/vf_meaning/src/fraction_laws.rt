//! Laws of dyadic fractions. Each function does nothing; its contract is the law.

ghost use Rattle.vf_meaning.specs.FractionLaws.{FormIsOne, ReducesToItsValue, CountsInUnits, SumCommutes, SumAssociates, NoughtAddsNothing, ProductCommutes, ProductAssociates, WholeScalesNothing, ProductDistributes, HalvesMakeTheWhole, StaysPositive, OrderIsTotal, OrderIsTransitive, OrderIsBySums, TellsOrder};

/// Two fractions of the same value are the same.
pub fn form_is_one()
    ensures { FormIsOne }
{}

/// Bringing a fraction to its form keeps its value.
pub fn reduces_to_its_value()
    ensures { ReducesToItsValue }
{}

/// In units that are small enough, sums and products are those of numbers.
pub fn counts_in_units()
    ensures { CountsInUnits }
{}

/// A sum of fractions is the same from both sides.
pub fn sum_commutes()
    ensures { SumCommutes }
{}

/// A sum of three fractions is the same however it is grouped.
pub fn sum_associates()
    ensures { SumAssociates }
{}

/// A sum with 0 is the other summand.
pub fn nought_adds_nothing()
    ensures { NoughtAddsNothing }
{}

/// A product of fractions is the same from both sides.
pub fn product_commutes()
    ensures { ProductCommutes }
{}

/// A product of three fractions is the same however it is grouped.
pub fn product_associates()
    ensures { ProductAssociates }
{}

/// A product with 1 is the other factor.
pub fn whole_scales_nothing()
    ensures { WholeScalesNothing }
{}

/// A product distributes over a sum.
pub fn product_distributes()
    ensures { ProductDistributes }
{}

/// Half of a fraction and half of it are the fraction.
pub fn halves_make_the_whole()
    ensures { HalvesMakeTheWhole }
{}

/// Sums, products and halves of positive fractions are positive.
pub fn stays_positive()
    ensures { StaysPositive }
{}

/// Of two fractions one is at most the other, and where each is they are one.
pub fn order_is_total()
    ensures { OrderIsTotal }
{}

/// A fraction that is at most a second one is at most what that is at most.
pub fn order_is_transitive()
    ensures { OrderIsTransitive }
{}

/// A fraction is at most another just where a fraction can be added to it to make the other.
pub fn order_is_by_sums()
    ensures { OrderIsBySums }
{}

/// The test of the order says just that.
pub fn tells_order()
    ensures { TellsOrder }
{}

//! Heads of terms as heads of a table.

ghost use Rattle.std.specs.Prelude.{◌≡◌, ◌<◌, ◌^◌, length};
ghost use Rattle.vf_formula.specs.Heads.{shown_kind, shown_head};
ghost use Rattle.vf_question.specs.Tabled.{head_place, opaque, tabled_head};

use vf_formula::{Head, Kind, Term};
use vf_table as table;

/// The place of the first term with a head; where there is none, how long the list is.
fn head_place(terms: &[Term], head: &Head) -> u32
    requires { length terms.now < 2 ^ 32 }
    ensures { result ≡ head_place (shown_head head.now) terms.now }
{
    for (i, term) in terms.iter().enumerate() {
        if term.head.compare(head).is_eq() {
            return i as u32;
        }
    }
    terms.len() as u32
}

/// The head of a table for the head with a number of which the closure knows only its kind.
fn opaque(kind: Kind, number: u32) -> table::Head
    ensures { result ≡ opaque (shown_kind kind) number }
{
    match kind {
        Kind::Integer => table::Head::Integer(number),
        Kind::Other => table::Head::Other(number),
    }
}

/// The head of the table of some terms for a head.
pub(crate) fn tabled_head(terms: &[Term], head: &Head) -> table::Head
    requires { length terms.now < 2 ^ 32 }
    ensures { result ≡ tabled_head terms.now (shown_head head.now) }
{
    match head {
        Head::Number(z) => table::Head::Number(*z),
        Head::Truth(b) => table::Head::Truth(*b),
        Head::Null => table::Head::Null,
        Head::Function(_) => table::Head::Function(head_place(terms, head)),
        Head::Constructor(_) => table::Head::Constructor(head_place(terms, head)),
        Head::Plus => table::Head::Plus,
        _ => opaque(head.kind(), head_place(terms, head)),
    }
}

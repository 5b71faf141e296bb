//! What lemmas declare.
//!
//! [`declare_lemma_prototype`] goes over a lemma without a body, and [`declare_lemma`] over a lemma with its body; each
//! lemma may be declared once in each way. What is declared in a lemma is gone behind it, and its name stays; or the
//! first fault in the order of the text is refused.
//!
//! In `specs/`: what is declared behind lemmas, with a body or without one, or their first refusal in the order of
//! the text: the name, type parameters, parameters, the contract, and the commands of the body; what is kept of a
//! lemma that is declared without a body, and what a body without a contract takes of it. `declare_lemma_prototype`
//! and `declare_lemma`: what is declared is what the definition relates to what was declared before, and a refusal is
//! one that it gives; a lemma is declared once without a body and once with one, with as many type parameters and
//! over sorts that are alike, and what is declared in it is gone behind it.
#![tactic(auto)]

mod around;
mod earlier;
mod kept;
mod lemmas;
mod signature;

pub use lemmas::{declare_lemma, declare_lemma_prototype};

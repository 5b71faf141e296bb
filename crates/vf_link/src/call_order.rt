//! The order of lemmas by their calls.

ghost use Rattle.std.specs.Prelude.{◌≡◌, ◌==◌, ◌<◌, ℕ, [], IfOk, Contains, map, filter, get_or, length, slice_index};
ghost use Rattle.vf_link.specs.Statements.{all_lines};
ghost use Rattle.vf_link.specs.Marks.{IsCalls};

use crate::firsts::firsts;
use crate::least::least_marked;
use crate::statement::{Topic, stated};
use crate::texts::Texts;
use std::alloc::Global;
use vf_base::{Memory, Sequence, Text};
use vf_cycles::find_cycles;
use vf_manifest::Manifest;

/// How lemmas call each other.
#[derive(Drop)]
pub enum Calls {
    /// No lemma calls itself, and each stands behind all that it calls.
    Ordered(Sequence<Text>),
    /// This lemma calls itself, directly or through others, and is the least that does.
    Cyclic(Text),
}

/// The texts in this order, each where it is mentioned first.
fn in_order(
    alloc: Global,
    order: &[usize],
    firsts: &[usize],
    texts: &Texts<'_>,
) -> Result<Sequence<Text>, Memory>
    requires within { (u : ℕ) → Contains order.now u → u < length texts.now }
    requires firsts { length firsts.now ≡ length texts.now }
    ensures { IfOk result (λ o. o ≡ map (λ u. get_or texts.now u [])
        (filter (λ u. slice_index firsts.now u == u) order.now)) }
{
    let mut ordered = Sequence::new(alloc);
    for at in order {
        if firsts[*at] == *at {
            ordered.push(Text::from_bytes(alloc, texts.get(*at))?)?;
        }
    }
    Ok(ordered)
}

/// How the lemmas of some manifests call each other.
pub fn calls_of(alloc: Global, manifests: &[Manifest]) -> Result<Calls, Memory>
    ensures { IfOk result (IsCalls (all_lines manifests.now)) }
{
    let calls = stated(alloc, Topic::Calls, manifests)?;
    let count = calls.subjects.len();
    let mut names = calls.subjects;
    let mut called = calls.contents;
    names.append(&mut called)?;
    let firsts = firsts(alloc, &names, count)?;
    let (callers, callees) = firsts.split_at(count);
    let cycles = find_cycles(alloc, names.len(), callers, callees)?;
    match least_marked(alloc, Topic::Calls, &names, cycles.marks.as_slice())? {
        Some(lemma) => Ok(Calls::Cyclic(lemma)),
        None => Ok(Calls::Ordered(in_order(
            alloc,
            cycles.order.as_slice(),
            firsts.as_slice(),
            &names,
        )?)),
    }
}

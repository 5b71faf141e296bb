//! The exchange of equalities and bounds at marked terms.

ghost use Rattle.std.specs.Prelude.{◌≡◌, ◌<◌, ◌↔◌, ◌+◌, ◌⊎◌, ℕ, Bool, length, IsTrue, IsFalse, IfOk};
ghost use Rattle.vf_arith.specs.Paths.{HasNegativeCycle};
ghost use Rattle.vf_ground.specs.Held.{Lacks, IsLacking, Clash};
ghost use Rattle.vf_combination.specs.Exchanged.{IsUnmarked, AreFitting, HaveGoneOn, AreQuiet, AllQuiet, QuietElsewhere, HaveFollowed, HaveMarked, HaveFallen};

use crate::marking::{bound_marking, merge_marking};
use std::alloc::Global;
use vf_arith::{Bounds, Edge};
use vf_base::Memory;
use vf_ground::{Lack, are_integers, are_level, is_near};
use vf_growing::GrowingClasses;
use vf_table::have_clashing_heads;

/// What classes and bounds lack at two terms.
fn lack_at(classes: &GrowingClasses, bounds: &Bounds, x: u32, y: u32) -> Lack
    requires fine { HasNegativeCycle bounds.now.edges → ⊥ }
    requires size { bounds.now.size ≡ length classes.now.nodes }
    requires left { x < length classes.now.nodes }
    requires right { y < length classes.now.nodes }
    ensures { Lacks classes.now.nodes classes.now.merged bounds.now.edges x y result }
{
    if !are_integers(classes.nodes(), x, y) {
        return Lack::Nothing;
    }
    if classes.same(x, y) {
        if is_near(bounds, x, y, 0) {
            return Lack::Nothing;
        }
        return Lack::OfBound;
    }
    if are_level(bounds, x, y) {
        return Lack::OfEquality;
    }
    Lack::Nothing
}

/// Whether two terms are in one class and their heads clash.
fn is_clash(classes: &GrowingClasses, x: u32, y: u32) -> bool
    requires left { x < length classes.now.nodes }
    requires right { y < length classes.now.nodes }
    ensures { IsTrue result ↔ Clash classes.now.nodes classes.now.merged x y }
{
    have_clashing_heads(classes.nodes(), x, y) && classes.same(x, y)
}

/// Two terms at which something is lacking.
#[derive(Clone, Copy)]
struct Task {
    left: u32,
    right: u32,
    lack: Lack,
}

/// Gives classes and bounds what they lack at two terms, and marks what this changes.
fn supply(
    alloc: Global,
    classes: &mut GrowingClasses,
    bounds: &mut Bounds,
    marks: &mut [bool],
    task: Task,
) -> Result<(), Memory>
    requires fitting { AreFitting classes.old bounds.old }
    requires long { length marks.old ≡ length classes.old.nodes }
    requires task { IsLacking classes.old.nodes classes.old.merged bounds.old.edges task.left task.right task.lack }
    ensures on { HaveGoneOn classes.old bounds.old classes.new bounds.new }
    ensures followed { IfOk result (λ _. (k : Bool) → HaveFollowed classes.old bounds.old k classes.new bounds.new k) }
    ensures marked { IfOk result (λ _. (k : Bool) → HaveMarked classes.old bounds.old k marks.old classes.new bounds.new k marks.new) }
    ensures quiet { IfOk result (λ _. (k : Bool) → (Clash classes.old.nodes classes.old.merged task.left task.right → IsTrue k) → (HasNegativeCycle bounds.new.edges → ⊥) → IsUnmarked marks.new task.left → IsUnmarked marks.new task.right → AreQuiet classes.new bounds.new k task.left task.right) }
    ensures falls { IfOk result (λ _. (HasNegativeCycle bounds.new.edges → ⊥) → classes.new.weight + bounds.new.weight < classes.old.weight + bounds.old.weight) }
{
    match task.lack {
        Lack::Nothing => Ok(()),
        Lack::OfBound => {
            bound_marking(
                alloc,
                bounds,
                marks,
                Edge {
                    from: task.left,
                    to: task.right,
                    most: 0,
                },
            )?;
            Ok(())
        }
        Lack::OfEquality => {
            merge_marking(alloc, classes, marks, task.left, task.right)?;
            Ok(())
        }
    }
}

/// Gives classes and bounds what they lack at two terms, and tells whether they lacked anything.
fn exchange_at(
    alloc: Global,
    classes: &mut GrowingClasses,
    bounds: &mut Bounds,
    marks: &mut [bool],
    x: u32,
    y: u32,
) -> Result<bool, Memory>
    requires fine { HasNegativeCycle bounds.old.edges → ⊥ }
    requires fitting { AreFitting classes.old bounds.old }
    requires long { length marks.old ≡ length classes.old.nodes }
    requires left { x < length classes.old.nodes }
    requires right { y < length classes.old.nodes }
    ensures on { HaveGoneOn classes.old bounds.old classes.new bounds.new }
    ensures followed { IfOk result (λ _. (k : Bool) → HaveFollowed classes.old bounds.old k classes.new bounds.new k) }
    ensures marked { IfOk result (λ _. (k : Bool) → HaveMarked classes.old bounds.old k marks.old classes.new bounds.new k marks.new) }
    ensures quiet { IfOk result (λ _. (k : Bool) → (Clash classes.old.nodes classes.old.merged x y → IsTrue k) → (HasNegativeCycle bounds.new.edges → ⊥) → IsUnmarked marks.new x → IsUnmarked marks.new y → AreQuiet classes.new bounds.new k x y) }
    ensures same { IfOk result (λ given. IsFalse given → marks.new ≡ marks.old) }
    ensures fallen { IfOk result (λ given. HaveFallen given classes.old bounds.old classes.new bounds.new) }
{
    let lack = lack_at(classes, bounds, x, y);
    match lack {
        Lack::Nothing => Ok(false),
        _ => {
            let task = Task {
                left: x,
                right: y,
                lack,
            };
            supply(alloc, classes, bounds, marks, task)?;
            Ok(true)
        }
    }
}

/// Notes whether two terms are in one class and their heads clash.
fn note_clash(classes: &GrowingClasses, clashed: &mut bool, x: u32, y: u32)
    requires left { x < length classes.now.nodes }
    requires right { y < length classes.now.nodes }
    ensures kept { IsTrue clashed.old → IsTrue clashed.new }
    ensures only { IsTrue clashed.new → IsTrue clashed.old ⊎ Clash classes.now.nodes classes.now.merged x y }
    ensures seen { Clash classes.now.nodes classes.now.merged x y → IsTrue clashed.new }
{
    if is_clash(classes, x, y) {
        *clashed = true;
    }
}

/// Gives classes and bounds what they lack at two terms, notes whether these clash, and tells whether
/// anything was lacking.
fn settle_at(
    alloc: Global,
    classes: &mut GrowingClasses,
    bounds: &mut Bounds,
    clashed: &mut bool,
    marks: &mut [bool],
    x: u32,
    y: u32,
) -> Result<bool, Memory>
    requires fine { HasNegativeCycle bounds.old.edges → ⊥ }
    requires fitting { AreFitting classes.old bounds.old }
    requires long { length marks.old ≡ length classes.old.nodes }
    requires left { x < length classes.old.nodes }
    requires right { y < length classes.old.nodes }
    ensures on { HaveGoneOn classes.old bounds.old classes.new bounds.new }
    ensures followed { IfOk result (λ _. HaveFollowed classes.old bounds.old clashed.old classes.new bounds.new clashed.new) }
    ensures marked { IfOk result (λ _. HaveMarked classes.old bounds.old clashed.old marks.old classes.new bounds.new clashed.new marks.new) }
    ensures quiet { IfOk result (λ _. (HasNegativeCycle bounds.new.edges → ⊥) → IsUnmarked marks.new x → IsUnmarked marks.new y → AreQuiet classes.new bounds.new clashed.new x y) }
    ensures same { IfOk result (λ given. IsFalse given → marks.new ≡ marks.old) }
    ensures fallen { IfOk result (λ given. HaveFallen given classes.old bounds.old classes.new bounds.new) }
{
    note_clash(classes, clashed, x, y);
    let given = exchange_at(alloc, classes, bounds, marks, x, y)?;
    Ok(given)
}

/// Settles two terms in one order and then in the other, up to a negative cycle, and tells whether
/// anything was lacking.
fn settle_in_turn(
    alloc: Global,
    classes: &mut GrowingClasses,
    bounds: &mut Bounds,
    clashed: &mut bool,
    marks: &mut [bool],
    x: u32,
    y: u32,
) -> Result<bool, Memory>
    requires fine { HasNegativeCycle bounds.old.edges → ⊥ }
    requires fitting { AreFitting classes.old bounds.old }
    requires long { length marks.old ≡ length classes.old.nodes }
    requires left { x < length classes.old.nodes }
    requires right { y < length classes.old.nodes }
    ensures on { HaveGoneOn classes.old bounds.old classes.new bounds.new }
    ensures followed { IfOk result (λ _. HaveFollowed classes.old bounds.old clashed.old classes.new bounds.new clashed.new) }
    ensures marked { IfOk result (λ _. HaveMarked classes.old bounds.old clashed.old marks.old classes.new bounds.new clashed.new marks.new) }
    ensures quiet { IfOk result (λ _. (HasNegativeCycle bounds.new.edges → ⊥) → IsUnmarked marks.new x → IsUnmarked marks.new y → AreQuiet classes.new bounds.new clashed.new x y × AreQuiet classes.new bounds.new clashed.new y x) }
    ensures same { IfOk result (λ given. IsFalse given → marks.new ≡ marks.old) }
    ensures fallen { IfOk result (λ given. HaveFallen given classes.old bounds.old classes.new bounds.new) }
{
    let given = settle_at(alloc, classes, bounds, clashed, marks, x, y)?;
    if bounds.conflict() {
        return Ok(true);
    }
    let given_back = settle_at(alloc, classes, bounds, clashed, marks, y, x)?;
    Ok(given || given_back)
}

/// Whether two terms are in two classes, and not within 0 both ways.
fn are_apart(classes: &GrowingClasses, bounds: &Bounds, x: u32, y: u32) -> bool
    requires fine { HasNegativeCycle bounds.now.edges → ⊥ }
    requires size { bounds.now.size ≡ length classes.now.nodes }
    requires left { x < length classes.now.nodes }
    requires right { y < length classes.now.nodes }
    ensures { IsTrue result → (k : Bool) → AreQuiet classes.now bounds.now k x y × AreQuiet classes.now bounds.now k y x }
{
    if classes.same(x, y) {
        return false;
    }
    if are_level(bounds, x, y) {
        return false;
    }
    true
}

/// Settles two terms in both orders, up to a negative cycle, and tells whether anything was lacking. Most
/// are apart, and are passed at once.
fn settle_both(
    alloc: Global,
    classes: &mut GrowingClasses,
    bounds: &mut Bounds,
    clashed: &mut bool,
    marks: &mut [bool],
    x: u32,
    y: u32,
) -> Result<bool, Memory>
    requires fine { HasNegativeCycle bounds.old.edges → ⊥ }
    requires fitting { AreFitting classes.old bounds.old }
    requires long { length marks.old ≡ length classes.old.nodes }
    requires left { x < length classes.old.nodes }
    requires right { y < length classes.old.nodes }
    ensures on { HaveGoneOn classes.old bounds.old classes.new bounds.new }
    ensures followed { IfOk result (λ _. HaveFollowed classes.old bounds.old clashed.old classes.new bounds.new clashed.new) }
    ensures marked { IfOk result (λ _. HaveMarked classes.old bounds.old clashed.old marks.old classes.new bounds.new clashed.new marks.new) }
    ensures quiet { IfOk result (λ _. (HasNegativeCycle bounds.new.edges → ⊥) → IsUnmarked marks.new x → IsUnmarked marks.new y → AreQuiet classes.new bounds.new clashed.new x y × AreQuiet classes.new bounds.new clashed.new y x) }
    ensures same { IfOk result (λ given. IsFalse given → marks.new ≡ marks.old) }
    ensures fallen { IfOk result (λ given. HaveFallen given classes.old bounds.old classes.new bounds.new) }
{
    if are_apart(classes, bounds, x, y) {
        return Ok(false);
    }
    settle_in_turn(alloc, classes, bounds, clashed, marks, x, y)
}

/// Settles a term with each other one, up to a negative cycle, and tells whether anything was lacking.
fn settle_beside(
    alloc: Global,
    classes: &mut GrowingClasses,
    bounds: &mut Bounds,
    clashed: &mut bool,
    marks: &mut [bool],
    x: u32,
) -> Result<bool, Memory>
    requires fine { HasNegativeCycle bounds.old.edges → ⊥ }
    requires fitting { AreFitting classes.old bounds.old }
    requires long { length marks.old ≡ length classes.old.nodes }
    requires left { x < length classes.old.nodes }
    ensures on { HaveGoneOn classes.old bounds.old classes.new bounds.new }
    ensures followed { IfOk result (λ _. HaveFollowed classes.old bounds.old clashed.old classes.new bounds.new clashed.new) }
    ensures marked { IfOk result (λ _. HaveMarked classes.old bounds.old clashed.old marks.old classes.new bounds.new clashed.new marks.new) }
    ensures quiet { IfOk result (λ _. (HasNegativeCycle bounds.new.edges → ⊥) → (y : ℕ) → y < length classes.old.nodes → IsUnmarked marks.new x → IsUnmarked marks.new y → AreQuiet classes.new bounds.new clashed.new x y × AreQuiet classes.new bounds.new clashed.new y x) }
    ensures same { IfOk result (λ given. IsFalse given → marks.new ≡ marks.old) }
    ensures fallen { IfOk result (λ given. HaveFallen given classes.old bounds.old classes.new bounds.new) }
{
    let mut given = false;
    for y in 0..classes.size() {
        if settle_both(alloc, classes, bounds, clashed, marks, x, y)? {
            given = true;
            if bounds.conflict() {
                return Ok(true);
            }
        }
    }
    Ok(given)
}

/// Takes the mark from a term, if it is marked, and settles the term, up to a negative cycle, and tells
/// whether anything was lacking.
fn settle_if_marked(
    alloc: Global,
    classes: &mut GrowingClasses,
    bounds: &mut Bounds,
    clashed: &mut bool,
    marks: &mut [bool],
    x: u32,
) -> Result<bool, Memory>
    requires fine { HasNegativeCycle bounds.old.edges → ⊥ }
    requires fitting { AreFitting classes.old bounds.old }
    requires long { length marks.old ≡ length classes.old.nodes }
    requires elsewhere { QuietElsewhere classes.old bounds.old clashed.old marks.old }
    requires left { x < length classes.old.nodes }
    ensures on { HaveGoneOn classes.old bounds.old classes.new bounds.new }
    ensures followed { IfOk result (λ _. HaveFollowed classes.old bounds.old clashed.old classes.new bounds.new clashed.new) }
    ensures elsewhere { IfOk result (λ _. (HasNegativeCycle bounds.new.edges → ⊥) → QuietElsewhere classes.new bounds.new clashed.new marks.new) }
    ensures unmarked { IfOk result (λ given. IsFalse given → IsUnmarked marks.new x) }
    ensures others { IfOk result (λ given. IsFalse given → (y : ℕ) → IsUnmarked marks.old y → IsUnmarked marks.new y) }
    ensures fallen { IfOk result (λ given. HaveFallen given classes.old bounds.old classes.new bounds.new) }
{
    if !marks[x as usize] {
        return Ok(false);
    }
    marks[x as usize] = false;
    let given = settle_beside(alloc, classes, bounds, clashed, marks, x)?;
    Ok(given)
}

/// Takes the mark from each marked term and settles it, up to a negative cycle, and tells whether
/// anything was lacking.
fn settle_once(
    alloc: Global,
    classes: &mut GrowingClasses,
    bounds: &mut Bounds,
    clashed: &mut bool,
    marks: &mut [bool],
) -> Result<bool, Memory>
    requires fine { HasNegativeCycle bounds.old.edges → ⊥ }
    requires fitting { AreFitting classes.old bounds.old }
    requires long { length marks.old ≡ length classes.old.nodes }
    requires elsewhere { QuietElsewhere classes.old bounds.old clashed.old marks.old }
    ensures on { HaveGoneOn classes.old bounds.old classes.new bounds.new }
    ensures followed { IfOk result (λ _. HaveFollowed classes.old bounds.old clashed.old classes.new bounds.new clashed.new) }
    ensures elsewhere { IfOk result (λ _. (HasNegativeCycle bounds.new.edges → ⊥) → QuietElsewhere classes.new bounds.new clashed.new marks.new) }
    ensures quiet { IfOk result (λ given. IsFalse given → AllQuiet classes.new bounds.new clashed.new) }
    ensures fallen { IfOk result (λ given. HaveFallen given classes.old bounds.old classes.new bounds.new) }
{
    let mut given = false;
    for x in 0..classes.size() {
        if settle_if_marked(alloc, classes, bounds, clashed, marks, x)? {
            given = true;
            if bounds.conflict() {
                return Ok(true);
            }
        }
    }
    Ok(given)
}

/// Brings classes and bounds to agree at each two terms, or to a negative cycle, where they agree at
/// each two that are not marked.
pub fn settle(
    alloc: Global,
    classes: &mut GrowingClasses,
    bounds: &mut Bounds,
    clashed: &mut bool,
    marks: &mut [bool],
) -> Result<(), Memory>
    requires fitting { AreFitting classes.old bounds.old }
    requires long { length marks.old ≡ length classes.old.nodes }
    requires elsewhere { (HasNegativeCycle bounds.old.edges → ⊥) → QuietElsewhere classes.old bounds.old clashed.old marks.old }
    ensures on { HaveGoneOn classes.old bounds.old classes.new bounds.new }
    ensures followed { IfOk result (λ _. HaveFollowed classes.old bounds.old clashed.old classes.new bounds.new clashed.new) }
    ensures quiet { IfOk result (λ _. (HasNegativeCycle bounds.new.edges → ⊥) → AllQuiet classes.new bounds.new clashed.new) }
{
    if bounds.conflict() {
        return Ok(());
    }
    while settle_once(alloc, classes, bounds, clashed, marks)? {
        if bounds.conflict() {
            return Ok(());
        }
    }
    Ok(())
}

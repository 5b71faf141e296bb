//! Distances that are kept aside where a matrix is brought up to date, so that it can be gone back to.

ghost use Rattle.std.specs.Prelude.{◌≡◌, ◌*◌, ◌<◌, ◌≤◌, ◌^◌, ◌⊎◌, ℕ, ℤ, pos, length, Contains, Some, IfOk, MatchBool};
ghost use Rattle.vf_arith.specs.Paths.{IsSmall};
ghost use Rattle.vf_arith.specs.Matrices.{AreSmall, ObeyTriangles, distance, entry, lesser, over_edge};
ghost use Rattle.vf_arith.specs.Histories.{IsSaved, IsShortened};

use crate::bounds::Step;
use crate::matrix::way_over;
use std::alloc::Global;
use vf_base::Memory;

/// The distance of two points as it was.
#[derive(Clone, Copy, Debug)]
pub struct Saved {
    pub x: u32,
    pub y: u32,
    pub distance: Option<i128>,
}

/// A step, whether there was a cycle below 0 before it, and the distances that it changed, as they
/// were.
#[derive(Drop)]
pub struct Layer {
    pub step: Step,
    pub cyclic: bool,
    pub saved: Vec<Saved>,
}

/// Whether a way is shorter than a distance.
fn is_shorter(way: Option<i128>, distance: Option<i128>) -> bool
    ensures { MatchBool result (lesser distance way ≡ way) (lesser distance way ≡ distance) }
{
    match (way, distance) {
        (None, _) => false,
        (Some(_), None) => true,
        (Some(w), Some(d)) => w < d,
    }
}

/// Keeps the distance of two points where a way is shorter.
fn save_if_longer(
    saved: &mut Vec<Saved>,
    x: u32,
    y: u32,
    distance: Option<i128>,
    way: Option<i128>,
) -> Result<(), Memory>
    ensures kept { IfOk result (λ _. (s : Saved) → Contains saved.old.items s → Contains saved.new.items s) }
    ensures only { IfOk result (λ _. (s : Saved) → Contains saved.new.items s → Contains saved.old.items s ⊎ (s.x ≡ x) × (s.y ≡ y) × (s.distance ≡ distance) × (lesser distance way ≡ way)) }
    ensures looked { IfOk result (λ _. IsSaved saved.new.items x y ⊎ (lesser distance way ≡ distance)) }
{
    if is_shorter(way, distance) {
        saved.push(Saved { x, y, distance })?;
        return Ok(());
    }
    Ok(())
}

/// Keeps a point where a way to it is shorter than a distance.
fn keep_if_shorter(
    ends: &mut Vec<u32>,
    y: u32,
    way: Option<i128>,
    distance: Option<i128>,
) -> Result<(), Memory>
    ensures kept { IfOk result (λ _. (z : ℕ) → Contains ends.old.items z → Contains ends.new.items z) }
    ensures only { IfOk result (λ _. (z : ℕ) → Contains ends.new.items z → Contains ends.old.items z ⊎ (z ≡ y)) }
    ensures looked { IfOk result (λ _. Contains ends.new.items y ⊎ (lesser distance way ≡ distance)) }
{
    if is_shorter(way, distance) {
        ends.push(y)?;
        return Ok(());
    }
    Ok(())
}

/// The points to which the way over an edge is shorter than the distance from its beginning.
fn nearer(
    alloc: Global,
    matrix: &[Option<i128>],
    from: u32,
    most: i128,
    after: &[Option<i128>],
) -> Result<Vec<u32>, Memory>
    requires few { length after.now ≤ 2 ^ 24 }
    requires long { length matrix.now ≡ length after.now * length after.now }
    requires start { from < length after.now }
    requires most { IsSmall (2 ^ 100) most }
    requires after { AreSmall after.now }
    ensures below { IfOk result (λ ends. (y : ℕ) → Contains ends.items y → y < length after.now) }
    ensures others { IfOk result (λ ends. (y : ℕ) → y < length after.now → Contains ends.items y ⊎ (lesser (distance (length after.now) matrix.now from y) (over_edge (Some (pos 0)) most (entry after.now y)) ≡ distance (length after.now) matrix.now from y)) }
{
    let mut ends = Vec::new(alloc);
    for y in 0..after.len() as u32 {
        let way = way_over(Some(0), most, after[y as usize]);
        let kept = matrix[from as usize * after.len() + y as usize];
        keep_if_shorter(&mut ends, y, way, kept)?;
    }
    Ok(ends)
}

/// Keeps the distances from a point to some that the way over an edge shortens.
fn save_row(
    saved: &mut Vec<Saved>,
    matrix: &[Option<i128>],
    x: u32,
    before: &[Option<i128>],
    most: i128,
    after: &[Option<i128>],
    ends: &[u32],
) -> Result<(), Memory>
    requires few { length before.now ≤ 2 ^ 24 }
    requires long { length matrix.now ≡ length before.now * length before.now }
    requires same { length after.now ≡ length before.now }
    requires point { x < length before.now }
    requires ends { (y : ℕ) → Contains ends.now y → y < length before.now }
    requires before { AreSmall before.now }
    requires most { IsSmall (2 ^ 100) most }
    requires after { AreSmall after.now }
    ensures kept { IfOk result (λ _. (s : Saved) → Contains saved.old.items s → Contains saved.new.items s) }
    ensures only { IfOk result (λ _. (s : Saved) → Contains saved.new.items s → Contains saved.old.items s ⊎ IsShortened (length before.now) matrix.now before.now most after.now s) }
    ensures looked { IfOk result (λ _. (y : ℕ) → Contains ends.now y → IsSaved saved.new.items x y ⊎ (lesser (distance (length before.now) matrix.now x y) (over_edge (entry before.now x) most (entry after.now y)) ≡ distance (length before.now) matrix.now x y)) }
{
    let size = before.len();
    for y in ends {
        let way = way_over(before[x as usize], most, after[*y as usize]);
        save_if_longer(saved, x, *y, matrix[x as usize * size + *y as usize], way)?;
    }
    Ok(())
}

/// Keeps the distances from a point that the way over an edge to a second point shortens. Where it
/// shortens none to that point, it shortens none.
fn save_row_if_shorter(
    saved: &mut Vec<Saved>,
    matrix: &[Option<i128>],
    x: u32,
    before: &[Option<i128>],
    most: i128,
    to: u32,
    after: &[Option<i128>],
    ends: &[u32],
) -> Result<(), Memory>
    requires few { length before.now ≤ 2 ^ 24 }
    requires long { length matrix.now ≡ length before.now * length before.now }
    requires same { length after.now ≡ length before.now }
    requires triangles { ObeyTriangles (length before.now) (distance (length before.now) matrix.now) }
    requires point { x < length before.now }
    requires end { to < length before.now }
    requires from_end { (y : ℕ) → y < length before.now → entry after.now y ≡ distance (length before.now) matrix.now to y }
    requires ends { (y : ℕ) → Contains ends.now y → y < length before.now }
    requires others { (y : ℕ) → y < length before.now → Contains ends.now y ⊎ (lesser (distance (length before.now) matrix.now x y) (over_edge (entry before.now x) most (entry after.now y)) ≡ distance (length before.now) matrix.now x y) }
    requires before { AreSmall before.now }
    requires most { IsSmall (2 ^ 100) most }
    requires after { AreSmall after.now }
    ensures kept { IfOk result (λ _. (s : Saved) → Contains saved.old.items s → Contains saved.new.items s) }
    ensures only { IfOk result (λ _. (s : Saved) → Contains saved.new.items s → Contains saved.old.items s ⊎ IsShortened (length before.now) matrix.now before.now most after.now s) }
    ensures looked { IfOk result (λ _. (y : ℕ) → y < length before.now → IsSaved saved.new.items x y ⊎ (lesser (distance (length before.now) matrix.now x y) (over_edge (entry before.now x) most (entry after.now y)) ≡ distance (length before.now) matrix.now x y)) }
{
    let way = way_over(before[x as usize], most, Some(0));
    let kept = matrix[x as usize * before.len() + to as usize];
    if is_shorter(way, kept) {
        return save_row(saved, matrix, x, before, most, after, ends);
    }
    Ok(())
}

/// The distances that the way over an edge shortens, the distances to its beginning and from its end
/// being given. No point is looked at from which the way to its end is none shorter, and none to which
/// the way from its beginning is none shorter.
pub fn shortened(
    alloc: Global,
    matrix: &[Option<i128>],
    from: u32,
    before: &[Option<i128>],
    most: i128,
    to: u32,
    after: &[Option<i128>],
) -> Result<Vec<Saved>, Memory>
    requires few { length before.now ≤ 2 ^ 24 }
    requires long { length matrix.now ≡ length before.now * length before.now }
    requires same { length after.now ≡ length before.now }
    requires triangles { ObeyTriangles (length before.now) (distance (length before.now) matrix.now) }
    requires start { from < length before.now }
    requires to_start { (x : ℕ) → x < length before.now → entry before.now x ≡ distance (length before.now) matrix.now x from }
    requires end { to < length before.now }
    requires from_end { (y : ℕ) → y < length before.now → entry after.now y ≡ distance (length before.now) matrix.now to y }
    requires before { AreSmall before.now }
    requires most { IsSmall (2 ^ 100) most }
    requires after { AreSmall after.now }
    ensures only { IfOk result (λ v. (s : Saved) → Contains v.items s → IsShortened (length before.now) matrix.now before.now most after.now s) }
    ensures looked { IfOk result (λ v. (x y : ℕ) → x < length before.now → y < length before.now → IsSaved v.items x y ⊎ (lesser (distance (length before.now) matrix.now x y) (over_edge (entry before.now x) most (entry after.now y)) ≡ distance (length before.now) matrix.now x y)) }
{
    let ends = nearer(alloc, matrix, from, most, after)?;
    let mut saved = Vec::new(alloc);
    for x in 0..before.len() as u32 {
        save_row_if_shorter(&mut saved, matrix, x, before, most, to, after, &ends)?;
    }
    Ok(saved)
}

/// Gives each of some distances the way over an edge.
pub fn shorten(
    matrix: &mut [Option<i128>],
    saved: &[Saved],
    before: &[Option<i128>],
    most: i128,
    after: &[Option<i128>],
)
    requires few { length before.now ≤ 2 ^ 24 }
    requires long { length matrix.old ≡ length before.now * length before.now }
    requires same { length after.now ≡ length before.now }
    requires before { AreSmall before.now }
    requires most { IsSmall (2 ^ 100) most }
    requires after { AreSmall after.now }
    requires points { (s : Saved) → Contains saved.now s → (s.x < length before.now) × (s.y < length before.now) }
    ensures put { (s : Saved) → Contains saved.now s → distance (length before.now) matrix.new s.x s.y ≡ over_edge (entry before.now s.x) most (entry after.now s.y) }
    ensures each { (x y : ℕ) → x < length before.now → y < length before.now → IsSaved saved.now x y ⊎ (distance (length before.now) matrix.new x y ≡ distance (length before.now) matrix.old x y) }
{
    let size = before.len();
    for s in saved {
        let way = way_over(before[s.x as usize], most, after[s.y as usize]);
        matrix[s.x as usize * size + s.y as usize] = way;
    }
}

/// Puts distances back as they were.
pub fn restore(matrix: &mut [Option<i128>], size: u32, saved: &[Saved])
    requires few { size ≤ 2 ^ 24 }
    requires long { length matrix.old ≡ size * size }
    requires points { (s : Saved) → Contains saved.now s → (s.x < size) × (s.y < size) }
    requires one { (s t : Saved) → Contains saved.now s → Contains saved.now t → s.x ≡ t.x → s.y ≡ t.y → s.distance ≡ t.distance }
    ensures put { (s : Saved) → Contains saved.now s → distance size matrix.new s.x s.y ≡ s.distance }
    ensures each { (x y : ℕ) → x < size → y < size → IsSaved saved.now x y ⊎ (distance size matrix.new x y ≡ distance size matrix.old x y) }
{
    for s in saved {
        matrix[s.x as usize * size as usize + s.y as usize] = s.distance;
    }
}

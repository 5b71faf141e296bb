//! Matrices of distances, kept row by row.

ghost use Rattle.std.specs.Prelude.{◌≡◌, ℕ, ◌*◌, ◌/◌, ◌%◌, ◌<◌, ◌≤◌, ◌^◌, ◌↔◌, ◌+ℤ◌, ◌<ℤ◌, ◌==◌, if◌then◌else◌, ℤ, pos, length, IsTrue, IfOk};
ghost use Rattle.vf_arith.specs.Paths.{IsSmall};
ghost use Rattle.vf_arith.specs.Matrices.{entry, distance, over_edge};
ghost use Rattle.vf_arith.specs.Histories.{IsDistanceIn};

use std::alloc::Global;
use vf_base::Memory;

/// The distance over an edge.
pub fn way_over(before: Option<i128>, most: i128, after: Option<i128>) -> Option<i128>
    requires before { (v : ℤ) → before ≡ Some v → IsSmall (2 ^ 124) v }
    requires most { IsSmall (2 ^ 100) most }
    requires after { (v : ℤ) → after ≡ Some v → IsSmall (2 ^ 124) v }
    ensures { result ≡ over_edge before most after }
{
    match (before, after) {
        (Some(v), Some(w)) => Some(v + most + w),
        _ => None,
    }
}

/// The distances from a point.
pub fn row(
    alloc: Global,
    matrix: &[Option<i128>],
    size: u32,
    y: u32,
) -> Result<Vec<Option<i128>>, Memory>
    requires few { size ≤ 2 ^ 24 }
    requires long { length matrix.now ≡ size * size }
    requires point { y < size }
    ensures { IfOk result (λ v. (length v.items ≡ size) × ((k : ℕ) → k < size → entry v.items k ≡ distance size matrix.now y k)) }
{
    let mut out = Vec::new(alloc);
    for k in 0..size {
        out.push(matrix[y as usize * size as usize + k as usize])?;
    }
    Ok(out)
}

/// The distances to a point.
pub fn column(
    alloc: Global,
    matrix: &[Option<i128>],
    size: u32,
    x: u32,
) -> Result<Vec<Option<i128>>, Memory>
    requires few { size ≤ 2 ^ 24 }
    requires long { length matrix.now ≡ size * size }
    requires point { x < size }
    ensures { IfOk result (λ v. (length v.items ≡ size) × ((k : ℕ) → k < size → entry v.items k ≡ distance size matrix.now k x)) }
{
    let mut out = Vec::new(alloc);
    for k in 0..size {
        out.push(matrix[k as usize * size as usize + x as usize])?;
    }
    Ok(out)
}

/// Whether the way back over an edge makes a cycle below 0.
pub fn closes_below(back: Option<i128>, most: i128) -> bool
    requires back { (v : ℤ) → back ≡ Some v → IsSmall (2 ^ 124) v }
    requires most { IsSmall (2 ^ 100) most }
    ensures { IsTrue result ↔ ((t : ℤ) × (back ≡ Some t) × ((t +ℤ most) <ℤ pos 0)) }
{
    match back {
        Some(t) => t + most < 0,
        None => false,
    }
}

/// The distances where there is no edge: 0 from each point to itself, and none between two.
pub fn without_edges(alloc: Global, size: u32) -> Result<Vec<Option<i128>>, Memory>
    requires few { size ≤ 2 ^ 24 }
    ensures long { IfOk result (λ v. length v.items ≡ size * size) }
    ensures entries { IfOk result (λ v. (k : ℕ) → k < size * size → entry v.items k ≡ (if k / size == k % size then Some (pos 0) else None)) }
{
    let size = size as usize;
    let mut matrix = Vec::with_capacity(alloc, size * size)?;
    for k in 0..size * size {
        matrix.push(if k / size == k % size { Some(0) } else { None })?;
    }
    Ok(matrix)
}

/// The distance of two points in a matrix, or beyond it: 0 from a point to itself, and none between
/// two.
fn distance_in(matrix: &[Option<i128>], size: u32, x: u32, y: u32) -> Option<i128>
    requires few { size ≤ 2 ^ 24 }
    requires long { length matrix.now ≡ size * size }
    ensures { IsDistanceIn size (distance size matrix.now) x y result }
{
    if x < size && y < size {
        return matrix[x as usize * size as usize + y as usize];
    }
    if x == y { Some(0) } else { None }
}

/// The matrix with more points, which have no edges.
pub fn widened(
    alloc: Global,
    matrix: &[Option<i128>],
    size: u32,
    width: u32,
) -> Result<Vec<Option<i128>>, Memory>
    requires few { width ≤ 2 ^ 24 }
    requires more { size ≤ width }
    requires long { length matrix.now ≡ size * size }
    ensures long { IfOk result (λ v. length v.items ≡ width * width) }
    ensures entries { IfOk result (λ v. (x y : ℕ) → x < width → y < width → IsDistanceIn size (distance size matrix.now) x y (distance width v.items x y)) }
{
    let width = width as usize;
    let mut wide = Vec::with_capacity(alloc, width * width)?;
    for k in 0..width * width {
        let x = (k / width) as u32;
        let y = (k % width) as u32;
        wide.push(distance_in(matrix, size, x, y))?;
    }
    Ok(wide)
}

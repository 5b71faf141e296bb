//! Bounds between points.

ghost use Rattle.std.specs.Prelude.{◌≡◌, Contains, ◌+◌, ◌-◌, ◌<◌, ◌≤◌, ◌^◌, ◌∷◌, [], ◌++◌, ◌↔◌, ◌≤ℤ◌, ℤ, pos, length, take, IsTrue, IfOk, IfSome, OnOk, OnErr, MatchOption};
ghost use Rattle.vf_arith.specs.Paths.{Path, IsLeast, HasNegativeCycle, IsSmall};
ghost use Rattle.vf_arith.specs.Steps.{points_of, bounds_of};
ghost use Rattle.vf_arith.specs.Histories.{OnlySavedShorten};

use crate::journal::{Layer, Saved, restore, shorten, shortened};
use crate::matrix::{closes_below, column, row, widened, without_edges};
use std::alloc::Global;
use std::marker::Model;
use vf_base::Memory;

/// The most that a number in a bound can be.
const SMALL: i128 = 1 << 100;

/// The most points between which there can be bounds: a matrix of more than 2^48 distances is past
/// what a machine can address.
pub const MOST_POINTS: u32 = 1 << 24;

/// So many points that there is room for a whole question in one step instead: a matrix is kept until
/// the wider one is made, and two large ones are not to be in memory together.
const MANY_POINTS: u32 = 640;

/// The points of a whole question, with a few to spare: it has at most 1,024 terms, and 0 is a point
/// too.
const QUESTION_POINTS: u32 = 1_032;

/// A bound: the point `from` less the point `to` is at most `most`.
#[derive(Clone, Copy, Debug)]
pub struct Edge {
    pub from: u32,
    pub to: u32,
    pub most: i128,
}

/// What came to be in one step: a point that has no bounds, or a bound.
#[derive(Clone, Copy, Debug)]
pub enum Step {
    Point,
    Bound(Edge),
}

/// Whether a number can stand in a bound: within plus and minus 2^100.
pub fn is_small(c: i128) -> bool
    ensures { IsTrue result ↔ IsSmall (2 ^ 100) c }
{
    -SMALL <= c && c <= SMALL
}

/// How many points there is room for where there was room for a number of them, which is not the
/// most.
fn more_room(width: u32) -> u32
    requires { width < MOST_POINTS }
    ensures more { width < result }
    ensures few { result ≤ MOST_POINTS }
{
    let more = width + width / 8 + 8;
    if width < QUESTION_POINTS && MANY_POINTS <= more {
        QUESTION_POINTS
    } else if more < MOST_POINTS {
        more
    } else {
        MOST_POINTS
    }
}

/// How many points there were before a step.
fn points_before(points: u32, step: Step) -> u32
    requires { points_of (step ∷ []) ≤ points }
    ensures { result ≡ points - points_of (step ∷ []) }
{
    match step {
        Step::Point => points - 1,
        Step::Bound(_) => points,
    }
}

/// Takes a step's bound away, which is the last, if it has one.
fn take_back(edges: &mut Vec<Edge>, step: Step)
    ensures { edges.new.items ≡ take (length edges.old.items - length (bounds_of (step ∷ []))) edges.old.items }
{
    match step {
        Step::Point => {}
        Step::Bound(_) => {
            edges.pop();
        }
    }
}

/// Bounds between points, with the least weights of their paths.
#[derive(Drop)]
pub struct Bounds {
    size: u32,
    width: u32,
    edges: Vec<Edge>,
    cyclic: bool,
    matrix: Vec<Option<i128>>,
    layers: Vec<Layer>,
}

impl Model for Bounds {
    ghost use Rattle.std.specs.Prelude.{count_by};
    ghost use Rattle.vf_arith.specs.Paths.{Network};
    ghost use Rattle.vf_arith.specs.Matrices.{is_above};
    ghost use Rattle.vf_arith.specs.Histories.{steps_of};

    ghost Value = { Network };

    ghost view = { λ b. record { size = b.size; edges = b.edges.items; steps = steps_of b.layers.items; weight = count_by is_above b.matrix.items } };

    ghost use Rattle.vf_arith.specs.Histories.{AreKept};

    ghost invariant = { λ b. AreKept b.size b.width b.edges.items b.cyclic b.matrix.items b.layers.items };
}

impl Bounds {
    /// No bounds between points of this number, which are the first steps.
    pub fn new(alloc: Global, size: u32) -> Result<Bounds, Memory>
        requires few { size ≤ MOST_POINTS }
        ensures { IfOk result (λ b. (b.size ≡ size) × (b.edges ≡ [])) }
    {
        let mut bounds = Bounds {
            size: 0,
            width: size,
            edges: Vec::new(alloc),
            cyclic: false,
            matrix: without_edges(alloc, size)?,
            layers: Vec::new(alloc),
        };
        for _ in 0..size {
            bounds.grow(alloc)?;
        }
        Ok(bounds)
    }

    /// Adds a point without bounds, and answers its number. Where there is no memory nothing is added.
    pub fn grow(&mut self, alloc: Global) -> Result<u32, Memory>
        requires { self.old.size < MOST_POINTS }
        ensures number { IfOk result (λ point. point ≡ self.old.size) }
        ensures size { OnOk result (self.new.size ≡ self.old.size + 1) }
        ensures steps { OnOk result (self.new.steps ≡ self.old.steps ++ Step.Point ∷ []) }
        ensures same_size { OnErr result (self.new.size ≡ self.old.size) }
        ensures same_steps { OnErr result (self.new.steps ≡ self.old.steps) }
        ensures edges { self.new.edges ≡ self.old.edges }
    {
        let point = self.size;
        let layer = Layer {
            step: Step::Point,
            cyclic: self.cyclic,
            saved: Vec::new(alloc),
        };
        if point < self.width {
            self.layers.push(layer)?;
            self.size = point + 1;
            return Ok(point);
        }
        let width = more_room(point);
        let matrix = widened(alloc, &self.matrix, point, width)?;
        self.layers.push(layer)?;
        self.matrix = matrix;
        self.width = width;
        self.size = point + 1;
        Ok(point)
    }

    /// Adds a bound. Where there is no memory nothing is added.
    pub fn add(&mut self, alloc: Global, edge: Edge) -> Result<(), Memory>
        requires from { edge.from < self.old.size }
        requires to { edge.to < self.old.size }
        requires small { IsSmall (2 ^ 100) edge.most }
        ensures size { self.new.size ≡ self.old.size }
        ensures edges { OnOk result (self.new.edges ≡ self.old.edges ++ edge ∷ []) }
        ensures steps { OnOk result (self.new.steps ≡ self.old.steps ++ Step.Bound edge ∷ []) }
        ensures unchanged { OnErr result (self.new.edges ≡ self.old.edges) }
        ensures same_steps { OnErr result (self.new.steps ≡ self.old.steps) }
        ensures weight { OnOk result ((HasNegativeCycle self.new.edges → ⊥) → edge.most ≤ℤ pos 0 → ((c : ℤ) → c ≤ℤ pos 0 → Path self.old.edges edge.from edge.to c → ⊥) → self.new.weight < self.old.weight) }
    {
        let before = column(alloc, &self.matrix, self.width, edge.from)?;
        let after = row(alloc, &self.matrix, self.width, edge.to)?;
        self.edges.reserve(1)?;
        self.layers.reserve(1)?;
        if self.cyclic {
            self.edges.push_reserved(edge);
            self.layers.push_reserved(Layer {
                step: Step::Bound(edge),
                cyclic: true,
                saved: Vec::new(alloc),
            });
            return Ok(());
        }
        if closes_below(before[edge.to as usize], edge.most) {
            self.edges.push_reserved(edge);
            self.layers.push_reserved(Layer {
                step: Step::Bound(edge),
                cyclic: false,
                saved: Vec::new(alloc),
            });
            self.cyclic = true;
            return Ok(());
        }
        let saved = shortened(
            alloc,
            &self.matrix,
            edge.from,
            &before,
            edge.most,
            edge.to,
            &after,
        )?;
        shorten(&mut self.matrix, &saved, &before, edge.most, &after);
        self.edges.push_reserved(edge);
        self.layers.push_reserved(Layer {
            step: Step::Bound(edge),
            cyclic: false,
            saved,
        });
        Ok(())
    }

    /// How many steps there are: the points and the bounds that were added, in the order in which they
    /// came.
    pub fn steps(&self) -> usize
        ensures steps { result ≡ length self.now.steps }
        ensures points { self.now.size ≡ points_of self.now.steps }
        ensures edges { self.now.edges ≡ bounds_of self.now.steps }
    {
        self.layers.len()
    }

    /// The distances that the last step changed, as they were before; none where there is no step. Two
    /// points of which none is kept there are no nearer to each other than before it.
    pub fn shortened(&self) -> &[Saved]
        requires fine { HasNegativeCycle self.now.edges → ⊥ }
        ensures { OnlySavedShorten self.now result.now }
    {
        match self.layers.last() {
            Some(layer) => &layer.saved,
            None => &[],
        }
    }

    /// Goes back to the first steps of this number. It takes no memory.
    pub fn undo(&mut self, mark: usize)
        requires { mark ≤ length self.old.steps }
        ensures steps { self.new.steps ≡ take mark self.old.steps }
        ensures size { self.new.size ≡ points_of self.new.steps }
        ensures edges { self.new.edges ≡ bounds_of self.new.steps }
    {
        while self.steps() > mark {
            self.undo_last();
        }
    }

    /// Goes back before the last step.
    fn undo_last(&mut self)
        requires { 0 < length self.old.steps }
        ensures { self.new.steps ≡ take (length self.old.steps - 1) self.old.steps }
    {
        if let Some(layer) = self.layers.pop() {
            self.size = points_before(self.size, layer.step);
            take_back(&mut self.edges, layer.step);
            restore(&mut self.matrix, self.width, &layer.saved);
            self.cyclic = layer.cyclic;
        }
    }

    /// How many points there are.
    pub fn size(&self) -> u32
        ensures size { result ≡ self.now.size }
        ensures few { result ≤ MOST_POINTS }
    {
        self.size
    }

    /// The bounds that were added, in order.
    pub fn edges(&self) -> &[Edge]
        ensures edges { result.now ≡ self.now.edges }
        ensures points { (e : Edge) → Contains self.now.edges e → (e.from < self.now.size) × (e.to < self.now.size) × IsSmall (2 ^ 100) e.most }
    {
        &self.edges
    }

    /// Whether a chain of bounds leads from a point to itself below 0.
    pub fn conflict(&self) -> bool
        ensures { IsTrue result ↔ HasNegativeCycle self.now.edges }
    {
        self.cyclic
    }

    /// The least sum of a chain of bounds from a point to another, none exactly where there is no
    /// chain.
    pub fn bound(&self, x: u32, y: u32) -> Option<i128>
        requires fine { HasNegativeCycle self.now.edges → ⊥ }
        requires left { x < self.now.size }
        requires right { y < self.now.size }
        ensures least { MatchOption result ((c : ℤ) → Path self.now.edges x y c → ⊥) (λ c. IsLeast self.now.edges x y c) }
        ensures small { IfSome result (λ c. IsSmall (2 ^ 125) c) }
    {
        self.matrix[x as usize * self.width as usize + y as usize]
    }
}

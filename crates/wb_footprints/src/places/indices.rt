//! Indices of one object: points, or labels.

ghost use Rattle.std.specs.Prelude.{◌≡◌, ◌<◌, ◌≤◌, Bool, [], ◌∷◌, true, Some, IsTrue, length, map, slice_get};
ghost use Rattle.std.specs.List.{list_any};
ghost use Rattle.wb_cells.specs.declared.values.index.Index.{Index};
ghost use Rattle.wb_cells.specs.declared.values.index.Index.TheVariants.{Point as at_point, Text as at_text};
ghost use Rattle.wb_footprints.specs.HeldIndices.{indices_of};
ghost use Rattle.wb_footprints.specs.Indices.{in_indices};
ghost use Rattle.wb_footprints.specs.Keys.{index_key};

use crate::places::labels::Labels;
use crate::places::points::Points;
use std::marker::Model;
use wb_cells::{AnyIndex, Index};

/// How indices are kept.
#[derive(Drop)]
pub enum HeldIndices {
    /// Points.
    Points(Points),
    /// Labels.
    Labels(Labels),
}

/// Indices of one object. Contracts see the list of them.
#[derive(Drop)]
pub struct Indices {
    held: HeldIndices,
}

impl Model for Indices {
    ghost use Rattle.std.specs.Prelude.{List};
    ghost use Rattle.wb_cells.specs.declared.values.index.Index.{Index};
    ghost use Rattle.wb_footprints.specs.HeldIndices.{indices_of};

    ghost Value = { List Index };

    ghost view = { λ a. indices_of a.held };
}

impl Indices {
    /// Points as indices.
    pub fn points(points: Points) -> Indices
        ensures { result ≡ map at_point points }
    {
        Indices {
            held: HeldIndices::Points(points),
        }
    }

    /// Labels as indices.
    pub fn labels(labels: Labels) -> Indices
        ensures { result ≡ map at_text labels }
    {
        Indices {
            held: HeldIndices::Labels(labels),
        }
    }

    /// How they are kept.
    pub(crate) fn held(&self) -> &HeldIndices
        ensures { indices_of result.now ≡ self.now }
    {
        &self.held
    }

    /// One index.
    pub fn one(index: &AnyIndex) -> Indices
        ensures { result ≡ index.now ∷ [] }
    {
        match index.index() {
            Index::Point(point) => Indices::points(Points::one(&point)),
            Index::Text(label) => Indices::labels(Labels::one(&label)),
        }
    }

    /// The keys of the first index and of the last: those of all are between them.
    pub fn ends(&self) -> (u64, u64)
        requires { 0 < length self.now }
        ensures within { (i : Index) → in_indices self.now i ≡ true → (result.0 ≤ index_key i) × (index_key i ≤ result.1) }
        ensures order { result.0 ≤ result.1 }
        ensures first { 0 < result.0 }
    {
        match &self.held {
            HeldIndices::Points(points) => points.ends(),
            HeldIndices::Labels(labels) => labels.ends(),
        }
    }

    /// How many indices there are.
    pub fn len(&self) -> usize
        ensures { result ≡ length self.now }
    {
        match &self.held {
            HeldIndices::Points(points) => points.len(),
            HeldIndices::Labels(labels) => labels.len(),
        }
    }

    /// The index at a place.
    pub fn index(&self, at: usize) -> AnyIndex
        requires { at < length self.now }
        ensures { slice_get self.now at ≡ Some result }
    {
        match &self.held {
            HeldIndices::Points(points) => AnyIndex::new(Index::Point(points.point(at))),
            HeldIndices::Labels(labels) => AnyIndex::new(Index::Text(labels.label(at))),
        }
    }

    /// Whether one of the other indices is one of these: no point is a label.
    pub fn meets(&self, others: &Indices) -> bool
        ensures { result ≡ list_any (in_indices self.now) others.now }
    {
        match &others.held {
            HeldIndices::Points(points) => self.meets_points(points),
            HeldIndices::Labels(labels) => self.meets_labels(labels),
        }
    }

    // Whether one of the points is one of these indices.
    fn meets_points(&self, points: &Points) -> bool
        ensures { result ≡ list_any (in_indices self.now) (map at_point points.now) }
    {
        match &self.held {
            HeldIndices::Points(own) => own.meets(points),
            HeldIndices::Labels(_) => false,
        }
    }

    // Whether one of the labels is one of these indices.
    fn meets_labels(&self, labels: &Labels) -> bool
        ensures { result ≡ list_any (in_indices self.now) (map at_text labels.now) }
    {
        match &self.held {
            HeldIndices::Points(_) => false,
            HeldIndices::Labels(own) => own.meets(labels),
        }
    }

    /// Whether all of the other indices are seen to be among these: a test that finds one of those finds one of these.
    pub(crate) fn has_all(&self, others: &Indices) -> bool
        ensures { IsTrue result → (f : Index → Bool) → list_any f others.now ≡ true → list_any f self.now ≡ true }
    {
        match &self.held {
            HeldIndices::Points(points) => others.are_among(points),
            HeldIndices::Labels(labels) => others.are_labels(labels),
        }
    }

    // Whether they are seen to be among these points.
    fn are_among(&self, points: &Points) -> bool
        ensures { IsTrue result → (f : Index → Bool) → list_any f self.now ≡ true → list_any f (map at_point points.now) ≡ true }
    {
        match &self.held {
            HeldIndices::Points(own) => points.has_all(own),
            HeldIndices::Labels(_) => false,
        }
    }

    /// Whether they are seen to be the same indices.
    pub fn is_same(&self, others: &Indices) -> bool
        ensures { IsTrue result → self.now ≡ others.now }
    {
        match &self.held {
            HeldIndices::Points(points) => others.are_points(points),
            HeldIndices::Labels(labels) => others.are_labels(labels),
        }
    }

    // Whether they are seen to be these points.
    fn are_points(&self, points: &Points) -> bool
        ensures { IsTrue result → map at_point points.now ≡ self.now }
    {
        match &self.held {
            HeldIndices::Points(own) => points.is_same(own),
            HeldIndices::Labels(_) => false,
        }
    }

    // Whether they are seen to be these labels.
    fn are_labels(&self, labels: &Labels) -> bool
        ensures { IsTrue result → map at_text labels.now ≡ self.now }
    {
        match &self.held {
            HeldIndices::Points(_) => false,
            HeldIndices::Labels(own) => labels.is_same(own),
        }
    }
}

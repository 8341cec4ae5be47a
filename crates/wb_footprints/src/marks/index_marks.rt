//! Which numbers stand at which indices.

ghost use Rattle.std.specs.Prelude.{◌≡◌, ℕ, ◌&&◌, false, true, Some, None, IsTrue, OnOk, OnErr, if◌then◌else◌};
ghost use Rattle.std.specs.Ordering.{eq_by_cmp};
ghost use Rattle.wb_cells.specs.declared.values.index.Index.{Index};
ghost use Rattle.wb_cells.specs.Cells.{is_same_index};
ghost use Rattle.std.specs.List.{list_any};
ghost use Rattle.wb_footprints.specs.Indices.{in_indices};
ghost use Rattle.wb_footprints.specs.Marks.{marked};
ghost use Rattle.wb_footprints.specs.Relation.{Sets, Clears, IsLeastAfter, JoinedAfter};
ghost use Rattle.wb_footprints.specs.Parts.{alone_marked, index_marked};

use crate::marks::block_marks::BlockMarks;
use crate::marks::blocks::NewBlock;
use crate::marks::earlier::earlier;
use crate::marks::key_marks::Marks;
use crate::marks::numbers::Numbers;
use crate::marks::point_marks::PointMarks;
use crate::marks::text_marks::{join_texts, least_text};
use crate::places::indices::{HeldIndices, Indices};
use std::alloc::Global;
use wb_cells::{AnyIndex, Index, coordinates_of};
use wb_range::NoMemory;
use wb_sets::Label;

/// Numbers at indices.
#[derive(Drop)]
pub struct IndexMarks {
    points: PointMarks,
    texts: Marks<Label>,
    blocks: BlockMarks,
}

impl IndexMarks {
    /// No marks.
    pub fn new(alloc: Global) -> IndexMarks
        ensures { (i : Index) (n : ℕ) → index_marked result i n ≡ false }
    {
        IndexMarks {
            points: PointMarks::new(alloc),
            texts: Marks::new(alloc),
            blocks: BlockMarks::new(alloc),
        }
    }

    /// Adds a number at an index.
    pub fn add(&mut self, index: &AnyIndex, number: u64) -> Result<(), NoMemory>
        ensures ok { OnOk result (Sets (index_marked self.old) (index_marked self.new) (is_same_index index.now) number true) }
        ensures err { OnErr result (self.new ≡ self.old) }
    {
        if let Some(line) = coordinates_of::<1>(index) {
            return self.points.add_single(line[0], number);
        }
        match index.index() {
            Index::Point(point) => self.points.add(point, number),
            Index::Text(label) => self.texts.add(label, number),
        }
    }

    /// Adds a number at many indices, and says whether it did. Where not, they may go one by one.
    pub fn add_block(&mut self, block: NewBlock) -> bool
        ensures { Sets (index_marked self.old) (index_marked self.new) (λ i. result && in_indices block.indices i) block.number true }
    {
        self.blocks.add(block)
    }

    /// Takes a number away from an index, and from all indices where it stands in a block.
    pub fn take(&mut self, index: &AnyIndex, number: u64)
        ensures { Clears (index_marked self.old) (index_marked self.new) (is_same_index index.now) number }
    {
        self.blocks.take(number);
        if let Some(line) = coordinates_of::<1>(index) {
            self.points.take_single(line[0], number);
            return;
        }
        match index.index() {
            Index::Point(point) => self.points.take(point, number),
            Index::Text(label) => self.texts.take(label, number),
        }
    }

    /// Whether the number is seen to stand at no index: none has marks alone, and no block is of the number.
    pub fn is_clear(&self, number: u64) -> bool
        ensures { IsTrue result → (i : Index) → index_marked self.now i number ≡ false }
    {
        if !self.points.is_empty() {
            return false;
        }
        if !self.texts.is_empty() {
            return false;
        }
        self.blocks.is_clear(number)
    }

    // The least number above `after` at one of several indices, of those that stand there alone.
    fn least_alone(&self, indices: &Indices, after: u64) -> Option<u64>
        ensures { IsLeastAfter (λ n. list_any (λ i. alone_marked self.now i n) indices.now) after result }
    {
        match indices.held() {
            HeldIndices::Points(points) => self.points.least_in(points, after),
            HeldIndices::Labels(labels) => least_text(&self.texts, labels, after),
        }
    }

    /// The least number above `after` at one of several indices.
    pub fn least_in(&self, indices: &Indices, after: u64) -> Option<u64>
        ensures { IsLeastAfter (λ n. list_any (λ i. index_marked self.now i n) indices.now) after result }
    {
        let alone = self.least_alone(indices, after);
        earlier(alone, self.blocks.least_in(indices, after))
    }

    // The least number above `after` at an index, of those that stand there alone.
    fn least_alone_at(&self, index: &AnyIndex, after: u64) -> Option<u64>
        ensures { IsLeastAfter (alone_marked self.now index.now) after result }
    {
        if let Some(line) = coordinates_of::<1>(index) {
            return self.points.single_after(line[0], after);
        }
        match index.index() {
            Index::Point(point) => self.points.least_after(point, after),
            Index::Text(label) => self.texts.least_after(label, after),
        }
    }

    /// The least number above `after` at an index.
    pub fn least_after(&self, index: &AnyIndex, after: u64) -> Option<u64>
        ensures { IsLeastAfter (index_marked self.now index.now) after result }
    {
        let alone = self.least_alone_at(index, after);
        earlier(alone, self.blocks.least_after(index, after))
    }

    // Those above `after` at one of several indices join the numbers that wait, of those that stand there alone.
    fn join_alone(
        &self,
        indices: &Indices,
        after: u64,
        waiting: &mut Numbers,
    ) -> Result<(), NoMemory>
        ensures { OnOk result (JoinedAfter waiting.old waiting.new
            (λ n. list_any (λ i. alone_marked self.now i n) indices.now) after) }
    {
        match indices.held() {
            HeldIndices::Points(points) => self.points.join_in(points, after, waiting),
            HeldIndices::Labels(labels) => join_texts(&self.texts, labels, after, waiting),
        }
    }

    /// Those above `after` at one of several indices join the numbers that wait.
    pub fn join_in(
        &self,
        indices: &Indices,
        after: u64,
        waiting: &mut Numbers,
    ) -> Result<(), NoMemory>
        ensures { OnOk result (JoinedAfter waiting.old waiting.new
            (λ n. list_any (λ i. index_marked self.now i n) indices.now) after) }
    {
        self.join_alone(indices, after, waiting)?;
        self.blocks.join_in(indices, after, waiting)
    }

    // Those above `after` at an index join the numbers that wait, of those that stand there alone.
    fn join_alone_at(
        &self,
        index: &AnyIndex,
        after: u64,
        waiting: &mut Numbers,
    ) -> Result<(), NoMemory>
        ensures { OnOk result (JoinedAfter waiting.old waiting.new (alone_marked self.now index.now) after) }
    {
        match index.index() {
            Index::Point(point) => self.points.join_after(point, after, waiting),
            Index::Text(label) => self.texts.join_after(label, after, waiting),
        }
    }

    /// Those above `after` at an index join the numbers that wait.
    pub fn join_after(
        &self,
        index: &AnyIndex,
        after: u64,
        waiting: &mut Numbers,
    ) -> Result<(), NoMemory>
        ensures { OnOk result (JoinedAfter waiting.old waiting.new (index_marked self.now index.now) after) }
    {
        self.join_alone_at(index, after, waiting)?;
        self.blocks.join_after(index, after, waiting)
    }
}

//! Which numbers stand at which places.

ghost use Rattle.std.specs.Prelude.{◌≡◌, ℕ, ◌&&◌, false, true, IsTrue, OnOk, OnErr};
ghost use Rattle.wb_cells.specs.Runs.{cell_of};
ghost use Rattle.wb_footprints.specs.declared.places.place.Place.{Place};
ghost use Rattle.wb_footprints.specs.declared.places.place.Place.TheVariants as place;
ghost use Rattle.std.specs.List.{list_any};
ghost use Rattle.wb_footprints.specs.Relation.{Sets, Clears, IsLeastAfter, JoinedAfter};
ghost use Rattle.wb_cells.specs.declared.values.index.Index.{Index};
ghost use Rattle.wb_footprints.specs.Places.{own, place_marked, is_same_place, in_places};

use crate::marks::blocks::NewBlock;
use crate::marks::key_marks::Marks;
use crate::marks::numbers::Numbers;
use crate::marks::object_marks::ObjectMarks;
use crate::places::indices::Indices;
use crate::places::part::Part;
use crate::places::place::Place;
use std::alloc::Global;
use wb_cells::{IndexedRow, Name};
use wb_range::NoMemory;

/// Numbers at places.
#[derive(Drop)]
pub struct PlaceMarks {
    objects: Marks<bool>,
    parts: ObjectMarks,
    pub(crate) alloc: Global,
}

impl PlaceMarks {
    /// No marks.
    pub fn new(alloc: Global) -> PlaceMarks
        ensures { (p : Place) (n : ℕ) → place_marked result p n ≡ false }
    {
        PlaceMarks {
            objects: Marks::new(alloc),
            parts: ObjectMarks::new(alloc),
            alloc,
        }
    }

    /// Adds a number at a part of the object of a name.
    pub fn add_part(&mut self, name: &Name, part: &Part, number: u64) -> Result<(), NoMemory>
        ensures ok { OnOk result (Sets (place_marked self.old) (place_marked self.new) (is_same_place (place.Of name.now part.now)) number true) }
        ensures err { OnErr result ((p : Place) (n : ℕ) → place_marked self.new p n ≡ place_marked self.old p n) }
    {
        self.parts.add(*name, part, number)
    }

    /// Adds a number at a place.
    pub fn add(&mut self, place: &Place, number: u64) -> Result<(), NoMemory>
        ensures ok { OnOk result (Sets (place_marked self.old) (place_marked self.new) (is_same_place place.now) number true) }
        ensures err { OnErr result ((p : Place) (n : ℕ) → place_marked self.new p n ≡ place_marked self.old p n) }
    {
        match place {
            Place::Objects => self.objects.add(true, number),
            Place::Of(name, part) => self.add_part(name, part, number),
        }
    }

    /// Adds a number at the own places of the cells of a row at many indices, and says whether it did. Where not, they may go one by one.
    pub fn add_block(&mut self, row: &IndexedRow, block: NewBlock) -> bool
        ensures { Sets (place_marked self.old) (place_marked self.new) (λ q. result && in_places row.now block.indices q) block.number true }
    {
        self.parts.add_block(row.name(), row.kind(), block)
    }

    /// Takes a number away from a part of the object of a name, and from others where it stands in a block with it.
    pub fn take_part(&mut self, name: &Name, part: &Part, number: u64)
        ensures { Clears (place_marked self.old) (place_marked self.new) (is_same_place (place.Of name.now part.now)) number }
    {
        self.parts.take(*name, part, number);
    }

    /// Takes a number away from a place, and from others where it stands in a block with it.
    pub fn take(&mut self, place: &Place, number: u64)
        ensures { Clears (place_marked self.old) (place_marked self.new) (is_same_place place.now) number }
    {
        match place {
            Place::Objects => self.objects.take(true, number),
            Place::Of(name, part) => self.take_part(name, part, number),
        }
    }

    /// Whether the number is seen to stand at the own place of no cell of a row.
    pub fn is_clear(&self, row: &IndexedRow, number: u64) -> bool
        ensures { IsTrue result → (p : Index) (q : Place) → is_same_place (own (cell_of row.now p)) q ≡ true → place_marked self.now q number ≡ false }
    {
        self.parts.is_clear(row.name(), row.kind(), number)
    }

    /// The least number above `after` at the own place of one of the cells of a row at several indices.
    pub fn least_in(&self, row: &IndexedRow, indices: &Indices, after: u64) -> Option<u64>
        ensures { IsLeastAfter (λ n. list_any (λ p. place_marked self.now (own (cell_of row.now p)) n) indices.now) after result }
    {
        self.parts.least_in(row.name(), row.kind(), indices, after)
    }

    /// The least number above `after` at a part of the object of a name.
    pub fn part_after(&self, name: &Name, part: &Part, after: u64) -> Option<u64>
        ensures { IsLeastAfter (place_marked self.now (place.Of name.now part.now)) after result }
    {
        self.parts.least_after(*name, part, after)
    }

    /// The least number above `after` at a place.
    pub fn least_after(&self, place: &Place, after: u64) -> Option<u64>
        ensures { IsLeastAfter (place_marked self.now place.now) after result }
    {
        match place {
            Place::Objects => self.objects.least_after(true, after),
            Place::Of(name, part) => self.part_after(name, part, after),
        }
    }

    /// Those above `after` at the own place of one of the cells of a row at several indices join the numbers that wait.
    pub fn join_in(
        &self,
        row: &IndexedRow,
        indices: &Indices,
        after: u64,
        waiting: &mut Numbers,
    ) -> Result<(), NoMemory>
        ensures { OnOk result (JoinedAfter waiting.old waiting.new
            (λ n. list_any (λ p. place_marked self.now (own (cell_of row.now p)) n) indices.now) after) }
    {
        self.parts
            .join_in(row.name(), row.kind(), indices, after, waiting)
    }

    /// Those above `after` at a place join the numbers that wait.
    pub fn join_after(
        &self,
        place: &Place,
        after: u64,
        waiting: &mut Numbers,
    ) -> Result<(), NoMemory>
        ensures { OnOk result (JoinedAfter waiting.old waiting.new (place_marked self.now place.now) after) }
    {
        match place {
            Place::Objects => self.objects.join_after(true, after, waiting),
            Place::Of(name, part) => self.parts.join_after(*name, part, after, waiting),
        }
    }
}

//! Which numbers stand at which parts of an object.

ghost use Rattle.std.specs.Prelude.{◌≡◌, ℕ, ◌&&◌, false, true, IsTrue, OnOk, OnErr};
ghost use Rattle.std.specs.List.{list_any};
ghost use Rattle.wb_footprints.specs.declared.places.part.Part.{Part};
ghost use Rattle.wb_footprints.specs.Relation.{Sets, Clears, IsLeastAfter, JoinedAfter};
ghost use Rattle.wb_cells.specs.declared.values.index.Index.{Index};
ghost use Rattle.wb_footprints.specs.Parts.{part_at, part_marked, is_same_part, in_run};

use crate::marks::blocks::NewBlock;
use crate::marks::index_marks::IndexMarks;
use crate::marks::key_marks::Marks;
use crate::marks::numbers::Numbers;
use crate::marks::slot_marks::SlotMarks;
use crate::places::indices::Indices;
use crate::places::part::Part;
use std::alloc::Global;
use wb_cells::{Name, RowKind};
use wb_range::NoMemory;

/// Numbers at the parts of one object.
pub struct NameMarks {
    slots: SlotMarks,
    users: Marks<Name>,
    inside: IndexMarks,
    members: IndexMarks,
    elements: IndexMarks,
}

// In a function of its own, so that a function that lets marks go need not prove anew how each field is let go.
impl Drop for NameMarks {
    fn drop(self) {
        let NameMarks {
            slots: _,
            users: _,
            inside: _,
            members: _,
            elements: _,
        } = self;
    }
}

impl NameMarks {
    /// No marks.
    pub fn new(alloc: Global) -> NameMarks
        ensures { (p : Part) (n : ℕ) → part_marked result p n ≡ false }
    {
        NameMarks {
            slots: SlotMarks::new(alloc),
            users: Marks::new(alloc),
            inside: IndexMarks::new(alloc),
            members: IndexMarks::new(alloc),
            elements: IndexMarks::new(alloc),
        }
    }

    /// Adds a number at a part.
    pub fn add(&mut self, part: &Part, number: u64) -> Result<(), NoMemory>
        ensures ok { OnOk result (Sets (part_marked self.old) (part_marked self.new) (is_same_part part.now) number true) }
        ensures err { OnErr result (self.new ≡ self.old) }
    {
        match part {
            Part::Slot(slot) => self.slots.add(*slot, number),
            Part::In(index) => self.inside.add(index, number),
            Part::Member(index) => self.members.add(index, number),
            Part::User(user) => self.users.add(*user, number),
            Part::Element(index) => self.elements.add(index, number),
        }
    }

    /// Adds a number at many indices, and says whether it did.
    pub fn add_block(&mut self, kind: RowKind, block: NewBlock) -> bool
        ensures { Sets (part_marked self.old) (part_marked self.new) (λ x. result && in_run kind block.indices x) block.number true }
    {
        match kind {
            RowKind::Inside => self.inside.add_block(block),
            RowKind::Members => self.members.add_block(block),
            RowKind::Elements => self.elements.add_block(block),
        }
    }

    /// Takes a number away from a part, and from others where it stands in a block.
    pub fn take(&mut self, part: &Part, number: u64)
        ensures { Clears (part_marked self.old) (part_marked self.new) (is_same_part part.now) number }
    {
        match part {
            Part::Slot(slot) => self.slots.take(*slot, number),
            Part::In(index) => self.inside.take(index, number),
            Part::Member(index) => self.members.take(index, number),
            Part::User(user) => self.users.take(*user, number),
            Part::Element(index) => self.elements.take(index, number),
        }
    }

    /// Whether the number is seen to stand at no index of the kind.
    pub fn is_clear(&self, kind: RowKind, number: u64) -> bool
        ensures { IsTrue result → (p : Index) → part_marked self.now (part_at kind p) number ≡ false }
    {
        match kind {
            RowKind::Inside => self.inside.is_clear(number),
            RowKind::Members => self.members.is_clear(number),
            RowKind::Elements => self.elements.is_clear(number),
        }
    }

    /// The least number above `after` at one of several indices of the kind.
    pub fn least_in(&self, kind: RowKind, indices: &Indices, after: u64) -> Option<u64>
        ensures { IsLeastAfter (λ n. list_any (λ p. part_marked self.now (part_at kind p) n) indices.now) after result }
    {
        match kind {
            RowKind::Inside => self.inside.least_in(indices, after),
            RowKind::Members => self.members.least_in(indices, after),
            RowKind::Elements => self.elements.least_in(indices, after),
        }
    }

    /// The least number above `after` at a part.
    pub fn least_after(&self, part: &Part, after: u64) -> Option<u64>
        ensures { IsLeastAfter (part_marked self.now part.now) after result }
    {
        match part {
            Part::Slot(slot) => self.slots.least_after(*slot, after),
            Part::In(index) => self.inside.least_after(index, after),
            Part::Member(index) => self.members.least_after(index, after),
            Part::User(user) => self.users.least_after(*user, after),
            Part::Element(index) => self.elements.least_after(index, after),
        }
    }

    /// Those above `after` at one of several indices of the kind join the numbers that wait.
    pub fn join_in(
        &self,
        kind: RowKind,
        indices: &Indices,
        after: u64,
        waiting: &mut Numbers,
    ) -> Result<(), NoMemory>
        ensures { OnOk result (JoinedAfter waiting.old waiting.new
            (λ n. list_any (λ p. part_marked self.now (part_at kind p) n) indices.now) after) }
    {
        match kind {
            RowKind::Inside => self.inside.join_in(indices, after, waiting),
            RowKind::Members => self.members.join_in(indices, after, waiting),
            RowKind::Elements => self.elements.join_in(indices, after, waiting),
        }
    }

    /// Those above `after` at a part join the numbers that wait.
    pub fn join_after(&self, part: &Part, after: u64, waiting: &mut Numbers) -> Result<(), NoMemory>
        ensures { OnOk result (JoinedAfter waiting.old waiting.new (part_marked self.now part.now) after) }
    {
        match part {
            Part::Slot(slot) => self.slots.join_after(*slot, after, waiting),
            Part::In(index) => self.inside.join_after(index, after, waiting),
            Part::Member(index) => self.members.join_after(index, after, waiting),
            Part::User(user) => self.users.join_after(*user, after, waiting),
            Part::Element(index) => self.elements.join_after(index, after, waiting),
        }
    }
}

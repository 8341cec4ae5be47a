//! Which numbers stand at which slots of an object.

ghost use Rattle.std.specs.Prelude.{◌≡◌, ℕ, false, true, OnOk, OnErr};
ghost use Rattle.std.specs.Ordering.{eq_by_cmp};
ghost use Rattle.wb_footprints.specs.declared.places.part.Slot as slot;
ghost use Rattle.wb_footprints.specs.Relation.{Sets, IsLeastAfter, JoinedAfter};
ghost use Rattle.wb_footprints.specs.Slots.{slot_cmp, slot_marked};

use crate::marks::numbers::Numbers;
use crate::places::part::Slot;
use std::alloc::Global;
use wb_range::NoMemory;

/// Numbers at the slots of one object.
#[derive(Drop)]
pub struct SlotMarks {
    object: Numbers,
    shape: Numbers,
    mapping: Numbers,
    implicit: Numbers,
    members: Numbers,
    uses: Numbers,
    elements: Numbers,
}

impl SlotMarks {
    /// No marks.
    pub fn new(alloc: Global) -> SlotMarks
        ensures { (s : slot.Slot) (n : ℕ) → slot_marked result s n ≡ false }
    {
        SlotMarks {
            object: Numbers::new(alloc),
            shape: Numbers::new(alloc),
            mapping: Numbers::new(alloc),
            implicit: Numbers::new(alloc),
            members: Numbers::new(alloc),
            uses: Numbers::new(alloc),
            elements: Numbers::new(alloc),
        }
    }

    /// Adds a number at a slot.
    pub fn add(&mut self, slot: Slot, number: u64) -> Result<(), NoMemory>
        ensures ok { OnOk result (Sets (slot_marked self.old) (slot_marked self.new) (eq_by_cmp slot_cmp slot) number true) }
        ensures err { OnErr result (self.new ≡ self.old) }
    {
        match slot {
            Slot::Object => self.object.add(number),
            Slot::Shape => self.shape.add(number),
            Slot::Mapping => self.mapping.add(number),
            Slot::Implicit => self.implicit.add(number),
            Slot::Members => self.members.add(number),
            Slot::Uses => self.uses.add(number),
            Slot::Elements => self.elements.add(number),
        }
    }

    /// Takes a number away from a slot.
    pub fn take(&mut self, slot: Slot, number: u64)
        ensures { Sets (slot_marked self.old) (slot_marked self.new) (eq_by_cmp slot_cmp slot) number false }
    {
        match slot {
            Slot::Object => self.object.take(number),
            Slot::Shape => self.shape.take(number),
            Slot::Mapping => self.mapping.take(number),
            Slot::Implicit => self.implicit.take(number),
            Slot::Members => self.members.take(number),
            Slot::Uses => self.uses.take(number),
            Slot::Elements => self.elements.take(number),
        }
    }

    /// The least number above `after` at a slot.
    pub fn least_after(&self, slot: Slot, after: u64) -> Option<u64>
        ensures { IsLeastAfter (slot_marked self.now slot) after result }
    {
        match slot {
            Slot::Object => self.object.least_after(after),
            Slot::Shape => self.shape.least_after(after),
            Slot::Mapping => self.mapping.least_after(after),
            Slot::Implicit => self.implicit.least_after(after),
            Slot::Members => self.members.least_after(after),
            Slot::Uses => self.uses.least_after(after),
            Slot::Elements => self.elements.least_after(after),
        }
    }

    /// Those above `after` at a slot join the numbers that wait.
    pub fn join_after(&self, slot: Slot, after: u64, waiting: &mut Numbers) -> Result<(), NoMemory>
        ensures { OnOk result (JoinedAfter waiting.old waiting.new (slot_marked self.now slot) after) }
    {
        match slot {
            Slot::Object => self.object.join_after(after, waiting),
            Slot::Shape => self.shape.join_after(after, waiting),
            Slot::Mapping => self.mapping.join_after(after, waiting),
            Slot::Implicit => self.implicit.join_after(after, waiting),
            Slot::Members => self.members.join_after(after, waiting),
            Slot::Uses => self.uses.join_after(after, waiting),
            Slot::Elements => self.elements.join_after(after, waiting),
        }
    }
}

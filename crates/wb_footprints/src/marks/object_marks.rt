//! Which numbers stand at which parts of which objects.

ghost use Rattle.std.specs.Prelude.{◌≡◌, ℕ, ◌&&◌, false, true, List, IsTrue, Some, OnOk, OnErr};
ghost use Rattle.std.specs.BTreeMap.{get, Updates};
ghost use Rattle.std.specs.Cmp.Lexicographic.{slice_cmp};
ghost use Rattle.std.specs.Ordering.{nat_cmp};
ghost use Rattle.std.specs.List.{list_any};
ghost use Rattle.wb_footprints.specs.Relation.{Sets, Clears, IsLeastAfter, JoinedAfter};
ghost use Rattle.wb_cells.specs.declared.values.index.Index.{Index};
ghost use Rattle.wb_footprints.specs.Parts.{ObjectPart, part_at};
ghost use Rattle.wb_footprints.specs.ObjectParts.{object_marked, is_same_object_part, in_object_parts};

use crate::marks::blocks::NewBlock;
use crate::marks::name_marks::NameMarks;
use crate::marks::numbers::Numbers;
use crate::places::indices::Indices;
use crate::places::part::Part;
use std::alloc::Global;
use std::collections::BTreeMap;
use wb_cells::{Name, RowKind};
use wb_range::NoMemory;

/// Numbers at the parts of the objects of all names.
#[derive(Drop)]
pub struct ObjectMarks {
    alloc: Global,
    names: BTreeMap<Name, NameMarks>,
}

impl ObjectMarks {
    /// No marks.
    pub fn new(alloc: Global) -> ObjectMarks
        ensures { (s : ObjectPart) (n : ℕ) → object_marked result s n ≡ false }
    {
        ObjectMarks {
            alloc,
            names: BTreeMap::new(alloc),
        }
    }

    /// Adds a number at a part of the object of a name.
    pub fn add(&mut self, name: Name, part: &Part, number: u64) -> Result<(), NoMemory>
        ensures ok { OnOk result (Sets (object_marked self.old) (object_marked self.new) (is_same_object_part (name, part.now)) number true) }
        ensures err { OnErr result ((s : ObjectPart) (n : ℕ) → object_marked self.new s n ≡ object_marked self.old s n) }
    {
        if let Some(marks) = self.names.get_mut(&name) {
            return marks.add(part, number);
        }
        let mut marks = NameMarks::new(self.alloc);
        marks.add(part, number)?;
        self.put(name, marks)
    }

    /// Adds a number at many indices of the object of a name, and says whether it did.
    pub fn add_block(&mut self, name: Name, kind: RowKind, block: NewBlock) -> bool
        ensures { Sets (object_marked self.old) (object_marked self.new) (λ s. result && in_object_parts name kind block.indices s) block.number true }
    {
        if let Some(marks) = self.names.get_mut(&name) {
            return marks.add_block(kind, block);
        }
        let mut marks = NameMarks::new(self.alloc);
        if !marks.add_block(kind, block) {
            return false;
        }
        match self.put(name, marks) {
            Ok(()) => true,
            Err(_) => false,
        }
    }

    // Puts the marks of a name.
    fn put(&mut self, name: Name, marks: NameMarks) -> Result<(), NoMemory>
        ensures ok { OnOk result (Updates (slice_cmp nat_cmp) self.old.names self.new.names name (Some marks)) }
        ensures err { OnErr result ((d : List ℕ) → get (slice_cmp nat_cmp) self.new.names d ≡ get (slice_cmp nat_cmp) self.old.names d) }
    {
        match self.names.insert(name, marks) {
            Ok(_) => Ok(()),
            Err(_) => Err(NoMemory),
        }
    }

    /// Takes a number away from a part of the object of a name, and from others of it where it stands in a block.
    pub fn take(&mut self, name: Name, part: &Part, number: u64)
        ensures { Clears (object_marked self.old) (object_marked self.new) (is_same_object_part (name, part.now)) number }
    {
        if let Some(marks) = self.names.get_mut(&name) {
            marks.take(part, number);
        }
    }

    /// Whether the number is seen to stand at no index of the kind, of the object of a name.
    pub fn is_clear(&self, name: Name, kind: RowKind, number: u64) -> bool
        ensures { IsTrue result → (p : Index) → object_marked self.now (name, part_at kind p) number ≡ false }
    {
        match self.names.get(&name) {
            Some(marks) => marks.is_clear(kind, number),
            None => true,
        }
    }

    /// The least number above `after` at one of several indices of the kind, of the object of a name.
    pub fn least_in(&self, name: Name, kind: RowKind, indices: &Indices, after: u64) -> Option<u64>
        ensures { IsLeastAfter (λ n. list_any (λ p. object_marked self.now (name, part_at kind p) n) indices.now) after result }
    {
        match self.names.get(&name) {
            Some(marks) => marks.least_in(kind, indices, after),
            None => None,
        }
    }

    /// The least number above `after` at a part of the object of a name.
    pub fn least_after(&self, name: Name, part: &Part, after: u64) -> Option<u64>
        ensures { IsLeastAfter (object_marked self.now (name, part.now)) after result }
    {
        match self.names.get(&name) {
            Some(marks) => marks.least_after(part, after),
            None => None,
        }
    }

    /// Those above `after` at one of several indices of the kind, of the object of a name, join the numbers that wait.
    pub fn join_in(
        &self,
        name: Name,
        kind: RowKind,
        indices: &Indices,
        after: u64,
        waiting: &mut Numbers,
    ) -> Result<(), NoMemory>
        ensures { OnOk result (JoinedAfter waiting.old waiting.new
            (λ n. list_any (λ p. object_marked self.now (name, part_at kind p) n) indices.now) after) }
    {
        match self.names.get(&name) {
            Some(marks) => marks.join_in(kind, indices, after, waiting),
            None => Ok(()),
        }
    }

    /// Those above `after` at a part of the object of a name join the numbers that wait.
    pub fn join_after(
        &self,
        name: Name,
        part: &Part,
        after: u64,
        waiting: &mut Numbers,
    ) -> Result<(), NoMemory>
        ensures { OnOk result (JoinedAfter waiting.old waiting.new (object_marked self.now (name, part.now)) after) }
    {
        match self.names.get(&name) {
            Some(marks) => marks.join_after(part, after, waiting),
            None => Ok(()),
        }
    }
}

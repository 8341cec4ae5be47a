//! What an edit read: while it is planned, and as it is kept.

ghost use Rattle.std.specs.Prelude.{◌≡◌, List, [], ◌∷◌, ◌++◌, map, IfOk, OnOk, OnErr};
ghost use Rattle.wb_cells.specs.Runs.{cell_of};
ghost use Rattle.wb_cells.specs.Shapes.{indices};
ghost use Rattle.wb_cells.specs.Reads.{one_of};
ghost use Rattle.wb_cells.specs.Reads.{all_read};

use smallvec::SmallVec;
use std::alloc::Global;
use std::marker::Model;
use wb_cells::reads::{ReadRun, put, put_rectangle};
use wb_cells::{AnyRect, IndexedRow, Pattern};
use wb_range::NoMemory;

/// So many patterns stand as they are, and take no memory while an edit is planned; those behind them go into runs.
const MOST: usize = 8;

/// The footprint of an edit that is being planned: what it has read so far, in order. Contracts see the list of its patterns.
///
/// It stays within this crate: a small vector can be written to as a stream, and a public type that holds one would pass the
/// modules of files and sockets on to every crate above.
#[derive(Drop)]
pub(crate) struct FootprintBuilder {
    alloc: Global,
    first: SmallVec<Pattern, MOST>,
    rest: Vec<ReadRun>,
}

impl Model for FootprintBuilder {
    ghost use Rattle.std.specs.Prelude.{List, ◌++◌};
    ghost use Rattle.wb_cells.specs.declared.cells.pattern.Pattern.{Pattern};
    ghost use Rattle.wb_cells.specs.Reads.{all_read};

    ghost Value = { List Pattern };

    ghost view = { λ a. a.first.items ++ all_read a.rest.items };
}

impl FootprintBuilder {
    /// Nothing read yet.
    pub(crate) fn new(alloc: Global) -> FootprintBuilder
        ensures { result ≡ [] }
    {
        FootprintBuilder {
            alloc,
            first: SmallVec::new(alloc),
            rest: Vec::new(alloc),
        }
    }

    /// Keeps that a pattern was read, after the others; `NoMemory` where none is left, and then nothing is kept.
    pub(crate) fn keep(&mut self, pattern: Pattern) -> Result<(), NoMemory>
        ensures ok { OnOk result (self.new ≡ self.old ++ pattern ∷ []) }
        ensures err { OnErr result (self.new ≡ self.old) }
    {
        if self.rest.is_empty() && self.first.len() < MOST {
            return Ok(self.first.push(pattern)?);
        }
        put(self.alloc, &mut self.rest, &pattern)
    }

    /// Keeps that the cells of a row at every index of a rectangle were read, after the other patterns; `NoMemory` where none
    /// is left, and then nothing is kept. However many there are, they take the room of their ranges.
    pub(crate) fn keep_rectangle(
        &mut self,
        row: &IndexedRow,
        ranges: &AnyRect,
    ) -> Result<(), NoMemory>
        ensures ok { OnOk result (self.new ≡ self.old ++ map one_of (map (cell_of row.now) (indices ranges.now))) }
        ensures err { OnErr result (self.new ≡ self.old) }
    {
        put_rectangle(self.alloc, &mut self.rest, row, ranges)
    }

    /// The footprint, in no more room than it takes; `NoMemory` where that is not to be had.
    pub(crate) fn build(self) -> Result<ReadFootprint, NoMemory>
        ensures { IfOk result (λ read. read ≡ self) }
    {
        let FootprintBuilder {
            alloc: _,
            first,
            rest,
        } = self;
        match first.into_vec() {
            Ok(first) => Ok(ReadFootprint { first, rest }),
            Err(_) => Err(NoMemory),
        }
    }
}

/// The footprint of an edit: what it read, in order. Contracts see the list of its patterns.
pub struct ReadFootprint {
    first: Vec<Pattern>,
    rest: Vec<ReadRun>,
}

// In a function of its own, so that a crate above need not prove anew how each field is let go.
impl Drop for ReadFootprint {
    fn drop(self) {
        let ReadFootprint { first: _, rest: _ } = self;
    }
}

impl Model for ReadFootprint {
    ghost use Rattle.std.specs.Prelude.{List, ◌++◌};
    ghost use Rattle.wb_cells.specs.declared.cells.pattern.Pattern.{Pattern};
    ghost use Rattle.wb_cells.specs.Reads.{all_read};

    ghost Value = { List Pattern };

    ghost view = { λ a. a.first.items ++ all_read a.rest.items };
}

impl ReadFootprint {
    /// The patterns that were read first, and the runs of those behind them, in order.
    pub fn parts(&self) -> (&[Pattern], &[ReadRun])
        ensures { self.now ≡ result.0.now ++ all_read result.1.now }
    {
        (self.first.as_slice(), self.rest.as_slice())
    }
}

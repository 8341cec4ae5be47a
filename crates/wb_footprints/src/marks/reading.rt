//! Marks for the patterns that an edit read.

ghost use Rattle.std.specs.Prelude.{[], ◌∷◌, ◌++◌, true, OnOk, OnErr};
ghost use Rattle.wb_cells.specs.Reads.{all_read, read_in, patterns_of};
ghost use Rattle.wb_footprints.specs.Relation.{Sets, Stays, Clears};
ghost use Rattle.wb_footprints.specs.Places.{place_marked};
ghost use Rattle.wb_footprints.specs.Footprints.{read_at};

use crate::marks::cell_lists::{mark_all, unmark_all};
use crate::marks::place_marks::PlaceMarks;
use crate::places::marking::Marking;
use crate::places::place::place_of;
use wb_cells::{Changes, Pattern, ReadRun};
use wb_range::NoMemory;

pub(crate) fn read_each(
    marks: &mut PlaceMarks,
    reads: &[Pattern],
    number: u64,
) -> Result<(), NoMemory>
    ensures ok { OnOk result (Sets (place_marked marks.old) (place_marked marks.new) (read_at reads.now) number true) }
    ensures err { OnErr result (Stays (place_marked marks.old) (place_marked marks.new) (read_at reads.now) number) }
{
    for x in reads {
        marks.add(&place_of(x), number)?;
    }
    Ok(())
}

// Marks one pattern.
fn read_one(marks: &mut PlaceMarks, pattern: &Pattern, number: u64) -> Result<(), NoMemory>
    ensures ok { OnOk result (Sets (place_marked marks.old) (place_marked marks.new) (read_at (pattern.now ∷ [])) number true) }
    ensures err { OnErr result (Stays (place_marked marks.old) (place_marked marks.new) (read_at (pattern.now ∷ [])) number) }
{
    marks.add(&place_of(pattern), number)
}

// Marks the patterns of cells.
fn read_cells(marks: &mut PlaceMarks, cells: &Changes, number: u64) -> Result<(), NoMemory>
    ensures ok { OnOk result (Sets (place_marked marks.old) (place_marked marks.new) (read_at (patterns_of cells.now)) number true) }
    ensures err { OnErr result (Stays (place_marked marks.old) (place_marked marks.new) (read_at (patterns_of cells.now)) number) }
{
    mark_all(marks, Marking::Own, cells, number)
}

// Marks the patterns of a run.
fn read_run(marks: &mut PlaceMarks, run: &ReadRun, number: u64) -> Result<(), NoMemory>
    ensures ok { OnOk result (Sets (place_marked marks.old) (place_marked marks.new) (read_at (read_in run.now)) number true) }
    ensures err { OnErr result (Stays (place_marked marks.old) (place_marked marks.new) (read_at (read_in run.now)) number) }
{
    match run {
        ReadRun::Single(pattern) => read_one(marks, pattern, number),
        ReadRun::Cells(cells) => read_cells(marks, cells, number),
    }
}

fn read_runs(marks: &mut PlaceMarks, runs: &[ReadRun], number: u64) -> Result<(), NoMemory>
    ensures ok { OnOk result (Sets (place_marked marks.old) (place_marked marks.new) (read_at (all_read runs.now)) number true) }
    ensures err { OnErr result (Stays (place_marked marks.old) (place_marked marks.new) (read_at (all_read runs.now)) number) }
{
    for run in runs {
        read_run(marks, run, number)?;
    }
    Ok(())
}

pub(crate) fn mark_reads(
    marks: &mut PlaceMarks,
    reads: &[Pattern],
    runs: &[ReadRun],
    number: u64,
) -> Result<(), NoMemory>
    ensures ok { OnOk result (Sets (place_marked marks.old) (place_marked marks.new) (read_at (reads.now ++ all_read runs.now)) number true) }
    ensures err { OnErr result (Stays (place_marked marks.old) (place_marked marks.new) (read_at (reads.now ++ all_read runs.now)) number) }
{
    read_each(marks, reads, number)?;
    read_runs(marks, runs, number)
}

pub(crate) fn unread_each(marks: &mut PlaceMarks, reads: &[Pattern], number: u64)
    ensures { Clears (place_marked marks.old) (place_marked marks.new) (read_at reads.now) number }
{
    for x in reads {
        marks.take(&place_of(x), number);
    }
}

// Takes a number away from one pattern.
fn unread_one(marks: &mut PlaceMarks, pattern: &Pattern, number: u64)
    ensures { Clears (place_marked marks.old) (place_marked marks.new) (read_at (pattern.now ∷ [])) number }
{
    marks.take(&place_of(pattern), number);
}

// Takes a number away from the patterns of cells.
fn unread_cells(marks: &mut PlaceMarks, cells: &Changes, number: u64)
    ensures { Clears (place_marked marks.old) (place_marked marks.new) (read_at (patterns_of cells.now)) number }
{
    unmark_all(marks, Marking::Own, cells, number);
}

// Takes a number away from the patterns of a run.
fn unread_run(marks: &mut PlaceMarks, run: &ReadRun, number: u64)
    ensures { Clears (place_marked marks.old) (place_marked marks.new) (read_at (read_in run.now)) number }
{
    match run {
        ReadRun::Single(pattern) => unread_one(marks, pattern, number),
        ReadRun::Cells(cells) => unread_cells(marks, cells, number),
    }
}

fn unread_runs(marks: &mut PlaceMarks, runs: &[ReadRun], number: u64)
    ensures { Clears (place_marked marks.old) (place_marked marks.new) (read_at (all_read runs.now)) number }
{
    for run in runs {
        unread_run(marks, run, number);
    }
}

pub(crate) fn unmark_reads(marks: &mut PlaceMarks, reads: &[Pattern], runs: &[ReadRun], number: u64)
    ensures { Clears (place_marked marks.old) (place_marked marks.new) (read_at (reads.now ++ all_read runs.now)) number }
{
    unread_each(marks, reads, number);
    unread_runs(marks, runs, number);
}

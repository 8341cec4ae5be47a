//! The index of footprints: where an element is set and a copy of it goes to another, and where runs at many labels meet.

use std::alloc::Global;
use std::process::Abort;
use std::test::Fail;
use wb_cells::{AnyCell, AnyIndex, Cell, CellChange, Changes, Index, Name, Pattern, Point};
use wb_footprints::FootIndex;
use wb_sets::Label;

fn element(array: Name, i: i64) -> Cell {
    Cell::Element(array, AnyIndex::new(Index::Point(Point::single(i))))
}

// The change that makes a cell absent.
fn cleared(cell: Cell) -> CellChange {
    CellChange::new(cell, None)
}

fn read(cell: Cell) -> Pattern {
    Pattern::One(AnyCell::new(cell))
}

// Adds a footprint. Where a growth is refused, none of its marks is there, and it is added again.
fn add(
    rt: &impl Abort,
    index: &mut FootIndex,
    number: u64,
    reads: &[Pattern],
    before: &Changes,
) -> Result<(), Fail> {
    if index.add(number, reads, &[], before).is_ok() {
        return Ok(());
    }
    let blocker = index.first_to_block_undo(before, number.saturating_sub(1));
    assert!(rt; blocker.is_none());
    index.add(number, reads, &[], before)?;
    Ok(())
}

#[test]
fn footprint_index_of_a_copy(rt: HostRuntime) -> Result<(), Fail> {
    let array = Name::new("A")?;
    let set = Changes::one(cleared(element(array, 1)));
    let copied = Changes::one(cleared(element(array, 2)));
    let reads_of_set = [read(Cell::Object(array)), read(element(array, 1))];
    let reads_of_copy = [
        read(Cell::Object(array)),
        read(element(array, 2)),
        read(element(array, 1)),
    ];
    let mut index = FootIndex::new(rt.alloc());
    add(&rt, &mut index, 3, &reads_of_set, &set)?;
    add(&rt, &mut index, 4, &reads_of_copy, &copied)?;
    let elements = [Pattern::Elements(array)];
    assert!(rt; index.first_to_block_undo(&set, 2) == Some(3));
    assert!(rt; index.first_to_block_undo(&set, 3) == Some(4));
    assert!(rt; index.blockers(rt.alloc(), &set, 3)?.as_slice() == [4].as_slice());
    assert!(rt; index.first_writer(&elements, &[], 3) == Some(4));
    assert!(rt; index.first_to_block_redo(&elements, &[], &Changes::new(), 3) == Some(4));
    index.take(4, &reads_of_copy, &[], &copied);
    assert!(rt; index.first_to_block_undo(&set, 3).is_none());
    assert!(rt; index.first_writer(&elements, &[], 3).is_none());
    assert!(rt;
        index
            .first_to_block_redo(&elements, &[], &Changes::new(), 3)
            .is_none()
    );
    Ok(())
}

// The element of an array at a label: one of a thousand with one beginning, in order.
fn at_label(alloc: Global, array: Name, i: u64) -> Result<Cell, Fail> {
    let text = format!(in alloc; "one beginning {i:03}")?;
    let label = Label::new(text.as_str())?;
    Ok(Cell::Element(array, AnyIndex::new(Index::Text(label))))
}

// Changes of the elements at the labels from one up to another.
fn at_labels(alloc: Global, array: Name, from: u64, to: u64) -> Result<Changes, Fail> {
    let mut changes = Changes::new();
    for i in from..to {
        changes.push(alloc, cleared(at_label(alloc, array, i)?))?;
    }
    Ok(changes)
}

// Those of the elements at the labels below one, from the last down.
fn down_labels(alloc: Global, array: Name, to: u64) -> Result<Changes, Fail> {
    let mut changes = Changes::new();
    for i in 0..to {
        changes.push(alloc, cleared(at_label(alloc, array, to - 1 - i)?))?;
    }
    Ok(changes)
}

#[test]
fn footprint_index_of_many_labels(rt: HostRuntime) -> Result<(), Fail> {
    let array = Name::new("A")?;
    let low = at_labels(rt.alloc(), array, 0, 100)?;
    let middle = at_labels(rt.alloc(), array, 50, 150)?;
    let last_of_low = at_labels(rt.alloc(), array, 99, 199)?;
    let above = at_labels(rt.alloc(), array, 200, 300)?;
    let one = Changes::one(cleared(at_label(rt.alloc(), array, 120)?));
    let mut index = FootIndex::new(rt.alloc());
    add(&rt, &mut index, 3, &[], &low)?;
    add(&rt, &mut index, 4, &[], &low)?;
    add(&rt, &mut index, 5, &[], &middle)?;
    add(&rt, &mut index, 6, &[], &above)?;
    assert!(rt; index.first_to_block_undo(&low, 2) == Some(3));
    assert!(rt; index.first_to_block_undo(&low, 3) == Some(4));
    assert!(rt; index.first_to_block_undo(&low, 4) == Some(5));
    assert!(rt; index.first_to_block_undo(&low, 5).is_none());
    assert!(rt; index.first_to_block_undo(&above, 2) == Some(6));
    assert!(rt; index.first_to_block_undo(&one, 2) == Some(5));
    assert!(rt; index.blockers(rt.alloc(), &low, 2)?.as_slice() == [3, 4, 5].as_slice());
    assert!(rt; index.blockers(rt.alloc(), &last_of_low, 2)?.as_slice() == [3, 4, 5].as_slice());
    assert!(rt; index.blockers(rt.alloc(), &above, 2)?.as_slice() == [6].as_slice());
    index.take(5, &[], &[], &middle);
    assert!(rt; index.first_to_block_undo(&low, 4).is_none());
    assert!(rt; index.first_to_block_undo(&one, 2).is_none());
    Ok(())
}

#[test]
fn footprint_index_of_labels_in_another_order(rt: HostRuntime) -> Result<(), Fail> {
    let array = Name::new("A")?;
    let up = at_labels(rt.alloc(), array, 0, 100)?;
    let down = down_labels(rt.alloc(), array, 100)?;
    let one = Changes::one(cleared(at_label(rt.alloc(), array, 99)?));
    let mut index = FootIndex::new(rt.alloc());
    add(&rt, &mut index, 3, &[], &down)?;
    add(&rt, &mut index, 4, &[], &one)?;
    add(&rt, &mut index, 5, &[], &up)?;
    assert!(rt; index.blockers(rt.alloc(), &up, 2)?.as_slice() == [3, 4, 5].as_slice());
    assert!(rt; index.blockers(rt.alloc(), &one, 2)?.as_slice() == [3, 4, 5].as_slice());
    index.take(3, &[], &[], &down);
    assert!(rt; index.first_to_block_undo(&up, 2) == Some(4));
    index.take(4, &[], &[], &one);
    assert!(rt; index.first_to_block_undo(&one, 2) == Some(5));
    Ok(())
}

//! Changes at the indices of a rectangle, one after another.

ghost use Rattle.std.specs.Prelude.{◌≡◌, ◌<◌, ◌++◌, ℤ, List, Option, length, get_or, OnOk};
ghost use Rattle.std.specs.List.{list_all};
ghost use Rattle.wb_cells.specs.declared.values.index.Index.TheVariants.{Point as point_index};
ghost use Rattle.wb_elements.specs.Entries.{element_at, sets_one, with_one, with_all};
ghost use Rattle.wb_elements.specs.Piecewise.Marked.{as_changes};

use crate::block::ChangeBlock;
use crate::elements::Elements;
use std::alloc::Global;
use wb_cells::AnyIndex;
use wb_range::NoMemory;

/// Whether each change sets an element that is there.
pub fn is_block_there<B: ChangeBlock>(elements: &Elements, block: &B) -> bool
    ensures { result ≡ list_all (sets_one point_index (element_at elements.now.0)) (B.entries block.now) }
{
    let ranges = block.over();
    if block.is_whole() {
        if elements.has_ranges(&ranges) {
            return true;
        }
    }
    is_each_there(elements, block)
}

// Whether each change sets an element that is there, by a look at each element.
fn is_each_there<B: ChangeBlock>(elements: &Elements, block: &B) -> bool
    ensures { result ≡ list_all (sets_one point_index (element_at elements.now.0)) (B.entries block.now) }
{
    let mut near = 0;
    for at in 0..block.many() {
        let (sets, place) = sets_entry(elements, block, at, near);
        if !sets {
            return false;
        }
        near = place;
    }
    true
}

// Whether the change at a place sets an element that is there, and the place to pass for the change after it.
fn sets_entry<B: ChangeBlock>(
    elements: &Elements,
    block: &B,
    at: usize,
    near: usize,
) -> (bool, usize)
    requires { at < length (B.entries block.now) }
    ensures { (e : List ℤ × Option ℤ) → e ≡ get_or (B.entries block.now) at e → result.0 ≡ sets_one point_index (element_at elements.now.0) e }
{
    let (index, number) = block.entry(at);
    let (found, place) = elements.get_from(&index, near);
    (number.is_some() && found.is_some(), place)
}

/// Replaces the elements that are there and that the changes set.
pub fn write_block<B: ChangeBlock>(elements: &mut Elements, block: &B)
    ensures elements { elements.new.0 ≡ with_all point_index elements.old.0 (B.entries block.now) }
    ensures mapping { elements.new.1 ≡ elements.old.1 }
{
    let ranges = block.over();
    if block.is_whole() {
        if elements.has_ranges(&ranges) {
            if block.write(elements) {
                return;
            }
        }
    }
    write_each(elements, block);
}

// Replaces the elements that are there and that the changes set, one after another.
fn write_each<B: ChangeBlock>(elements: &mut Elements, block: &B)
    ensures elements { elements.new.0 ≡ with_all point_index elements.old.0 (B.entries block.now) }
    ensures mapping { elements.new.1 ≡ elements.old.1 }
{
    let mut near = 0;
    for at in 0..block.many() {
        near = write_entry(elements, block, at, near);
    }
}

// Makes the change at a place, if its element is there and a number is given, and gives the place to pass for the change
// after it.
fn write_entry<B: ChangeBlock>(elements: &mut Elements, block: &B, at: usize, near: usize) -> usize
    requires { at < length (B.entries block.now) }
    ensures elements { (e : List ℤ × Option ℤ) → e ≡ get_or (B.entries block.now) at e →
        elements.new.0 ≡ with_one elements.old.0 (point_index e.0) e.1 }
    ensures mapping { elements.new.1 ≡ elements.old.1 }
{
    let (index, number) = block.entry(at);
    match number {
        Some(number) => elements.set_near(&index, number, near),
        None => near,
    }
}

/// Adds the changes to a list, each by its index.
pub fn list_block<B: ChangeBlock>(
    list: &mut Vec<(AnyIndex, Option<i64>)>,
    block: &B,
) -> Result<(), NoMemory>
    ensures { OnOk result (list.new.items ≡ list.old.items ++ as_changes point_index (B.entries block.now)) }
{
    for at in 0..block.many() {
        list.push(block.entry(at))?;
    }
    Ok(())
}

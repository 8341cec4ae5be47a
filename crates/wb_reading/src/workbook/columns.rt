//! The elements of one array.

ghost use Rattle.std.specs.BTreeMap.{is_at};
ghost use Rattle.std.specs.Prelude.{◌≡◌, true, length, map, IfOk, IfSome};
ghost use Rattle.std.specs.List.{list_all, zip, AllByRecursion};
ghost use Rattle.std.specs.Map.{lookup};
ghost use Rattle.wb_cells.specs.declared.values.index.Index.{Index as any_index};
ghost use Rattle.wb_cells.specs.Cells.{index_cmp};
ghost use Rattle.wb_cells.specs.Shapes.{indices};
ghost use Rattle.wb_book.specs.Piecewise.Changed.{all_set};
ghost use Rattle.wb_text.specs.FromLines.Found.{Finds};
ghost use Rattle.wb_text.specs.FromLines.Inserted.{last_of};
ghost use Rattle.wb_text.specs.FromLines.Made.{IsMade};
ghost use Rattle.wb_text.specs.FromLines.Told.{is_sound};
ghost use Rattle.wb_reading.specs.Laid.{rectangle_lies, lies_told, IsColumn};
ghost use Rattle.wb_text.specs.Said.{first_line_of, line_of};

use std::alloc::Global;
use std::collections::BTreeMap;
use wb_cells::{AnyIndex, AnyLayout, AnyRect, IndexedRow, KeyType, Name, RectangleNumbers};
use wb_elements::Elements;
use wb_range::NoMemory;
use wb_text::{NumberList, ObjectLine, find, indices_of};

// The mapping of a rectangular domain, and its rank.
fn rectangle_lies(
    lines: &[ObjectLine],
    places: &BTreeMap<Name, usize>,
    name: &Name,
) -> (AnyLayout, u8)
    requires { Finds places.now (map line_of lines.now) (map line_of lines.now) }
    ensures { result ≡ rectangle_lies (first_line_of name.now (map line_of lines.now)) }
{
    match find(lines, places, name) {
        Some(ObjectLine::Rectangular(_, ranges, mapping)) => (*mapping, ranges.rank()),
        Some(ObjectLine::Sparse(_, _, _)) => (AnyLayout::whole(), 1),
        Some(ObjectLine::Associative(_, _, _)) => (AnyLayout::whole(), 1),
        Some(ObjectLine::Array(_, _, _, _)) => (AnyLayout::whole(), 1),
        None => (AnyLayout::whole(), 1),
    }
}

// How the arrays over a domain lie.
fn lies(lines: &[ObjectLine], places: &BTreeMap<Name, usize>, name: &Name) -> (AnyLayout, u8)
    requires { Finds places.now (map line_of lines.now) (map line_of lines.now) }
    ensures { result ≡ lies_told (map line_of lines.now) (first_line_of name.now (map line_of lines.now)) }
{
    match find(lines, places, name) {
        Some(ObjectLine::Rectangular(_, ranges, mapping)) => (*mapping, ranges.rank()),
        Some(ObjectLine::Sparse(_, parent, _)) => rectangle_lies(lines, places, parent),
        Some(ObjectLine::Associative(_, KeyType::Int, _)) => (AnyLayout::whole(), 1),
        Some(ObjectLine::Associative(_, KeyType::Text, _)) => (AnyLayout::whole(), 0),
        Some(ObjectLine::Array(_, _, _, _)) => (AnyLayout::whole(), 1),
        None => (AnyLayout::whole(), 1),
    }
}

// The changes that set the numbers at the indices.
fn changes_of(
    alloc: Global,
    indices: &[AnyIndex],
    numbers: &[i64],
) -> Result<Vec<(AnyIndex, Option<i64>)>, NoMemory>
    ensures { IfOk result (λ v. v.items ≡ all_set (zip indices.now numbers.now)) }
{
    let changes = indices
        .iter()
        .zip(numbers.iter())
        .map(|x| (*x.0, Some(*x.1)))
        .collect(alloc)?;
    Ok(changes)
}

// The elements that have these numbers at the indices of a rectangle, in its order, by a mapping; `None` where that can't be done
// in a short way.
fn numbered(
    alloc: Global,
    array: &Name,
    ranges: &AnyRect,
    mapping: &AnyLayout,
    numbers: &NumberList,
) -> Result<Option<Elements>, NoMemory>
    ensures elements { IfOk result (λ o. IfSome o (λ e. (i : any_index) →
        lookup (is_at (index_cmp i)) e.0 ≡ last_of index_cmp (zip (indices ranges.now) numbers.now) i)) }
    ensures lies { IfOk result (λ o. IfSome o (λ e. e.1 ≡ (mapping.now, length ranges.now))) }
{
    let listed = numbers.list(alloc)?;
    let block = RectangleNumbers::new(IndexedRow::Elements(*array), *ranges, listed);
    match Elements::of_block(alloc, &block, mapping, ranges.rank()) {
        Ok(Some(made)) => {
            // For the proof: the elements ascend.
            let _ascending = made.len();
            Ok(Some(made))
        }
        Ok(None) => Ok(None),
        Err(why) => Err(why),
    }
}

// The array over the rectangular domain of a name that has these elements, without a list of the indices; `None` over another
// domain, and where that can't be done.
fn rectangle_column(
    alloc: Global,
    lines: &[ObjectLine],
    places: &BTreeMap<Name, usize>,
    domain: &Name,
    numbers: &NumberList,
) -> Result<Option<Elements>, NoMemory>
    requires { Finds places.now (map line_of lines.now) (map line_of lines.now) }
    ensures { IfOk result (λ o. IfSome o (λ e. IsColumn (map line_of lines.now) domain.now numbers.now e)) }
{
    match find(lines, places, domain) {
        Some(ObjectLine::Rectangular(name, ranges, mapping)) => {
            numbered(alloc, name, ranges, mapping, numbers)
        }
        Some(ObjectLine::Sparse(_, _, _)) => Ok(None),
        Some(ObjectLine::Associative(_, _, _)) => Ok(None),
        Some(ObjectLine::Array(_, _, _, _)) => Ok(None),
        None => Ok(None),
    }
}

// The array over the domain of a name that has these elements, each set at its index.
fn listed_column(
    alloc: Global,
    lines: &[ObjectLine],
    places: &BTreeMap<Name, usize>,
    domain: &Name,
    numbers: &NumberList,
) -> Result<Elements, NoMemory>
    requires finds { Finds places.now (map line_of lines.now) (map line_of lines.now) }
    requires sound { list_all (is_sound (map line_of lines.now)) (map line_of lines.now) ≡ true }
    requires are_made { AllByRecursion IsMade (map line_of lines.now) }
    ensures { IfOk result (λ e. IsColumn (map line_of lines.now) domain.now numbers.now e) }
{
    let Ok(indices) = indices_of(alloc, lines, places, domain) else {
        return Err(NoMemory);
    };
    let listed = numbers.list(alloc)?;
    let changes = changes_of(alloc, &indices, &listed)?;
    let (layout, rank) = lies(lines, places, domain);
    let none: Vec<(AnyIndex, i64)> = Vec::new(alloc);
    Elements::made(alloc, none.as_slice(), changes.as_slice(), &layout, rank)
}

/// The array over the domain of a name that has these elements, in the order of the domain's indices. Over a rectangular domain
/// no index is listed.
pub(crate) fn column(
    alloc: Global,
    lines: &[ObjectLine],
    places: &BTreeMap<Name, usize>,
    domain: &Name,
    numbers: &NumberList,
) -> Result<Elements, NoMemory>
    requires finds { Finds places.now (map line_of lines.now) (map line_of lines.now) }
    requires sound { list_all (is_sound (map line_of lines.now)) (map line_of lines.now) ≡ true }
    requires are_made { AllByRecursion IsMade (map line_of lines.now) }
    ensures { IfOk result (λ e. IsColumn (map line_of lines.now) domain.now numbers.now e) }
{
    match rectangle_column(alloc, lines, places, domain, numbers) {
        Ok(Some(made)) => Ok(made),
        Ok(None) => listed_column(alloc, lines, places, domain, numbers),
        Err(why) => Err(why),
    }
}

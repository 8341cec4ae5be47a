//! Which edits have to be undone with one, found by one sweep over the index: from each that is found to those that need it,
//! all of them by one pass over its cells, in which a family, and most cells, that were asked for before are not asked for again.

ghost use Rattle.std.specs.Prelude.{◌<◌, ◌≤◌, ◌^◌, length, OnOk, IfOk};
ghost use Rattle.wb_footprints.specs.Footprints.{IsIndexOf};
ghost use Rattle.wb_footprints.specs.Swept.{AreSwept};
ghost use Rattle.wb_log.specs.Kept.{by_number};
ghost use Rattle.wb_log.specs.Needed.{AreFromFootprints, Joined};

use crate::entry::EditRecord;
use crate::lent::LentKept;
use std::alloc::Global;
use wb_footprints::{FootIndex, Numbers, SweptCells};
use wb_range::NoMemory;

/// The edits wait that need the one of a number.
fn wait_for_those(
    alloc: Global,
    index: &FootIndex,
    entries: &[EditRecord],
    number: u64,
    waiting: &mut Numbers,
    swept: &mut SweptCells,
) -> Result<(), NoMemory>
    requires positive { 0 < number }
    requires in_log { number ≤ length entries.now }
    requires indexed { IsIndexOf index.now (by_number entries.now) }
    requires swept { AreSwept index.now swept.old waiting.old number }
    ensures joined { OnOk result (Joined waiting.old waiting.new (by_number entries.now) number) }
    ensures swept { OnOk result (AreSwept index.now swept.new waiting.new number) }
{
    match entries[(number - 1) as usize].kept() {
        None => Ok(()),
        Some(LentKept::Listed(listed)) => {
            index.join_blockers(listed.before(), number, waiting, swept)
        }
        Some(LentKept::Filled(filled)) => match filled.changes(alloc) {
            Err(why) => Err(why),
            Ok(before) => index.join_blockers(&before, number, waiting, swept),
        },
    }
}

/// The numbers of the edits that have to be undone with the one of a number, from the greatest down.
pub(crate) fn needing(
    alloc: Global,
    index: &FootIndex,
    entries: &[EditRecord],
    number: u64,
) -> Result<Vec<u64>, NoMemory>
    requires positive { 0 < number }
    requires in_log { number ≤ length entries.now }
    requires few { length entries.now < 2 ^ 63 }
    requires indexed { IsIndexOf index.now (by_number entries.now) }
    ensures { IfOk result (λ v. AreFromFootprints (by_number entries.now) number v.items) }
{
    let mut waiting = Numbers::new(alloc);
    match waiting.add(number) {
        Ok(()) => {}
        Err(_) => return Err(NoMemory),
    }
    let mut swept = SweptCells::new(alloc);
    let mut found = Vec::new(alloc);
    let mut last = 0;
    while let Some(next) = waiting.take_least() {
        match found.push(next) {
            Ok(()) => {}
            Err(_) => return Err(NoMemory),
        }
        match wait_for_those(alloc, index, entries, next, &mut waiting, &mut swept) {
            Ok(()) => {}
            Err(_) => return Err(NoMemory),
        }
        last = next;
    }
    found.reverse();
    Ok(found)
}

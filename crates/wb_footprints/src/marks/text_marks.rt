//! Which numbers stand at which of several labels.

ghost use Rattle.std.specs.Prelude.{◌≡◌, ℕ, ◌<◌, ◌≤◌, false, Some, None, OnOk, length, slice_index_or, if◌then◌else◌};
ghost use Rattle.std.specs.List.{list_any};
ghost use Rattle.std.specs.Ordering.{eq_by_cmp};
ghost use Rattle.wb_footprints.specs.Marks.{marked};
ghost use Rattle.wb_footprints.specs.Relation.{IsLeastAfter, JoinedAfter};
ghost use Rattle.wb_footprints.specs.Texts.{Text, text_cmp};

use crate::marks::earlier::earlier;
use crate::marks::key_marks::Marks;
use crate::marks::numbers::Numbers;
use crate::places::labels::Labels;
use wb_range::NoMemory;
use wb_sets::Label;

/// The least number above `after` at one of several labels: from mark to mark, past the labels without one, and from label to
/// label, past the marks that stand at none.
pub(crate) fn least_text(marks: &Marks<Label>, labels: &Labels, after: u64) -> Option<u64>
    ensures { IsLeastAfter (λ n. list_any (λ t. marked text_cmp marks.now t n) labels.now) after result }
{
    let count = labels.len();
    let mut first = None;
    let mut at = 0;
    while at < count {
        let label = labels.label(at);
        match marks.first_behind(label, after) {
            None => return first,
            Some(mark) => {
                first = earlier(first, number_at(&mark, &label));
                at = labels.place_from(at + 1, &mark.0);
            }
        }
    }
    first
}

// The number of a mark, if it stands at a label.
fn number_at(mark: &(Label, u64), label: &Label) -> Option<u64>
    ensures { result ≡ (if eq_by_cmp text_cmp mark.now.0 label.now then Some mark.now.1 else None) }
{
    if mark.0 == *label { Some(mark.1) } else { None }
}

// The first place behind one at whose label a number above `after` may stand.
fn next_text(marks: &Marks<Label>, labels: &Labels, at: usize, after: u64) -> usize
    requires { at < length labels.now }
    ensures behind { at < result }
    ensures within { result ≤ length labels.now }
    ensures none { (i n : ℕ) (d : Text) → at < i → i < result → after < n → marked text_cmp marks.now (slice_index_or labels.now i d) n ≡ false }
{
    let count = labels.len();
    let label = labels.label(at);
    match marks.first_behind(label, after) {
        None => count,
        Some(mark) => labels.place_from(at + 1, &mark.0),
    }
}

/// Those above `after` at one of several labels join the numbers that wait: all at a label, and then those at the next that may
/// have any.
pub(crate) fn join_texts(
    marks: &Marks<Label>,
    labels: &Labels,
    after: u64,
    waiting: &mut Numbers,
) -> Result<(), NoMemory>
    ensures { OnOk result (JoinedAfter waiting.old waiting.new (λ n. list_any (λ t. marked text_cmp marks.now t n) labels.now) after) }
{
    let count = labels.len();
    let mut at = 0;
    while at < count {
        let label = labels.label(at);
        marks.join_after(label, after, waiting)?;
        at = next_text(marks, labels, at, after);
    }
    Ok(())
}

//! Labels in ascending order.

ghost use Rattle.std.specs.Prelude.{◌≡◌, ℕ, ◌+◌, ◌-◌, ◌<◌, ◌≤◌, Bool, [], ◌∷◌, true, false, Some, IsTrue, IfSome, length, slice_get, slice_index_or};
ghost use Rattle.std.specs.List.{list_any, AllByRecursion};
ghost use Rattle.std.specs.List.Sorted.{IsStrictlySortedBy};
ghost use Rattle.std.specs.declared.cmp.Ordering.TheVariants.{Less};
ghost use Rattle.wb_sets.specs.Labels.{IsLabel};
ghost use Rattle.wb_footprints.specs.Keys.{text_key};
ghost use Rattle.wb_footprints.specs.Texts.{Text, text_cmp, in_texts};

use crate::places::keys::text_key;
use crate::places::label_list::LabelList;
use std::alloc::Global;
use std::cmp::Ordering;
use std::marker::Model;
use wb_sets::Label;

/// How labels are kept.
#[derive(Drop)]
pub enum HeldLabels {
    /// In one list of bytes.
    Listed(LabelList),
    /// One label alone.
    One(Label),
}

/// Labels of which each is below the next. Contracts see the list of them.
#[derive(Drop)]
pub struct Labels {
    held: HeldLabels,
}

impl Model for Labels {
    ghost use Rattle.std.specs.Prelude.{List};
    ghost use Rattle.std.specs.List.Sorted.{IsStrictlySortedBy};
    ghost use Rattle.wb_footprints.specs.HeldLabels.{texts_of};
    ghost use Rattle.wb_footprints.specs.Texts.{Text, text_cmp};

    ghost Value = { List Text };

    ghost view = { λ a. texts_of a.held };

    ghost invariant = { λ a. IsStrictlySortedBy text_cmp (texts_of a.held) };
}

// How many one label is.
fn count_of(label: &Label) -> usize
    ensures value { result ≡ 1 }
    ensures label { IsLabel label.now }
{
    // For the proof: its bytes are those of a label.
    let _text = label.as_str();
    1
}

// Whether each label of a list is below the next.
fn is_ascending(list: &LabelList) -> bool
    ensures { IsTrue result → IsStrictlySortedBy text_cmp list.now }
{
    for at in 1..list.len() {
        let below = list.text(at - 1);
        let text = list.text(at);
        if !below.cmp(text).is_lt() {
            return false;
        }
    }
    true
}

// The labels of a list one by one, if there is memory for them.
fn one_by_one(alloc: Global, list: &LabelList) -> Option<Vec<Label>>
    ensures { IfSome result (λ labels. labels.items ≡ list.now) }
{
    let Ok(mut labels) = Vec::with_capacity(alloc, list.len()) else {
        return None;
    };
    for at in 0..list.len() {
        match labels.push(list.label(at)) {
            Ok(()) => {}
            Err(_) => return None,
        }
    }
    Some(labels)
}

// Labels in one list of bytes, if there is memory for it.
fn listed(alloc: Global, labels: &[Label]) -> Option<LabelList>
    ensures { IfSome result (λ list. list ≡ labels.now) }
{
    let mut list = LabelList::new(alloc);
    for label in labels {
        match list.push_label(label) {
            Ok(()) => {}
            Err(_) => return None,
        }
    }
    Some(list)
}

// These labels in ascending order, each once, if there is memory for them.
fn ordered(alloc: Global, labels: Vec<Label>) -> Option<Labels>
    ensures { IfSome result (λ ts. (f : Text → Bool) → list_any f ts ≡ list_any f labels.items) }
{
    let mut labels = labels;
    labels.sort_unstable();
    labels.dedup();
    let list = listed(alloc, labels.as_slice())?;
    Some(Labels {
        held: HeldLabels::Listed(list),
    })
}

impl Labels {
    /// These labels in ascending order, each once, if there is memory for them: a test that finds one of these finds one of
    /// those. Where they ascend already, it takes one pass.
    pub fn sorted(alloc: Global, list: LabelList) -> Option<Labels>
        ensures { IfSome result (λ ts. (f : Text → Bool) → list_any f ts ≡ list_any f list) }
    {
        if is_ascending(&list) {
            return Some(Labels {
                held: HeldLabels::Listed(list),
            });
        }
        ordered(alloc, one_by_one(alloc, &list)?)
    }

    /// One label.
    pub fn one(label: &Label) -> Labels
        ensures { result ≡ label.now ∷ [] }
    {
        Labels {
            held: HeldLabels::One(*label),
        }
    }

    /// The keys of the first label and of the last: those of all are between them.
    pub fn ends(&self) -> (u64, u64)
        requires { 0 < length self.now }
        ensures within { (t : Text) → in_texts self.now t ≡ true → (result.0 ≤ text_key t) × (text_key t ≤ result.1) }
        ensures order { result.0 ≤ result.1 }
        ensures first { 0 < result.0 }
    {
        let first = self.text(0);
        let last = self.text(self.len() - 1);
        (text_key(first), text_key(last))
    }

    /// How many labels there are.
    pub fn len(&self) -> usize
        ensures value { result ≡ length self.now }
        ensures ascending { IsStrictlySortedBy text_cmp self.now }
        ensures labels { AllByRecursion IsLabel self.now }
    {
        match &self.held {
            HeldLabels::Listed(list) => list.len(),
            HeldLabels::One(label) => count_of(label),
        }
    }

    /// The bytes of the label at a place.
    pub fn text(&self, at: usize) -> &[u8]
        requires { at < length self.now }
        ensures text { slice_get self.now at ≡ Some result.now }
        ensures label { IsLabel result.now }
    {
        match &self.held {
            HeldLabels::Listed(list) => list.text(at),
            HeldLabels::One(label) => label.as_str().as_bytes(),
        }
    }

    /// The label at a place.
    pub fn label(&self, at: usize) -> Label
        requires { at < length self.now }
        ensures { slice_get self.now at ≡ Some result }
    {
        match &self.held {
            HeldLabels::Listed(list) => list.label(at),
            HeldLabels::One(label) => *label,
        }
    }

    /// Whether one of the other labels is one of these: by one pass over both, up to the first.
    pub fn meets(&self, others: &Labels) -> bool
        ensures { result ≡ list_any (in_texts self.now) others.now }
    {
        let count = self.len();
        let other_count = others.len();
        let mut at = 0;
        let mut by = 0;
        while at < count {
            if by == other_count {
                return false;
            }
            let text = self.text(at);
            let other = others.text(by);
            match text.cmp(other) {
                Ordering::Equal => return true,
                Ordering::Less => at += 1,
                Ordering::Greater => by += 1,
            }
        }
        false
    }

    /// Whether they are seen to be the same labels.
    pub fn is_same(&self, others: &Labels) -> bool
        ensures { IsTrue result → self.now ≡ others.now }
    {
        match &self.held {
            HeldLabels::Listed(list) => others.is_list(list),
            HeldLabels::One(_) => false,
        }
    }

    // Whether they are seen to be the labels of a list.
    fn is_list(&self, list: &LabelList) -> bool
        ensures { IsTrue result → list.now ≡ self.now }
    {
        match &self.held {
            HeldLabels::Listed(own) => list.is_same(own),
            HeldLabels::One(_) => false,
        }
    }

    /// The first place, from another one on, whose label is not below a label: that one, or by a binary search.
    pub fn place_from(&self, from: usize, label: &Label) -> usize
        requires { from ≤ length self.now }
        ensures from { from ≤ result }
        ensures within { result ≤ length self.now }
        ensures below { (i : ℕ) (d : Text) → from ≤ i → i < result → text_cmp (slice_index_or self.now i d) label.now ≡ Less }
    {
        let text = label.as_str().as_bytes();
        let count = self.len();
        if from == count {
            return from;
        }
        if !self.text(from).cmp(text).is_lt() {
            return from;
        }
        let mut low = from;
        let mut high = count;
        while low < high {
            let half = self.half(low, high, text);
            low = half.0;
            high = half.1;
        }
        low
    }

    // The half of some places in which the search goes on for the first whose label is not below one.
    fn half(&self, low: usize, high: usize, text: &[u8]) -> (usize, usize)
        // The labels ascend, and the places are some of theirs.
        requires ascending { IsStrictlySortedBy text_cmp self.now }
        requires order { low < high }
        requires within { high ≤ length self.now }

        // The half lies within the places, and is shorter.
        ensures from { low ≤ result.0 }
        ensures order { result.0 ≤ result.1 }
        ensures within { result.1 ≤ high }
        ensures shorter { result.1 < high + (result.0 - low) }

        // The labels before it are below the one.
        ensures below { (i : ℕ) (d : Text) → low ≤ i → i < result.0 → text_cmp (slice_index_or self.now i d) text.now ≡ Less }
    {
        let middle = low + (high - low) / 2;
        if self.text(middle).cmp(text).is_lt() {
            return (middle + 1, high);
        }
        (low, middle)
    }
}

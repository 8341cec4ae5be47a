//! Labels in one list of bytes: each takes its bytes, and 8 more.

ghost use Rattle.std.specs.Prelude.{◌≡◌, ℕ, ◌+◌, ◌<◌, ◌≤◌, [], ◌∷◌, ◌++◌, length, take, drop, Some, IfSome, IsTrue, OnOk, slice_get};
ghost use Rattle.std.specs.List.{All, AllByRecursion};
ghost use Rattle.wb_sets.specs.Labels.{IsLabel};
ghost use Rattle.wb_footprints.specs.Listed.{IsKept, labels_in};

use std::alloc::Global;
use std::marker::Model;
use std::str::from_utf8;
use wb_range::NoMemory;
use wb_sets::Label;

/// Where a label stands among bytes.
#[derive(Clone, Copy, PartialEq, Eq)]
pub struct LabelPlace {
    start: u32,
    len: u8,
}

/// Labels one behind another. Contracts see the list of them.
#[derive(Drop)]
pub struct LabelList {
    bytes: Vec<u8>,
    places: Vec<LabelPlace>,
}

impl Model for LabelList {
    ghost use Rattle.std.specs.Prelude.{ℕ, List};
    ghost use Rattle.std.specs.List.{All};
    ghost use Rattle.wb_footprints.specs.Listed.{labels_in, IsKept};

    ghost Value = { List (List ℕ) };

    ghost view = { λ a. labels_in a.bytes.items a.places.items };

    ghost invariant = { λ a. All (IsKept a.bytes.items) a.places.items };
}

// The last place at which a label may begin.
const LAST_START: usize = 0xffff_ffff;

// Where a text that begins at a place stands; `None` where the place is too far.
fn place_of(start: usize, text: &[u8]) -> Option<LabelPlace>
    requires { length text.now ≤ 64 }
    ensures start { IfSome result (λ e. e.start ≡ start) }
    ensures len { IfSome result (λ e. e.len ≡ length text.now) }
{
    if start > LAST_START {
        return None;
    }
    let start = start as u32;
    let len = text.len() as u8;
    Some(LabelPlace { start, len })
}

// So many bytes, from a place on.
fn part(bytes: &[u8], start: usize, len: usize) -> &[u8]
    requires { start + len ≤ length bytes.now }
    ensures { result.now ≡ take len (drop start bytes.now) }
{
    &bytes[start..start + len]
}

// The bytes of the label at a place.
fn text_at<'a>(bytes: &'a [u8], places: &[LabelPlace], at: usize) -> &'a [u8]
    requires kept { All (IsKept bytes.now) places.now }
    requires place { at < length places.now }
    ensures text { slice_get (labels_in bytes.now places.now) at ≡ Some result.now }
    ensures label { IsLabel result.now }
{
    let place = places[at];
    part(bytes, place.start as usize, place.len as usize)
}

// The label with these bytes.
fn label_of(bytes: &[u8]) -> Label
    requires { IsLabel bytes.now }
    ensures { result ≡ bytes.now }
{
    let Ok(text) = from_utf8(bytes) else {
        unreachable!();
    };
    match Label::new(text) {
        Ok(label) => label,
        Err(_) => unreachable!(),
    }
}

// Whether two lists have the same bytes.
fn are_same_bytes(bytes: &[u8], others: &[u8]) -> bool
    ensures { IsTrue result → bytes.now ≡ others.now }
{
    bytes == others
}

// Whether two lists have the same places.
fn are_same_places(places: &[LabelPlace], others: &[LabelPlace]) -> bool
    ensures { IsTrue result → places.now ≡ others.now }
{
    places == others
}

impl LabelList {
    /// No labels.
    pub fn new(alloc: Global) -> LabelList
        ensures { result ≡ [] }
    {
        LabelList {
            bytes: Vec::new(alloc),
            places: Vec::new(alloc),
        }
    }

    /// Adds the label with these bytes behind the others, if there is memory for it.
    pub fn push(&mut self, text: &[u8]) -> Result<(), NoMemory>
        requires { IsLabel text.now }
        ensures { OnOk result (self.new ≡ self.old ++ text.now ∷ []) }
    {
        let Some(place) = place_of(self.bytes.len(), text) else {
            return Err(NoMemory);
        };
        if self.bytes.extend_from_slice(text).is_err() {
            return Err(NoMemory);
        }
        if self.places.push(place).is_err() {
            return Err(NoMemory);
        }
        Ok(())
    }

    /// Adds a label behind the others, if there is memory for it.
    pub fn push_label(&mut self, label: &Label) -> Result<(), NoMemory>
        ensures { OnOk result (self.new ≡ self.old ++ label.now ∷ []) }
    {
        self.push(label.as_str().as_bytes())
    }

    /// How many labels there are.
    pub fn len(&self) -> usize
        ensures value { result ≡ length self.now }
        ensures labels { AllByRecursion IsLabel self.now }
    {
        self.places.len()
    }

    /// The bytes of the label at a place.
    pub fn text(&self, at: usize) -> &[u8]
        requires { at < length self.now }
        ensures text { slice_get self.now at ≡ Some result.now }
        ensures label { IsLabel result.now }
    {
        text_at(self.bytes.as_slice(), self.places.as_slice(), at)
    }

    /// The label at a place.
    pub fn label(&self, at: usize) -> Label
        requires { at < length self.now }
        ensures { slice_get self.now at ≡ Some result }
    {
        label_of(self.text(at))
    }

    /// Whether they are seen to be the same labels: by the bytes and the places, two comparisons of memory.
    pub fn is_same(&self, other: &LabelList) -> bool
        ensures { IsTrue result → self.now ≡ other.now }
    {
        if !are_same_places(self.places.as_slice(), other.places.as_slice()) {
            return false;
        }
        are_same_bytes(self.bytes.as_slice(), other.bytes.as_slice())
    }
}

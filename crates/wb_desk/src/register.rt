//! The entries of a list in their forms, and the names that these speak of.

ghost use Rattle.std.specs.Prelude.{◌≡◌, ◌<◌, ◌++◌, ◌∷◌, [], length, IfOk, IfSome, OnOk, true, slice_get};
ghost use Rattle.std.specs.Arc.{arc_value};
ghost use Rattle.wb_desk.specs.Records.{IsKept, IsWithin, entries_in, lent_in, name_at, shown};
ghost use Rattle.wb_desk.specs.Tables.{IsFront, IsNamed, IsFilled, IsRoomy};

use crate::alike::are_alike;
use crate::entry::LentEntry;
use crate::form::{Form, shown};
use std::alloc::Global;
use std::sync::Arc;
use wb_cells::{AnyIndex, Index, Name};
use wb_range::NoMemory;

/// So many hints there are of where names and indices stood last.
const HINTS: usize = 256;

/// So many of the latest names are gone through for one.
const NAMES_LOOKED_AT: usize = 256;

/// Entries in their forms, which speak of names by their places in a table. The forms of few bytes are of one seat.
#[derive(Drop)]
pub(crate) struct Register {
    seat: usize,
    names: Vec<Name>,
    // Where the latest name stood.
    latest: u16,
    // Where a name stood last, by a number of the name. It may stand elsewhere now.
    hints: [u16; HINTS],
    forms: Vec<Form>,
    // Indices that forms have lately, and where one stood last, by a number of the index. It may stand elsewhere now, or nowhere.
    indices: Vec<Arc<AnyIndex, Global>>,
    index_hints: [u8; HINTS],
}

// A number of some bytes, which few others share.
fn number_of(bytes: &[u8]) -> u8 {
    let mut number = 0u8;
    for byte in bytes {
        number = number.wrapping_mul(31).wrapping_add(*byte);
    }
    number
}

// A number of an index, which few other labels share.
fn number_of_index(at: &AnyIndex) -> u8 {
    match at.index() {
        Index::Text(label) => number_of(label.as_str().as_bytes()),
        Index::Point(_) => 0,
    }
}

// Whether a name stands at a place of a table, which has so many.
fn is_there(names: &[Name], place: usize, name: &Name) -> bool
    requires { place < length names.now }
    ensures { result ≡ true → name_at names.now place ≡ name.now }
{
    names[place].is_same(name)
}

// The place of a name among the latest of these.
fn place_among(names: &[Name], name: &Name) -> Option<u16>
    ensures { IfSome result (λ p. IsNamed names.now p name.now) }
{
    let from = names.len().saturating_sub(NAMES_LOOKED_AT);
    for place in from..names.len() {
        if is_there(names, place, name) {
            return match u16::try_from(place) {
                Ok(place) => Some(place),
                Err(_) => None,
            };
        }
    }
    None
}

// Whether a name stands at a place.
fn is_at(names: &[Name], place: u16, name: &Name) -> bool
    ensures { result ≡ true → IsNamed names.now place name.now }
{
    let place = place as usize;
    if place >= names.len() {
        return false;
    }
    is_there(names, place, name)
}

// The place of a name in a table, where it is put if it isn't found; none, where the table is full.
fn place_in(names: &mut Vec<Name>, hint: u16, name: &Name) -> Result<Option<u16>, NoMemory>
    ensures front { IsFront names.old.items names.new.items }
    ensures named { IfOk result (λ o. IfSome o (λ p. IsNamed names.new.items p name.now)) }
{
    if is_at(names.as_slice(), hint, name) {
        return Ok(Some(hint));
    }
    if let Some(place) = place_among(names.as_slice(), name) {
        return Ok(Some(place));
    }
    let place = match u16::try_from(names.len()) {
        Ok(place) => place,
        Err(_) => return Ok(None),
    };
    if names.push(*name).is_err() {
        return Err(NoMemory);
    }
    Ok(Some(place))
}

// The index at a place, once more, if it is this one.
fn index_there(
    indices: &[Arc<AnyIndex, Global>],
    place: u8,
    at: &AnyIndex,
) -> Result<Option<Arc<AnyIndex, Global>>, NoMemory>
    ensures { IfOk result (λ o. IfSome o (λ a. arc_value a ≡ at.now)) }
{
    let place = place as usize;
    if place >= indices.len() {
        return Ok(None);
    }
    let there = &indices[place];
    if !there.is_same(at) {
        return Ok(None);
    }
    match Arc::try_clone(there) {
        Ok(one) => Ok(Some(one)),
        Err(_) => Err(NoMemory),
    }
}

impl Register {
    /// No entries.
    pub(crate) fn new(alloc: Global, seat: usize) -> Register
        ensures kept { IsKept result }
        ensures none { entries_in result ≡ [] }
    {
        Register {
            seat,
            names: Vec::new(alloc),
            latest: 0,
            hints: [0; HINTS],
            forms: Vec::new(alloc),
            indices: Vec::new(alloc),
            index_hints: [0; HINTS],
        }
    }

    /// Whose forms of few bytes are here.
    pub(crate) fn seat(&self) -> usize
        ensures { result ≡ self.now.seat }
    {
        self.seat
    }

    /// How many entries there are.
    pub(crate) fn len(&self) -> usize
        ensures { result ≡ length (entries_in self.now) }
    {
        self.forms.len()
    }

    /// The entry at a place.
    #[tactic(auto, using(crate::proofs::Registers::within_at, crate::proofs::Registers::shown_at, crate::proofs::Registers::shown_past))]
    pub(crate) fn entry(&self, place: usize) -> Option<LentEntry<'_>>
        requires { IsKept self.now }
        ensures { lent_in result ≡ slice_get (entries_in self.now) place }
    {
        if place >= self.forms.len() {
            return None;
        }
        Some(shown(self.seat, self.names.as_slice(), &self.forms[place]))
    }

    /// Whether both have an entry at a place, and these are seen to be equal by their forms alone. `false` tells nothing.
    #[tactic(auto, using(crate::proofs::Registers::shown_at))]
    pub(crate) fn is_alike(&self, other: &Register, place: usize) -> bool
        ensures { result ≡ true → slice_get (entries_in self.now) place ≡ slice_get (entries_in other.now) place }
    {
        if self.seat != other.seat {
            return false;
        }
        if place >= self.forms.len() || place >= other.forms.len() {
            return false;
        }
        let names = self.names.as_slice();
        are_alike(
            names,
            &self.forms[place],
            other.names.as_slice(),
            &other.forms[place],
        )
    }

    /// Makes room for one form more. Lists grow by a quarter.
    pub(crate) fn make_room(&mut self) -> Result<(), NoMemory>
        ensures same { IsFilled self.old self.new }
        ensures room { OnOk result (IsRoomy self.new) }
    {
        if self.forms.len() < self.forms.capacity() {
            return Ok(());
        }
        let more = self.forms.len() / 4 + 4;
        if self.forms.reserve_exact(more).is_err() {
            return Err(NoMemory);
        }
        Ok(())
    }

    /// The place of a name of a seat's entry in the table, if it is the latest name, and the list is of the seat.
    pub(crate) fn latest_place(&self, seat: usize, name: &Name) -> Option<u16>
        ensures { IfSome result (λ p. (self.now.seat ≡ seat) × IsNamed self.now.names.items p name.now) }
    {
        if seat != self.seat {
            return None;
        }
        if is_at(self.names.as_slice(), self.latest, name) {
            return Some(self.latest);
        }
        None
    }

    /// The place of a name of a seat's entry in the table, where it is put if it isn't found; none, where the table is full, or
    /// is of another seat.
    #[tactic(auto, using(crate::proofs::Registers::grown_kept))]
    pub(crate) fn place_of(&mut self, seat: usize, name: &Name) -> Result<Option<u16>, NoMemory>
        requires { IsKept self.old }
        ensures kept { IsKept self.new }
        ensures entries { entries_in self.new ≡ entries_in self.old }
        ensures forms { self.new.forms ≡ self.old.forms }
        ensures named { IfOk result (λ o. IfSome o (λ p. (self.new.seat ≡ seat) × IsNamed self.new.names.items p name.now)) }
    {
        if self.seat != seat {
            return Ok(None);
        }
        if is_at(self.names.as_slice(), self.latest, name) {
            return Ok(Some(self.latest));
        }
        let slot = number_of(name.as_bytes()) as usize;
        let hint = self.hints[slot];
        match place_in(&mut self.names, hint, name) {
            Ok(Some(place)) => {
                self.hints[slot] = place;
                self.latest = place;
                Ok(Some(place))
            }
            Ok(None) => Ok(None),
            Err(NoMemory) => Err(NoMemory),
        }
    }

    // Remembers an index, in the place of another one where there are many.
    fn remember(&mut self, slot: usize, at: Arc<AnyIndex, Global>)
        requires { slot < 256 }
        ensures seat { self.new.seat ≡ self.old.seat }
        ensures names { self.new.names ≡ self.old.names }
        ensures forms { self.new.forms ≡ self.old.forms }
    {
        match u8::try_from(self.indices.len()) {
            Ok(place) => {
                if self.indices.push(at).is_ok() {
                    self.index_hints[slot] = place;
                }
            }
            Err(_) => {
                let place = self.index_hints[slot] as usize;
                if place < self.indices.len() {
                    self.indices[place] = at;
                }
            }
        }
    }

    /// An index for two forms: the one that earlier forms have, if it is remembered.
    pub(crate) fn index_of(
        &mut self,
        alloc: Global,
        at: &AnyIndex,
    ) -> Result<Arc<AnyIndex, Global>, NoMemory>
        requires { IsKept self.old }
        ensures kept { IsKept self.new }
        ensures entries { entries_in self.new ≡ entries_in self.old }
        ensures seat { self.new.seat ≡ self.old.seat }
        ensures names { self.new.names ≡ self.old.names }
        ensures forms { self.new.forms ≡ self.old.forms }
        ensures index { IfOk result (λ a. arc_value a ≡ at.now) }
    {
        let slot = number_of_index(at) as usize;
        match index_there(self.indices.as_slice(), self.index_hints[slot], at) {
            Ok(Some(one)) => return Ok(one),
            Ok(None) => {}
            Err(NoMemory) => return Err(NoMemory),
        }
        let Ok(one) = Arc::new(alloc, *at) else {
            return Err(NoMemory);
        };
        let Ok(other) = Arc::try_clone(&one) else {
            return Err(NoMemory);
        };
        self.remember(slot, other);
        Ok(one)
    }

    /// Adds a form at the end. There is room for it.
    #[tactic(auto, using(crate::proofs::Registers::pushed_kept, crate::proofs::Registers::pushed_shown))]
    pub(crate) fn add(&mut self, form: Form)
        requires kept { IsKept self.old }
        requires room { IsRoomy self.old }
        requires within { IsWithin (length self.old.names.items) form }
        ensures kept { IsKept self.new }
        ensures entries { entries_in self.new ≡ entries_in self.old ++ shown self.old.seat self.old.names.items form ∷ [] }
    {
        self.forms.push_reserved(form);
    }
}

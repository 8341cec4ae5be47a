//! Sets of numbers as words of 64 bits by their places.

ghost use Rattle.std.specs.Prelude.{◌≡◌, ℕ, ◌==◌, ◌&&◌, ◌+◌, ◌*◌, ◌/◌, true, false, OnOk, OnErr, if◌then◌else◌};
ghost use Rattle.wb_footprints.specs.Relation.{IsGreatest, IsLeast, IsLeastAfter};
ghost use Rattle.wb_footprints.specs.Numbers.{numbered, AreWhole};

use crate::marks::word::{has_bit, highest, lowest, lowest_above, with_bit, without_bit};
use std::collections::BTreeMap;
use std::ops::Bound;
use wb_range::NoMemory;

/// Adds a number.
pub(crate) fn add_to(words: &mut BTreeMap<u64, u64>, number: u64) -> Result<(), NoMemory>
    ensures ok { OnOk result ((n : ℕ) → numbered words.new.entries n ≡ (if number == n then true else numbered words.old.entries n)) }
    ensures err { OnErr result (words.new.entries ≡ words.old.entries) }
    ensures whole { AreWhole words.old.entries → AreWhole words.new.entries }
{
    if let Some(word) = words.get_mut(&(number / 64)) {
        *word = with_bit(*word, number % 64);
        return Ok(());
    }
    match words.insert(number / 64, with_bit(0, number % 64)) {
        Ok(_) => Ok(()),
        Err(_) => Err(NoMemory),
    }
}

/// Takes a number away; a word without bits goes.
pub(crate) fn take_from(words: &mut BTreeMap<u64, u64>, number: u64)
    ensures taken { (n : ℕ) → numbered words.new.entries n ≡ (if number == n then false else numbered words.old.entries n) }
    ensures whole { AreWhole words.old.entries → AreWhole words.new.entries }
{
    let key = number / 64;
    let Some(word) = words.get_mut(&key) else {
        return;
    };
    let left = without_bit(*word, number % 64);
    *word = left;
    if left == 0 {
        words.remove(&key);
    }
}

/// Whether a number is in the set.
pub(crate) fn has(words: &BTreeMap<u64, u64>, number: u64) -> bool
    ensures { result ≡ numbered words.now.entries number }
{
    match words.get(&(number / 64)) {
        None => false,
        Some(word) => has_bit(*word, number % 64),
    }
}

/// The least number.
pub(crate) fn least(words: &BTreeMap<u64, u64>) -> Option<u64>
    requires { AreWhole words.now.entries }
    ensures { IsLeast (numbered words.now.entries) result }
{
    match words.first_key_value() {
        None => None,
        Some((key, word)) => Some(*key * 64 + lowest(*word)),
    }
}

/// The greatest number.
pub(crate) fn greatest(words: &BTreeMap<u64, u64>) -> Option<u64>
    requires { AreWhole words.now.entries }
    ensures { IsGreatest (numbered words.now.entries) result }
{
    match words.last_key_value() {
        None => None,
        Some((key, word)) => Some(*key * 64 + highest(*word)),
    }
}

// The least number of the words behind a place.
fn least_behind(words: &BTreeMap<u64, u64>, key: u64) -> Option<u64>
    requires { AreWhole words.now.entries }
    ensures { IsLeastAfter (numbered words.now.entries) (key * 64 + 63) result }
{
    let from = (Bound::Excluded(key), Bound::Unbounded);
    match words.range(from).next() {
        None => None,
        Some((key, word)) => Some(*key * 64 + lowest(*word)),
    }
}

// The least number above another of the word at its place.
fn least_beside(words: &BTreeMap<u64, u64>, after: u64) -> Option<u64>
    requires { AreWhole words.now.entries }
    ensures { IsLeastAfter (λ n. (n / 64 == after / 64) && numbered words.now.entries n) after result }
{
    match words.get(&(after / 64)) {
        None => None,
        Some(word) => match lowest_above(*word, after % 64) {
            None => None,
            Some(bit) => Some(after / 64 * 64 + bit),
        },
    }
}

/// The least number above another.
pub(crate) fn least_after(words: &BTreeMap<u64, u64>, after: u64) -> Option<u64>
    requires { AreWhole words.now.entries }
    ensures { IsLeastAfter (numbered words.now.entries) after result }
{
    match least_beside(words, after) {
        Some(number) => Some(number),
        None => least_behind(words, after / 64),
    }
}

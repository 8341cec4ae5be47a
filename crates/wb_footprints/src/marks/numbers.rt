//! Which numbers have a footprint.

ghost use Rattle.std.specs.Prelude.{◌≡◌, ℕ, ◌==◌, false, true, IsTrue, OnOk, OnErr, IfOk, IfSome, IfNone, if◌then◌else◌};
ghost use Rattle.wb_footprints.specs.Relation.{AreAllAfter, IsGreatest, IsLeast, IsLeastAfter, JoinedAfter};
ghost use Rattle.wb_footprints.specs.Numbers.{numbered};

use crate::marks::words::{add_to, greatest, has, least, least_after, take_from};
use std::alloc::Global;
use std::collections::BTreeMap;
use std::marker::Model;
use wb_range::NoMemory;

/// A set of numbers, kept as words of 64 bits: the bits of the word at a place `k` are of the numbers from `64 * k` on. Contracts
/// see the words by their places.
#[derive(Drop)]
pub struct Numbers {
    words: BTreeMap<u64, u64>,
}

impl Model for Numbers {
    ghost use Rattle.wb_footprints.specs.Numbers.{Numbers as Seen, AreWhole};

    ghost Value = { Seen };

    ghost view = { λ a. a.words.entries };

    ghost invariant = { λ a. AreWhole a.words.entries };
}

impl Numbers {
    /// No numbers.
    pub fn new(alloc: Global) -> Numbers
        ensures { (n : ℕ) → numbered result n ≡ false }
    {
        Numbers {
            words: BTreeMap::new(alloc),
        }
    }

    /// Adds a number.
    pub fn add(&mut self, number: u64) -> Result<(), NoMemory>
        ensures ok { OnOk result ((n : ℕ) → numbered self.new n ≡ (if number == n then true else numbered self.old n)) }
        ensures err { OnErr result (self.new ≡ self.old) }
    {
        add_to(&mut self.words, number)
    }

    /// Takes a number away.
    pub fn take(&mut self, number: u64)
        ensures { (n : ℕ) → numbered self.new n ≡ (if number == n then false else numbered self.old n) }
    {
        take_from(&mut self.words, number);
    }

    /// Whether there is no number.
    pub fn is_empty(&self) -> bool
        ensures { IsTrue result → (n : ℕ) → numbered self.now n ≡ false }
    {
        self.words.is_empty()
    }

    /// Whether a number is in the set.
    pub fn has(&self, number: u64) -> bool
        ensures { result ≡ numbered self.now number }
    {
        has(&self.words, number)
    }

    /// Takes the least number away.
    pub fn take_least(&mut self) -> Option<u64>
        ensures least { IsLeast (numbered self.old) result }
        ensures taken { IfSome result (λ j. (n : ℕ) → numbered self.new n ≡ (if j == n then false else numbered self.old n)) }
        ensures none { IfNone result ((n : ℕ) → numbered self.new n ≡ numbered self.old n) }
    {
        match least(&self.words) {
            None => None,
            Some(number) => {
                take_from(&mut self.words, number);
                Some(number)
            }
        }
    }

    /// The least number above `after`.
    pub fn least_after(&self, after: u64) -> Option<u64>
        ensures { IsLeastAfter (numbered self.now) after result }
    {
        least_after(&self.words, after)
    }

    /// Those above `after` join the numbers that wait.
    pub fn join_after(&self, after: u64, waiting: &mut Numbers) -> Result<(), NoMemory>
        ensures { OnOk result (JoinedAfter waiting.old waiting.new (numbered self.now) after) }
    {
        let mut from = after;
        while let Some(number) = self.least_after(from) {
            waiting.add(number)?;
            from = number;
        }
        Ok(())
    }

    /// Those above `after`, ascending.
    pub fn above(&self, alloc: Global, after: u64) -> Result<Vec<u64>, NoMemory>
        ensures { IfOk result (λ v. AreAllAfter (numbered self.now) after v.items) }
    {
        let mut found = Vec::new(alloc);
        let mut from = after;
        while let Some(number) = self.least_after(from) {
            match found.push(number) {
                Ok(()) => {}
                Err(_) => return Err(NoMemory),
            }
            from = number;
        }
        Ok(found)
    }

    /// The greatest number.
    pub fn greatest(&self) -> Option<u64>
        ensures { IsGreatest (numbered self.now) result }
    {
        greatest(&self.words)
    }
}

// Whether passes and a journal agree.
ghost use Rattle.std.specs.Prelude.{ℕ, ◌<◌, length, MatchOption};
ghost use Rattle.wb_desk.specs.Settling.{HasOnePass, IsOnly, Agrees, IsSettled, DiffersAt, IsMissing, IsDifferent, IsCause};

use crate::pass::Pass;
use crate::records::{Records, difference_at};
use std::sync::ledger::Ledger;

/// Why a desk is not settled.
#[derive(Clone, Copy, Debug, PartialEq, Eq)]
pub enum Cause {
    /// The least seat without exactly one pass.
    MissingPass { seat: usize },
    /// The least seat, and then the least place, from 0, where the list that is kept of the seat and the list of its pass
    /// differ.
    Differs { seat: usize, place: usize },
}

/// The first place, from 0, where the list that is kept of a seat and the list of its pass differ.
#[derive(Clone, Copy, Debug, PartialEq, Eq)]
pub struct Difference {
    pub place: usize,
}

// The place of the only pass of a seat.
fn only_pass<L: Ledger>(passes: &[Pass<L>], seat: usize) -> Option<usize>
    ensures { MatchOption result (¬ HasOnePass passes.now seat) (λ i. IsOnly passes.now seat i) }
{
    let mut found = None;
    for at in 0..passes.len() {
        if passes[at].seat() == seat {
            if found.is_some() {
                return None;
            }
            found = Some(at);
        }
    }
    found
}

// The least seat without exactly one pass.
fn first_missing<L: Ledger>(passes: &[Pass<L>], seats: usize) -> Option<usize>
    ensures { MatchOption result ((k : ℕ) → k < seats → HasOnePass passes.now k) (λ k. IsMissing seats passes.now k) }
{
    for seat in 0..seats {
        if only_pass(passes, seat).is_none() {
            return Some(seat);
        }
    }
    None
}

// The first place where the list of a seat is not that of its only pass.
fn difference_of<L: Ledger>(lists: &[Records], passes: &[Pass<L>], seat: usize) -> Option<usize>
    requires within { seat < length lists.now }
    requires one { HasOnePass passes.now seat }
    ensures { MatchOption result (Agrees lists.now passes.now seat) (λ place. DiffersAt lists.now passes.now seat place) }
{
    match only_pass(passes, seat) {
        Some(at) => difference_at(lists, seat, passes[at].own()),
        None => unreachable!(),
    }
}

// The least seat, and the least place, where they differ.
fn first_different<L: Ledger>(lists: &[Records], passes: &[Pass<L>]) -> Option<(usize, usize)>
    requires { (k : ℕ) → k < length lists.now → HasOnePass passes.now k }
    ensures { MatchOption result (IsSettled (length lists.now) lists.now passes.now) (λ d. IsDifferent (length lists.now) lists.now passes.now d.0 d.1) }
{
    for seat in 0..lists.len() {
        if let Some(place) = difference_of(lists, passes, seat) {
            return Some((seat, place));
        }
    }
    None
}

/// Why passes and the lists that are kept of all seats do not agree.
pub(crate) fn first_cause<L: Ledger>(lists: &[Records], passes: &[Pass<L>]) -> Option<Cause>
    ensures { MatchOption result (IsSettled (length lists.now) lists.now passes.now) (λ why. IsCause (length lists.now) lists.now passes.now why) }
{
    if let Some(seat) = first_missing(passes, lists.len()) {
        return Some(Cause::MissingPass { seat });
    }
    match first_different(lists, passes) {
        Some((seat, place)) => Some(Cause::Differs { seat, place }),
        None => None,
    }
}

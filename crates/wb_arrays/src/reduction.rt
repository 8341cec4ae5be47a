ghost use Rattle.std.specs.Prelude.{◌≡◌, IfErr, IfNone, IfSome, OkIff, Err, FitsSigned};
ghost use Rattle.std.specs.List.{reduce};
ghost use Rattle.std.specs.Int.{w64};
ghost use Rattle.wb_arrays.specs.Reductions.{elements_of, op_of, of_nothing, op_in_128, joined_in_128, AreSmall, IsReduced};

use crate::mover::{Mover, Way};
use crate::{Pieces, Store};
use rayon::prelude::*;
use std::thread::Threads;
use thiserror::Error;
use wb_range::{Domain, Mapping};

// How few elements are worth a thread of their own: as measured, threads pay from some millions on.
const WORTH_A_THREAD: usize = 1 << 20;

/// What a reduction makes of the elements.
#[derive(Clone, Copy, Debug, PartialEq, Eq)]
pub enum Op {
    Sum,
    Min,
    Max,
}

/// Why there is no result of a reduction.
#[derive(Clone, Copy, Debug, PartialEq, Eq, Error)]
pub enum ReduceErr {
    #[error("there is no element")]
    Empty,
    #[error("the result is not an i64")]
    Overflow,
    #[error("no memory")]
    NoMemory,
}

/// The sum, the least or the greatest of the elements (Chapel Language
/// Specification, "Data Parallelism"), the same by every mover. The pieces are
/// reduced one after another: by the threads of the mover's runtime where a
/// piece is large enough that it pays, and else in the caller's thread. The sum
/// of no elements is 0; `Empty` exactly where there is no least or greatest one,
/// and `Overflow` exactly where the whole sum is no i64. It takes no memory, so
/// that it never says `NoMemory`.
pub fn reduce<V: Mover, D: Domain, M: Mapping<Index = D::Index>>(
    mover: &V,
    op: Op,
    of: &Pieces<D, M>,
) -> Result<i64, ReduceErr>
where
    D::Index: Send + Sync,
    ensures answer { IsReduced op of.now.0 result }
    ensures overflow { result ≡ Err ReduceErr.Overflow → op ≡ Op.Sum }
{
    answer(op, whole(&mover.way(), op, of))
}

// The answer to a reduction from what the operation makes of all elements.
fn answer(op: Op, whole: Option<i128>) -> Result<i64, ReduceErr>
    ensures none { IfNone whole (result ≡ of_nothing op) }
    ensures value { IfSome whole (λ s. OkIff result (FitsSigned w64 s) s) }
    ensures overflow { IfSome whole (λ s. IfErr result (λ e. e ≡ ReduceErr.Overflow)) }
{
    match whole {
        Some(value) => i64::try_from(value).map_err(|_| ReduceErr::Overflow),
        None => match op {
            Op::Sum => Ok(0),
            Op::Min | Op::Max => Err(ReduceErr::Empty),
        },
    }
}

// What the operation makes of all elements; `None` where there is none.
fn whole<R: Threads + Sync, G, D: Domain, M: Mapping<Index = D::Index>>(
    way: &Way<'_, R, G>,
    op: Op,
    of: &Pieces<D, M>,
) -> Option<i128>
where
    D::Index: Send + Sync,
    ensures value { result ≡ reduce (op_of op) (elements_of of.now.0) }
    ensures small { AreSmall of.now.0 }
{
    // For the proof: there are fewer than 2^64 elements, so their sum fits.
    let _ = of.len();
    let mut done = None;
    for locale in 0..of.mapping().locales() {
        if let Some(pairs) = of.pairs(locale) {
            done = joined(op, done, of_pairs(way, op, pairs));
        }
    }
    done
}

// What the operation makes of lent pairs.
fn of_pairs<R: Threads + Sync, G, I: Copy + Send + Sync>(
    way: &Way<'_, R, G>,
    op: Op,
    pairs: &[(I, i64)],
) -> Option<i128>
    ensures value { result ≡ reduce (op_in_128 op) (elements_of pairs.now) }
    ensures small { AreSmall pairs.now }
{
    match way {
        Way::Here => alone(op, pairs),
        Way::Team(team) => by_threads(team.rt, op, pairs),
        Way::NoThread => alone(op, pairs),
    }
}

// What the operation makes of the elements of pairs, one after another in the caller's thread; `None` where there is none.
fn alone<I: Copy>(op: Op, pairs: &[(I, i64)]) -> Option<i128>
    ensures value { result ≡ reduce (op_in_128 op) (elements_of pairs.now) }
    ensures small { AreSmall pairs.now }
{
    let mut done = None;
    for (_, element) in pairs {
        done = joined(op, done, Some(*element as i128));
    }
    done
}

// What the operation makes of the elements of pairs, by threads where there are enough elements for two; `None` where there is
// none.
fn by_threads<R: Threads + Sync, I: Copy + Send + Sync>(
    rt: &R,
    op: Op,
    pairs: &[(I, i64)],
) -> Option<i128>
    ensures value { result ≡ reduce (op_in_128 op) (elements_of pairs.now) }
    ensures small { AreSmall pairs.now }
{
    pairs
        .par_iter()
        .map(
            |p: &(I, i64)| -> i128
                ensures { (result ≡ p.now.1) × FitsSigned w64 p.now.1 }
            { p.1 as i128 },
        )
        .with_min_len(WORTH_A_THREAD)
        .reduce_with(
            rt,
            |a: i128, b: i128| -> i128
                ensures { result ≡ op_in_128 op a b }
            { of_two(op, a, b) },
        )
}

// What the operation makes of two parts, of which each may have no element.
fn joined(op: Op, a: Option<i128>, b: Option<i128>) -> Option<i128>
    ensures { result ≡ joined_in_128 op a b }
{
    match (a, b) {
        (None, b) => b,
        (a, None) => a,
        (Some(a), Some(b)) => Some(of_two(op, a, b)),
    }
}

// What the operation makes of two integers.
fn of_two(op: Op, a: i128, b: i128) -> i128
    ensures { result ≡ op_in_128 op a b }
{
    match op {
        Op::Sum => a.wrapping_add(b),
        Op::Min => a.min(b),
        Op::Max => a.max(b),
    }
}

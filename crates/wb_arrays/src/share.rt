ghost use Rattle.std.specs.Prelude.{◌≡◌, ◌<◌, ◌≤◌, IfOk, OnOk, IsOk, All};
ghost use Rattle.wb_arrays.specs.Pieces.{pieces_of, lists_of, LieBelow};
ghost use Rattle.wb_arrays.specs.Shares.{first_locale, share_of, lists_joined};

use crate::part_of;
use crate::team::Team;
use crate::workers::Gate;
use std::alloc::Global;
use std::thread;
use std::thread::Threads;
use wb_range::{Key, Mapping, NoMemory};

/// The pieces of a whole array by a team: each worker passes the gate and makes
/// the pieces of its own locales, and all of them lie side by side.
pub(crate) fn pieces_by_team<
    R: Threads + Sync,
    G: Gate + Sync,
    I: Key + Send + Sync,
    M: Mapping<Index = I> + Sync,
>(
    team: &Team<'_, R, G>,
    alloc: Global,
    pairs: &[(I, i64)],
    to: &M,
) -> Result<Vec<Vec<(I, i64)>>, NoMemory>
    ensures pieces { IfOk result (λ v. lists_of v.items ≡ pieces_of (M.locale to.now) (M.locale_count to.now) pairs.now) }
    ensures below { OnOk result (LieBelow (M.locale to.now) (M.locale_count to.now) pairs.now) }
{
    let gate = team.gate;
    let workers = team.count;
    let made = thread::map_indices(
        team.rt,
        alloc,
        workers,
        &|worker: usize| -> Result<Vec<Vec<(I, i64)>>, NoMemory>
            requires { worker < workers }
            ensures pieces { IfOk result (λ v. lists_of v.items ≡ share_of (M.locale to.entry.now) pairs.entry.now (M.locale_count to.entry.now)
                workers worker) }
            ensures below { OnOk result (LieBelow (M.locale to.entry.now) (M.locale_count to.entry.now) pairs.entry.now) }
        {
            gate.arrive(worker);
            share(alloc, to, pairs, workers, worker)
        },
    );
    match made {
        Ok(shares) => joined(alloc, shares),
        Err(_) => Err(NoMemory),
    }
}

// The pieces of one worker's locales.
fn share<I: Key, M: Mapping<Index = I>>(
    alloc: Global,
    to: &M,
    pairs: &[(I, i64)],
    workers: usize,
    worker: usize,
) -> Result<Vec<Vec<(I, i64)>>, NoMemory>
    requires { worker < workers }
    ensures pieces { IfOk result (λ v. lists_of v.items ≡ share_of (M.locale to.now) pairs.now (M.locale_count to.now) workers worker) }
    ensures below { OnOk result (LieBelow (M.locale to.now) (M.locale_count to.now) pairs.now) }
{
    let locales = to.locales();
    let first = first_of(locales, workers, worker);
    let end = first_of(locales, workers, worker + 1);
    part_of(alloc, to, pairs, first, end - first)
}

// The first locale of a worker's share; the number of workers stands for the
// end of the last share.
fn first_of(locales: usize, workers: usize, worker: usize) -> usize
    requires some { 0 < workers }
    requires within { worker ≤ workers }
    ensures { result ≡ first_locale locales workers worker }
{
    worker * (locales / workers) + worker.min(locales % workers)
}

// The shares one after another, if no worker was refused.
fn joined<I: Copy>(
    alloc: Global,
    shares: Vec<Result<Vec<Vec<(I, i64)>>, NoMemory>>,
) -> Result<Vec<Vec<(I, i64)>>, NoMemory>
    ensures pieces { IfOk result (λ v. lists_of v.items ≡ lists_joined shares.items) }
    ensures all { OnOk result (All IsOk shares.items) }
{
    let mut all = Vec::new(alloc);
    for share in shares {
        let mut pieces = share?;
        if all.append(&mut pieces).is_err() {
            return Err(NoMemory);
        }
    }
    Ok(all)
}

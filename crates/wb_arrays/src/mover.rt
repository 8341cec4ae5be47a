ghost use Rattle.std.specs.Prelude.{◌≡◌, ◌≢◌, IfOk, Err};
ghost use Rattle.std.specs.List.Sorted.{IsStrictlySortedBy};
ghost use Rattle.std.specs.Map.{keys_of};
ghost use Rattle.wb_arrays.specs.Ways.{OnNoThread};

use crate::Pieces;
use crate::share::pieces_by_team;
use crate::team::Team;
use crate::workers::Gate;
use std::alloc::Global;
use std::thread::Threads;
use thiserror::Error;
use wb_range::{Domain, Mapping};

/// Why a move is refused. The source stays as it was.
#[derive(Clone, Copy, Debug, PartialEq, Eq, Error)]
pub enum MoveErr {
    #[error("no memory")]
    NoMemory,
    #[error("no thread could be started")]
    NoThread,
}

/// How a mover goes about a move.
#[derive(Drop)]
pub enum Way<'a, R, G> {
    /// In the caller's thread.
    Here,
    /// By a team of workers.
    Team(Team<'a, R, G>),
    /// Not at all: it has no thread.
    NoThread,
}

/// What moves arrays from one mapping to another.
pub trait Mover {
    type R: Threads + Sync;

    type G: Gate + Sync;

    /// Whether the mover may refuse for want of threads.
    ghost may_lack_threads: { Self → Type 0 };

    /// How the next move is made.
    fn way(&self) -> Way<'_, Self::R, Self::G>
        ensures { OnNoThread result (may_lack_threads self.now) };

    /// The array of `from` in the pieces of the mapping `to`. All movers, with
    /// any number of workers, give the same pieces.
    final fn move_pieces<D: Domain, M: Mapping<Index = D::Index> + Sync>(
        &self,
        alloc: Global,
        from: &Pieces<D, M>,
        to: &M,
    ) -> Result<Pieces<D, M>, MoveErr>
    where
        Self: Sized,
        D::Index: Send + Sync,
        ensures pieces { IfOk result (λ p. p ≡ (from.now.0, to.now)) }
        ensures no_thread { result ≡ Err MoveErr.NoThread → may_lack_threads self.now }
    {
        match self.way() {
            Way::Here => alone(alloc, from, to),
            Way::Team(team) => together(&team, alloc, from, to),
            Way::NoThread => Err(MoveErr::NoThread),
        }
    }
}

// The move in the caller's thread.
fn alone<D: Domain, M: Mapping<Index = D::Index>>(
    alloc: Global,
    from: &Pieces<D, M>,
    to: &M,
) -> Result<Pieces<D, M>, MoveErr>
    ensures pieces { IfOk result (λ p. p ≡ (from.now.0, to.now)) }
    ensures no_thread { result ≢ Err MoveErr.NoThread }
{
    if let Some(pairs) = from.only_piece() {
        return dealt(alloc, pairs, to);
    }
    match from.all_pairs() {
        Ok(pairs) => dealt(alloc, pairs.as_slice(), to),
        Err(_) => Err(MoveErr::NoMemory),
    }
}

// The array of these pairs, which ascend, by the caller's thread.
fn dealt<D: Domain, M: Mapping<Index = D::Index>>(
    alloc: Global,
    pairs: &[(D::Index, i64)],
    to: &M,
) -> Result<Pieces<D, M>, MoveErr>
    requires { IsStrictlySortedBy D.Index.cmp (keys_of pairs.now) }
    ensures pieces { IfOk result (λ p. p ≡ (pairs.now, to.now)) }
    ensures no_thread { result ≢ Err MoveErr.NoThread }
{
    match Pieces::of_pairs(alloc, to, pairs) {
        Ok(pieces) => Ok(pieces),
        Err(_) => Err(MoveErr::NoMemory),
    }
}

// The move by a team of workers.
fn together<R: Threads + Sync, G: Gate + Sync, D: Domain, M: Mapping<Index = D::Index> + Sync>(
    team: &Team<'_, R, G>,
    alloc: Global,
    from: &Pieces<D, M>,
    to: &M,
) -> Result<Pieces<D, M>, MoveErr>
where
    D::Index: Send + Sync,
    ensures pieces { IfOk result (λ p. p ≡ (from.now.0, to.now)) }
    ensures no_thread { result ≢ Err MoveErr.NoThread }
{
    if let Some(pairs) = from.only_piece() {
        return dealt_by_team(team, alloc, pairs, to);
    }
    match from.all_pairs() {
        Ok(pairs) => dealt_by_team(team, alloc, pairs.as_slice(), to),
        Err(_) => Err(MoveErr::NoMemory),
    }
}

// The array of these pairs, which ascend, by a team of workers.
fn dealt_by_team<R: Threads + Sync, G: Gate + Sync, D: Domain, M: Mapping<Index = D::Index> + Sync>(
    team: &Team<'_, R, G>,
    alloc: Global,
    pairs: &[(D::Index, i64)],
    to: &M,
) -> Result<Pieces<D, M>, MoveErr>
where
    D::Index: Send + Sync,
    requires { IsStrictlySortedBy D.Index.cmp (keys_of pairs.now) }
    ensures pieces { IfOk result (λ p. p ≡ (pairs.now, to.now)) }
    ensures no_thread { result ≢ Err MoveErr.NoThread }
{
    match pieces_by_team(team, alloc, pairs, to) {
        Ok(pieces) => Ok(Pieces::from_lists(alloc, to, pairs, pieces)),
        Err(_) => Err(MoveErr::NoMemory),
    }
}

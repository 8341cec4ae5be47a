//! The end of a desk whose changes are kept.
ghost use Rattle.std.specs.Prelude.{◌≡◌, ◌<◌, false, List, IfOk, IfErr, MatchResult};
ghost use Rattle.wb_keep.specs.declared.keep.LineLog.{LineLog};
ghost use Rattle.wb_kept.specs.Keeping.{IsKept};
ghost use Rattle.wb_keeping.specs.Granting.Granting.{Grants, no_edit};
ghost use Rattle.wb_desk.specs.Courses.{IsCourse, Marked, Tells, count_of};
ghost use Rattle.wb_desk.specs.Early.{EndsWithAll};
ghost use Rattle.wb_desk.specs.Settling.{IsSettled, total_of_passes};
ghost use Rattle.wb_kept_seats.specs.Files.{LeavesFrontsOf};
ghost use Rattle.wb_kept_seats.specs.Settling.{IsSettleCause};

use crate::commit::CommitErr;
use crate::desk::Desk;
use crate::opening::KeptOpening;
use crate::seats::Seats;
use wb_desk::{Cause, Pass};
use wb_keep::LineLog;
use wb_keep::disk::Device;

/// Why a desk is not settled.
#[derive(Clone, Copy, Debug, PartialEq, Eq)]
pub enum SettleErr {
    /// The passes and the journal do not agree.
    Passes(Cause),
    /// The desk was closed, or its last changes could not be kept.
    NotKept(CommitErr),
}

/// What a desk that is settled leaves: what was locked, and the log of its changes.
#[derive(Drop)]
pub struct Settled<L: KeptOpening, D: Device> {
    pub seats: Seats<L>,
    pub log: LineLog<D>,
}

/// What is left where a desk is not settled: what was locked, the log, the passes as they were handed in, and why.
#[derive(Drop)]
pub struct Unsettled<L: KeptOpening, D: Device> {
    pub seats: Seats<L>,
    pub log: LineLog<D>,
    pub passes: Vec<Pass<L>>,
    pub cause: SettleErr,
}

// What is left of a desk whose changes are not all kept.
fn not_kept<L: KeptOpening, D: Device>(
    seats: Seats<L>,
    log: LineLog<D>,
    passes: Vec<Pass<L>>,
    why: CommitErr,
) -> Unsettled<L, D>
    ensures seats { result.seats ≡ record seats { is_open = false } }
    ensures log { result.log ≡ log }
    ensures passes { result.passes.items ≡ passes.items }
    ensures cause { result.cause ≡ SettleErr.NotKept why }
{
    let mut seats = seats;
    seats.close();
    Unsettled {
        seats,
        log,
        passes,
        cause: SettleErr::NotKept(why),
    }
}

/// Takes what was locked out of a desk, keeps all that waits, and sees whether each seat has one pass and the entries that are
/// kept of the seat, in order, are the list of that pass. The file stands for the history then.
pub fn settle<L: KeptOpening, D: Device + Drop>(
    desk: Desk<L, D>,
    passes: Vec<Pass<L>>,
) -> Result<Settled<L, D>, Unsettled<L, D>>
    // Settled or not, there is a course of the desk.
    ensures course { MatchResult result (λ s. IsCourse L.opening s.seats.course) (λ u. IsCourse L.opening u.seats.course) }
    ensures seats { MatchResult result (λ s. s.seats.course.seats ≡ L.seats) (λ u. u.seats.course.seats ≡ L.seats) }

    // Settled: the entries of each seat are those of its pass, and the file stands for the history.
    ensures ok { IfOk result (λ s. IsSettled s.seats.course.seats s.seats.course.entries passes.items) }
    ensures whole { IfOk result (λ s. count_of s.seats.course.entries ≡ total_of_passes s.seats.course.seats passes.items) }
    ensures stands { IfOk result (λ s. (all : List Marked) × Tells L.opening.history all s.seats.course × EndsWithAll all s.seats.course.seats passes.items) }
    ensures kept { IfOk result (λ s. IsKept no_edit Grants D.seen D.may_leave (record { state = s.seats.course.history; log = s.log })) }

    // A crash at any moment since the opening leaves a file that stands for the history after the first so many entries.
    ensures any_moment { MatchResult result (λ s. LeavesFrontsOf D.moment D.left_since L.opening.history L.begun s.seats.course s.log)
        (λ u. LeavesFrontsOf D.moment D.left_since L.opening.history L.begun u.seats.course u.log) }

    // Not settled: the passes come back, and the cause.
    ensures passes { IfErr result (λ u. u.passes.items ≡ passes.items) }
    ensures cause { IfErr result (λ u. IsSettleCause u.seats passes.items u.cause) }
    ensures disk { IfErr result (λ u. u.cause ≡ SettleErr.NotKept CommitErr.DiskFault → (old : LineLog D) × (D.faults old.device < D.faults u.log.device)) }
{
    let Desk {
        alloc: _,
        seats,
        keeper,
        told: _,
    } = desk;
    let mut seats = seats.into_inner();
    let ended = seats.end();
    let (log, kept) = seats.keep_all(keeper.into_inner());
    if let Some(cause) = seats.shared().cause(&passes) {
        return Err(Unsettled {
            seats,
            log,
            passes,
            cause: SettleErr::Passes(cause),
        });
    }
    if let Err(why) = kept {
        return Err(not_kept(seats, log, passes, why));
    }
    if let Err(why) = ended {
        return Err(not_kept(seats, log, passes, why));
    }
    Ok(Settled { seats, log })
}

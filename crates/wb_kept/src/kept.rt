//! A state and the log of its changes.
ghost use Rattle.std.specs.Prelude.{◌≡◌, ◌≢◌, ◌<◌, ◌≤◌, ◌^◌, ◌++◌, ℕ, true, false, List, [], ◌∷◌, IfOk, IfErr, OnOk, OnErr, IsErrOf, map, IsTrue, IsFalse, IsErrAnd};
ghost use Rattle.wb_keep.specs.Disk.Device.{Only, LeavesOnly};
ghost use Rattle.wb_keep.specs.Lines.{recovered, is_ours};
ghost use Rattle.wb_keep.specs.Keep.{IsSettled, IsBeforeOrAfter};
ghost use Rattle.wb_keep.specs.Repair.{StandsForTheSame};
ghost use Rattle.wb_lines.specs.Lines.{ended};
ghost use Rattle.wb_lines.specs.Reading.{IsText};
ghost use Rattle.wb_kept.specs.Runs.{Step, Leads, AnswersLine};
ghost use Rattle.wb_kept.specs.Answering.{AnswersBy, GrantsBy};
ghost use Rattle.wb_kept.specs.Keeping.{IsKept, IsPlace};

use crate::changes::{Changes, add_line};
use crate::machine::Machine;
use std::alloc::{AllocError, Global};
use wb_keep::disk::Device;
use wb_keep::{AppendErr, LineLog, OpenErr};
use wb_lines::{Line, reply_to_too_long};

/// A state, and the log of all changes that led to it.
#[derive(Drop)]
pub struct Kept<S, D: Device> {
    /// Where all changes of the log lead.
    pub state: S,
    /// All changes that were ever granted, in order.
    pub log: LineLog<D>,
}

/// Replies that nobody has been given yet, and the changes that they tell of, which are not on the disk yet.
#[derive(Drop)]
pub struct Turn {
    replies: Vec<u8>,
    changes: Changes,
}

/// Replies that may be given out: the changes that they tell of are on the disk. Only `Kept::commit` makes it.
#[derive(Drop)]
pub struct Acknowledged {
    turn: Turn,
}

/// Why a file is not opened.
#[derive(Clone, Copy, Debug, PartialEq, Eq)]
pub enum OpenKeptErr {
    /// It does not begin with our header, and is not the front of a file that would.
    NotOurs,
    /// This change, from 0, is the first that is not granted.
    NotGranted(usize),
    /// There was no memory for its lines or for the state.
    Memory,
    /// The file failed.
    Failed,
}

/// Makes a change again, and says whether it was granted.
fn apply<M: Machine<S>, S, A: Fn(&mut S, &[u8]) -> Result<bool, AllocError>>(
    make: &A,
    state: &mut S,
    change: &[u8],
) -> Result<bool, AllocError>
    requires callable { A.IsAlwaysCallable make.now }
    requires grants { GrantsBy A.Fn make.now M.grants }
    ensures granted { IfOk result (λ is. is ≡ true → M.grants state.old change.now state.new) }
    ensures refused { IfOk result (λ is. is ≡ false → (next : S) → M.grants state.old change.now next → ⊥) }
{
    make(state, change)
}

/// Makes the changes of a file again. An `Err` says why not.
fn apply_all<M: Machine<S>, S, A: Fn(&mut S, &[u8]) -> Result<bool, AllocError>>(
    make: &A,
    state: &mut S,
    changes: &[Vec<u8>],
) -> Result<(), OpenKeptErr>
    requires callable { A.IsAlwaysCallable make.now }
    requires grants { GrantsBy A.Fn make.now M.grants }
    ensures led { OnOk result (Leads M.grants state.old (map (λ change. change.items) changes.now) state.new) }
    ensures refused { IfErr result (λ e. e ≢ OpenKeptErr.Memory → (next : S) → Leads M.grants state.old (map (λ change. change.items) changes.now) next → ⊥) }
    ensures memory { IfErr result (λ e. (e ≢ OpenKeptErr.NotOurs) × (e ≢ OpenKeptErr.Failed)) }
    ensures place { IfErr result (λ e. IsPlace M.grants state.old (map (λ change. change.items) changes.now) e) }
{
    for (at, change) in changes.iter().enumerate() {
        match apply::<M, S, A>(make, state, change) {
            Ok(true) => {}
            Ok(false) => return Err(OpenKeptErr::NotGranted(at)),
            Err(_) => return Err(OpenKeptErr::Memory),
        }
    }
    Ok(())
}

/// Opens a file that a crash may have left, and of which `held` was read: `make` makes its changes again, one after the
/// other. It may crash too. An `Err` hands the device back.
pub fn open<M: Machine<S>, S: Drop, D: Device, A: Fn(&mut S, &[u8]) -> Result<bool, AllocError>>(
    alloc: Global,
    make: &A,
    state: S,
    device: D,
    held: &[u8],
) -> Result<Kept<S, D>, (OpenKeptErr, D)>
    requires callable { A.IsAlwaysCallable make.now }
    requires grants { GrantsBy A.Fn make.now M.grants }
    requires start { state ≡ M.start }
    requires read { D.seen device ≡ held.now }
    // After a restart, what is read is what is on the disk.
    requires durable { Only (D.seen device) (D.may_leave device) }

    ensures kept { IfOk result (λ kept. IsKept M.start M.grants D.seen D.may_leave kept) }
    ensures same { IfOk result (λ kept. recovered (D.seen kept.log.device) ≡ recovered held.now) }

    // It finds the one state for which the file stands, and where there is one, it is not the file that is refused.
    ensures found { (s : S) → Leads M.grants M.start (recovered held.now) s → IfOk result (λ kept. kept.state ≡ s) }
    ensures refused { (s : S) → Leads M.grants M.start (recovered held.now) s → IsTrue (is_ours held.now)
        → IfErr result (λ e. e.0 ≢ OpenKeptErr.Failed → e.0 ≡ OpenKeptErr.Memory) }

    // Of a file that is no run of ours, the first change that is not granted is told.
    ensures place { IfErr result (λ e. IsPlace M.grants M.start (recovered held.now) e.0) }

    // A file of another kind is told as that, and no other is.
    ensures foreign { IsFalse (is_ours held.now) → IsErrAnd result (λ e. e.0 ≡ OpenKeptErr.NotOurs) }
    ensures ours { IsTrue (is_ours held.now) → IfErr result (λ e. e.0 ≢ OpenKeptErr.NotOurs) }

    // A crash at any moment leaves the same lines.
    ensures any_moment { IfOk result (λ kept. LeavesOnly D.moment D.left_since device kept.log.device (StandsForTheSame held.now)) }
    ensures any_moment_err { IfErr result (λ e. LeavesOnly D.moment D.left_since device e.1 (StandsForTheSame held.now)) }

    // A file of someone else, and one that is no run of ours, is refused with no call on it.
    ensures untouched { IfErr result (λ e. e.0 ≢ OpenKeptErr.Failed → e.0 ≢ OpenKeptErr.Memory → e.1 ≡ device) }
    ensures failed { IfErr result (λ e. e.0 ≡ OpenKeptErr.Failed → D.faults device < D.faults e.1) }
{
    let (lines, end) = match wb_keep::read(alloc, held) {
        Ok(read) => read,
        Err(OpenErr::NotOurs) => return Err((OpenKeptErr::NotOurs, device)),
        Err(_) => return Err((OpenKeptErr::Memory, device)),
    };
    let mut state = state;
    if let Err(error) = apply_all::<M, S, A>(make, &mut state, &lines) {
        return Err((error, device));
    }
    match wb_keep::resume(device, end) {
        Ok(log) => Ok(Kept { state, log }),
        Err(device) => Err((OpenKeptErr::Failed, device)),
    }
}

impl Turn {
    /// No line yet.
    pub fn new(alloc: Global) -> Turn
        ensures { (result.replies.items ≡ []) × (result.changes ≡ []) }
    {
        Turn {
            replies: Vec::new(alloc),
            changes: Changes::new(alloc),
        }
    }
}

impl Acknowledged {
    /// The replies, each with a line end.
    pub fn replies(&self) -> &[u8]
        ensures { result.now ≡ self.now.turn.replies.items }
    {
        &self.turn.replies
    }
}

/// The reply to a line.
fn reply_to<M: Machine<S>, S, F: Fn(&mut S, &[u8], &mut Changes) -> Result<Vec<u8>, AllocError>>(
    alloc: Global,
    answer: &F,
    state: &mut S,
    line: Line,
    bytes: &[u8],
    changes: &mut Changes,
) -> Result<Vec<u8>, AllocError>
    requires callable { F.IsAlwaysCallable answer.now }
    requires answers { AnswersBy F.Fn answer.now M.answers }
    requires text { (text : List ℕ) × IsText line bytes.now text }
    ensures { IfOk result (λ reply. (text : List ℕ) → IsText line bytes.now text → (made : List (List ℕ))
        × AnswersLine M.answers state.old (record { line = text; reply = reply.items; changes = made }) state.new
        × (changes.new ≡ changes.old ++ made)) }
{
    match line {
        Line::TooLong => reply_to_too_long(alloc),
        _ => answer(state, bytes, changes),
    }
}

impl<S, D: Device> Kept<S, D> {
    /// Answers a line. Its reply and its changes wait in the turn. Without memory, open the file again.
    pub fn answer<M: Machine<S>, F: Fn(&mut S, &[u8], &mut Changes) -> Result<Vec<u8>, AllocError>>(
        &mut self,
        alloc: Global,
        answer: &F,
        line: Line,
        bytes: &[u8],
        turn: &mut Turn,
    ) -> Result<(), AllocError>
        requires callable { F.IsAlwaysCallable answer.now }
        requires answers { AnswersBy F.Fn answer.now M.answers }
        requires text { (text : List ℕ) × IsText line bytes.now text }
        ensures answered { OnOk result ((text : List ℕ) → IsText line bytes.now text → (reply : List ℕ) × (made : List (List ℕ))
            × AnswersLine M.answers self.old.state (record { line = text; reply = reply; changes = made }) self.new.state
            × (turn.new.replies.items ≡ turn.old.replies.items ++ ended reply)
            × (turn.new.changes ≡ turn.old.changes ++ made)) }
        ensures log { self.new.log ≡ self.old.log }
    {
        let reply = reply_to::<M, S, F>(
            alloc,
            answer,
            &mut self.state,
            line,
            bytes,
            &mut turn.changes,
        )?;
        add_line(&mut turn.replies, &reply)?;
        Ok(())
    }

    /// Keeps the changes of a turn, and gives its replies out. After an `Err`, open the file again.
    pub fn commit(&mut self, alloc: Global, turn: Turn) -> Result<Acknowledged, AppendErr>
        requires { IsSettled D.seen D.may_leave self.old.log }

        ensures kept { OnOk result (IsSettled D.seen D.may_leave self.new.log
            × (recovered (D.seen self.new.log.device) ≡ recovered (D.seen self.old.log.device) ++ turn.changes)) }
        ensures given { IfOk result (λ acknowledged. acknowledged.turn ≡ turn) }

        // A crash at any moment of the call leaves all changes of the turn or none.
        ensures any_moment { LeavesOnly D.moment D.left_since self.old.log.device self.new.log.device
            (IsBeforeOrAfter (recovered (D.seen self.old.log.device)) turn.changes) }
        ensures state { self.new.state ≡ self.old.state }

        // It doesn't give up by itself.
        ensures failed { IsErrOf result AppendErr.Failed → D.faults self.old.log.device < D.faults self.new.log.device }
        ensures faults { D.faults self.old.log.device ≤ D.faults self.new.log.device }
        ensures full { IsErrOf result AppendErr.Full → 2 ^ 60 ≤ self.old.log.mark }
    {
        self.log.append(alloc, turn.changes.as_text())?;
        Ok(Acknowledged { turn })
    }
}

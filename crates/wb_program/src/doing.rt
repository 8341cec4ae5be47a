//! What the program does by what its command line asks for.
ghost use Rattle.std.specs.Prelude.{◌≡◌, ◌⊎◌, ℕ, List, true};
ghost use Rattle.std.specs.Io.KnownBytes.{Appends, Consumes, IsAtEnd};
ghost use Rattle.wb_sessions.specs.Reasons.{Tells, WhyNoHistory};
ghost use Rattle.wb_program.specs.Telling.{TellsWhy};
ghost use Rattle.wb_sessions.specs.Resuming.{left_in, failed_in, reads_in};
ghost use Rattle.wb_sessions.specs.Running.{HasFailed};
ghost use Rattle.wb_program.specs.Files.{UsesFiles};
ghost use Rattle.wb_program.specs.KeptDays.{KeepsDay};
ghost use Rattle.wb_program.specs.Doing.{HostsHistory, Does, FailsAfterInput, Finishes, Fails};

use crate::kept_hosting::serve_kept;
use std::alloc::Global;
use std::sync::Wait;
use std::thread::Threads;
use wb_arrays::Mover;
use wb_command::Asked;
use wb_connections::{Accepts, Binds};
use wb_keep::disk::Replaces;
use wb_lines::{Sink, Source};
use wb_seats::{host, host_history};
use wb_sessions::{
    OpensFiles, PutBack, Reason, check_with, compact_at, history_from, resume_kept_at, resume_with,
    run_kept_at, run_with, upgrade_with,
};

// A desk of so many seats on a port, on the workbook of the history whose text is the input.
fn host_input<
    R: Threads + Wait + Sync,
    B: Binds<N, I, O>,
    N: Accepts<I, O> + Drop,
    I: Source + Send + Drop,
    O: Sink + Send + Drop,
    S: Source,
    W: Sink,
    M: Mover + Sync,
>(
    rt: &R,
    alloc: Global,
    ports: &mut B,
    port: u16,
    seats: u8,
    reader: &mut S,
    writer: &mut W,
    mover: &M,
    why: &mut Option<Reason>,
) -> u8
    ensures hosts { (read : List ℕ) × Consumes (S.remaining reader.old) (S.remaining reader.new) read
        × ((text : List ℕ) × Appends (W.contents writer.old) (W.contents writer.new) text
        × HostsHistory I.Source O.Sink N.Accepts seats result read text) }
    ensures done { result ≡ 0 → IsAtEnd (S.remaining reader.new) × (W.flushed writer.new ≡ true) }
    ensures failed { result ≡ 3 → HasFailed (S.failed reader.new) (S.reads reader.old) (S.reads reader.new) (W.failed writer.new)
        ⊎ FailsAfterInput I.Source O.Sink N.Accepts seats (S.remaining reader.old) (S.remaining reader.new) (B.failed ports.new) (W.failed writer.new) }
    ensures why { result ≡ 1 → Tells WhyNoHistory (S.remaining reader.old) (S.remaining reader.new) why.new }
{
    match history_from(alloc, reader, writer, mover, why) {
        Ok(history) => host_history(rt, alloc, ports, port, seats, history, writer, mover),
        Err(status) => status,
    }
}

/// Does what a command line asks for: the exit status. What is read and written is what the definition of each command says. Status 0
/// comes only with the writer flushed, and, where an input is read, at its end; 3 only where a read, a write, a flush, a port, a
/// connection or a thread failed, or what the definition of each command names besides. A desk listens on a port that `ports` gives. A
/// journal is in the file that `files` gives for its path, also one that begins with a history, and one that is made anew, which
/// reads and prints nothing at status 0, and makes no file where none is found; no other command opens a file. With status 1 it tells why the input is refused.
pub fn do_asked<
    R: Threads + Wait + Sync,
    B: Binds<N, I, O>,
    N: Accepts<I, O> + Drop,
    I: Source + Send + Drop,
    O: Sink + Send + Drop,
    D: Replaces + Send + Drop,
    J: OpensFiles<D>,
    S: Source,
    W: Sink,
    M: Mover + Sync,
>(
    rt: &R,
    alloc: Global,
    asked: Asked<'_>,
    ports: &mut B,
    files: &mut J,
    reader: &mut PutBack<S>,
    writer: &mut W,
    mover: &M,
    why: &mut Option<Reason>,
) -> u8
    // What is read and written.
    ensures does { (read : List ℕ) × Consumes (left_in S.remaining reader.old) (left_in S.remaining reader.new) read
        × ((text : List ℕ) × Appends (W.contents writer.old) (W.contents writer.new) text
        × Does I.Source O.Sink N.Accepts asked.entry result read (left_in S.remaining reader.new) text) }

    // What becomes of the files.
    ensures keeps { UsesFiles D.Device J.OpensFiles asked.entry result files.old files.new (record {
      unread = left_in S.remaining reader.old;
      left = left_in S.remaining reader.new;
      reads_before = reads_in reader.old;
      reads_after = reads_in reader.new;
      read_failed = failed_in reader.new;
      sent = W.contents writer.old;
      told = W.contents writer.new;
      flushed = W.flushed writer.new;
      write_failed = W.failed writer.new;
    }) }

    // What a desk with a journal does.
    ensures desk { KeepsDay I.Source O.Sink N.Accepts D.Device J.OpensFiles asked.entry result (B.failed ports.new) files.new (record {
      unread = left_in S.remaining reader.old;
      left = left_in S.remaining reader.new;
      reads_before = reads_in reader.old;
      reads_after = reads_in reader.new;
      read_failed = failed_in reader.new;
      sent = W.contents writer.old;
      told = W.contents writer.new;
      flushed = W.flushed writer.new;
      write_failed = W.failed writer.new;
    }) }

    // What the exit statuses 0, 3 and 1 tell.
    ensures done { Finishes asked.entry result (left_in S.remaining reader.new) (W.flushed writer.new) }
    ensures failed { result ≡ 3 → Fails I.Source O.Sink N.Accepts asked.entry (left_in S.remaining reader.old) (left_in S.remaining reader.new)
        (failed_in reader.new) (reads_in reader.old) (reads_in reader.new) (B.failed ports.new) (W.failed writer.new) }
    ensures why { result ≡ 1 → TellsWhy asked.entry (left_in S.remaining reader.old) (left_in S.remaining reader.new) why.new }
{
    match asked {
        Asked::Run { resume, .. } => {
            if resume {
                resume_with(alloc, reader, writer, mover, why)
            } else {
                run_with(alloc, reader, writer, mover)
            }
        }
        Asked::RunKept {
            journal,
            resume,
            ..
        } => {
            if resume {
                resume_kept_at::<D, J, S, W, M>(
                    alloc,
                    files,
                    journal.as_str(),
                    reader,
                    writer,
                    mover,
                    why,
                )
            } else {
                run_kept_at::<D, J, PutBack<S>, W, M>(
                    alloc,
                    files,
                    journal.as_str(),
                    reader,
                    writer,
                    mover,
                )
            }
        }
        Asked::Check => check_with(alloc, reader, writer, mover, why),
        Asked::Upgrade => upgrade_with(alloc, reader, writer, mover, why),
        Asked::Compact { journal } => {
            compact_at::<D, J, W, M>(alloc, files, journal.as_str(), writer, mover)
        }
        Asked::Serve {
            port,
            seats,
            resume,
            ..
        } => {
            if resume {
                host_input::<R, B, N, I, O, PutBack<S>, W, M>(
                    rt, alloc, ports, port, seats, reader, writer, mover, why,
                )
            } else {
                host(rt, alloc, ports, port, seats, writer, mover)
            }
        }
        Asked::ServeKept {
            journal,
            port,
            seats,
            ..
        } => {
            serve_kept::<R, B, N, I, O, D, J, W, M>(
                rt,
                alloc,
                ports,
                files,
                journal.as_str(),
                port,
                seats,
                writer,
                mover,
            )
        }
    }
}

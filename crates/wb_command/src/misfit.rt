//! Which options of a desk don't go together, or which one is missing, where clap finds no fault in the words.

ghost use Rattle.std.specs.Prelude.{◌≡◌, is_some};
ghost use Rattle.clap.specs.Words.{found_of, rows_of, subcommand_rows_of};
ghost use Rattle.wb_command.specs.Asks.{IsMisfit, misfit_of, misfit_of_day, misfit_of_stay, word_of};

use crate::{is_told, path_of};
use clap::ArgMatches;

/// Which options don't go together, or which one is missing.
#[derive(Clone, Copy, Debug, PartialEq, Eq)]
pub enum Misfit {
    /// `--stay` and `--resume` don't go together.
    StayAndResume,
    /// `--port` and `--socket` don't.
    PortAndSocket,
    /// `--journal` and `--resume` of a desk don't.
    JournalAndResume,
    /// A desk that stays has neither `--port` nor `--socket`.
    NoPlace,
    /// A desk of one day has no `--port`.
    NoPort,
    /// There is `--socket`, and no `--stay`.
    Socket,
    /// There is `--idle`, and no `--stay`.
    Idle,
    /// There is `--quiet`, and no `--stay`.
    Quiet,
    /// None of these.
    Other,
}

// Whether a word was found for the name.
fn has(found: &ArgMatches, name: &str) -> bool
    ensures { result ≡ is_some (word_of name.now (rows_of (found_of found.now))) }
{
    match path_of(found, name) {
        Some(_) => true,
        None => false,
    }
}

// What doesn't fit of a desk that stays.
fn misfit_of_stay(resume: bool, port: bool, socket: bool) -> Misfit
    ensures { result ≡ misfit_of_stay resume port socket }
{
    match (resume, port, socket) {
        (true, _, _) => Misfit::StayAndResume,
        (false, true, true) => Misfit::PortAndSocket,
        (false, false, false) => Misfit::NoPlace,
        (false, true, false) => Misfit::Other,
        (false, false, true) => Misfit::Other,
    }
}

// What doesn't fit of a desk of one day on a port, by whether a history comes first, and a journal.
fn misfit_of_day(idle: bool, quiet: bool, resume: bool, journal: bool) -> Misfit
    ensures { result ≡ misfit_of_day idle quiet resume journal }
{
    if idle {
        return Misfit::Idle;
    }
    if quiet {
        return Misfit::Quiet;
    }
    match (resume, journal) {
        (true, true) => Misfit::JournalAndResume,
        (true, false) => Misfit::Other,
        (false, true) => Misfit::Other,
        (false, false) => Misfit::Other,
    }
}

// What doesn't fit of what was found for the options of a desk.
fn misfit_of(found: &ArgMatches) -> Misfit
    ensures { result ≡ misfit_of (rows_of (found_of found.now)) }
{
    let port = has(found, "port");
    let socket = has(found, "socket");
    let resume = is_told(found, "resume");
    if is_told(found, "stay") {
        return misfit_of_stay(resume, port, socket);
    }
    if socket {
        return Misfit::Socket;
    }
    if !port {
        return Misfit::NoPort;
    }
    misfit_of_day(
        has(found, "idle"),
        is_told(found, "quiet"),
        resume,
        has(found, "journal"),
    )
}

/// What doesn't fit of the matched words, if they ask for nothing.
pub(crate) fn misfit_in(matches: &ArgMatches) -> Misfit
    ensures { IsMisfit (subcommand_rows_of matches.now) result }
{
    match matches.subcommand() {
        Some((name, found)) => match name {
            "serve" => misfit_of(found),
            _ => Misfit::Other,
        },
        None => Misfit::Other,
    }
}

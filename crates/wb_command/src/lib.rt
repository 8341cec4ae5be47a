//! The command line of the program.
#![tactic(auto)]

ghost use Rattle.std.specs.Prelude.{◌≡◌, ◌≢◌, ℕ, Option, true, false, IfErr, IfOk, MatchOption, MatchResult, codes, option_map};
ghost use Rattle.clap.specs.Simple.{new_shape};
ghost use Rattle.clap.specs.Walk.{texts};
ghost use Rattle.clap.specs.Words.{app_of, found_of, rows_of, rule_of, shape_of, subcommand_rows_of};
ghost use Rattle.clap.specs.declared.builder.command.Command.TheViews.{out-Command as fields_of};
ghost use Rattle.wb_command.specs.Asks.{Asks, HasNumber, HasWorkers, IsMeant, IsOptional, IsPlace, Means, MeansAny, Refuses, Tells, is_set, word_of};
ghost use Rattle.wb_command.specs.Asks as spec;

use crate::misfit::misfit_in;
use clap::error::ErrorKind;
use clap::{Arg, ArgAction, ArgMatches, Command};
use std::alloc::{AllocError, Global};
use std::marker::Model;

mod misfit;

pub use crate::misfit::Misfit;

const VERSION: &str = "1.0.0";

const RUN_EXAMPLE: &str = "Example:\n  workbook run < examples/first_run.jsonl";

const CHECK_EXAMPLE: &str =
    "Example:\n  printf 'chapel-workbook 1\\nrect D {1..4} none\\nend\\n' | workbook check";

const UPGRADE_EXAMPLE: &str =
    "Example:\n  printf 'chapel-workbook 1\\nrect D {1..4} none\\nend\\n' | workbook upgrade";

const COMPACT_EXAMPLE: &str = "Example:\n  workbook compact plan.wb";

const SERVE_EXAMPLE: &str = "Example:\n  workbook serve --port 7000 --seats 2";

const RUN_RESUME: &str = "Go on from the history whose text comes first";

const SERVE_RESUME: &str =
    "Begin with the history whose text is standard input, and print the text of the whole history at the end";

const JOURNAL: &str = "Keep each change in this file, and go on from those that it has";

const WORKERS: &str =
    "How many workers move arrays to another mapping; 1 where it is left out (1 to 64)";

const PORT: &str = "The port to listen on; 0 takes any free one (0 to 65535)";

const SEATS: &str =
    "How many connections have a seat at a time; without --stay so many are accepted, each once (1 to 16)";

const SOCKET: &str =
    "The file of a socket to listen on in the place of a port, for whoever owns it; with --stay alone";

const STAY: &str =
    "Lend a seat again when its connection has ended, until the line 'stop' comes on standard input; not with --resume";

const IDLE: &str =
    "After how many seconds without a byte a connection is ended, 0 for never; 300 where it is left out; with --stay alone (0 to 86400)";

const QUIET: &str = "Tell nothing of the connections on standard error; with --stay alone";

/// After how many seconds without a byte a connection of a desk that stays is ended, where none are told.
const IDLE_SECONDS: u32 = 300;

/// The path of a file, a word of the command line.
#[derive(Debug, Drop)]
pub struct FilePath<'a> {
    word: &'a str,
}

impl<'a> Model for FilePath<'a> {
    ghost use Rattle.std.specs.Prelude.{List, ℕ};

    ghost Value = { List ℕ };

    ghost view = { λ p. p.word.now };
}

impl<'a> FilePath<'a> {
    /// The path that this word is.
    pub fn new(word: &'a str) -> FilePath<'a>
        ensures { result ≡ word.now }
    {
        FilePath { word }
    }

    /// The word.
    pub fn as_str(&self) -> &'a str
        ensures { result.now ≡ self.now }
    {
        self.word
    }
}

/// What the words of a command line ask for. Arrays are moved by 1 to 64 workers; 1 is the program's own thread.
#[derive(Debug, Drop)]
pub enum Asked<'a> {
    /// A session from standard input to standard output, on an empty workbook, or on the history whose text comes first.
    Run {
        resume: bool,
        workers: u8,
    },
    /// A session on the history that a journal has, which keeps each change there; or on the history whose text comes first,
    /// with which it begins the journal.
    RunKept {
        journal: FilePath<'a>,
        resume: bool,
        workers: u8,
    },
    /// Whether standard input is the text of a workbook or of a history.
    Check,
    /// The text of the history whose one edit is the load of the workbook text on standard input.
    Upgrade,
    /// A journal made anew, with the same edits.
    Compact {
        journal: FilePath<'a>,
    },
    /// A desk of 1 to 16 seats on a port, or on any port where that is 0; perhaps on the history whose text is standard
    /// input.
    Serve {
        port: u16,
        seats: u8,
        resume: bool,
        workers: u8,
    },
    /// A desk of 1 to 16 seats on a port, or on any port where that is 0, on the history that a journal has, which keeps each
    /// change there.
    ServeKept {
        journal: FilePath<'a>,
        port: u16,
        seats: u8,
        workers: u8,
    },
}

/// Where a desk listens.
#[derive(Debug, Drop)]
pub enum Place<'a> {
    /// On a port of this machine, or on any port where that is 0.
    Port(u16),
    /// On a socket, which is the file at a path.
    Socket(FilePath<'a>),
}

/// A desk that stays: of 1 to 16 seats, each lent to one connection after another.
#[derive(Debug, Drop)]
pub struct Stay<'a> {
    /// Where it listens.
    pub place: Place<'a>,
    /// How many seats there are.
    pub seats: u8,
    /// After how many seconds without a byte a connection is ended, at most 86,400; never where that is 0.
    pub idle: u32,
    /// Whether it tells nothing of its connections.
    pub quiet: bool,
    /// How many workers move arrays.
    pub workers: u8,
}

/// What the words of a command line ask for: what comes to its own end, or a desk that stays until it is stopped.
#[derive(Debug, Drop)]
pub enum Wanted<'a> {
    /// What comes to its own end.
    Once(Asked<'a>),
    /// A desk that stays.
    Stay(Stay<'a>),
    /// A desk that stays, on the history that a journal has, which keeps each change there.
    StayKept {
        journal: FilePath<'a>,
        stay: Stay<'a>,
    },
}

/// Why the words of a command line ask for nothing.
#[derive(Debug, Drop)]
pub enum CommandErr {
    /// They ask for help or for the version, which this prints.
    Help(clap::Error),
    /// clap refuses them, and says why in its error.
    BadCommandLine(clap::Error),
    /// clap refuses nothing of them, but what it finds asks for nothing: these options don't go together, or one is missing.
    NothingMeant(Misfit),
    /// A growth was refused.
    NoMemory,
}

/// What the words ask for, the program's own name first.
pub fn command_of<'a>(alloc: Global, words: &'a [&'a str]) -> Result<Wanted<'a>, CommandErr>
    ensures asked { IfOk result (Asks (texts words.now)) }
    ensures refused { IfErr result (Refuses (texts words.now)) }
    ensures only { (wanted : Wanted) → Asks (texts words.now) wanted
        → MatchResult result (λ given. given ≡ wanted) (λ cause. cause ≡ CommandErr.NoMemory) }
{
    let command = program(alloc).map_err(|_| CommandErr::NoMemory)?;
    match command.try_get_matches_from(words) {
        Ok(matches) => { read_off(&matches).ok_or(CommandErr::NothingMeant(misfit_in(&matches))) }
        Err(error) => Err(error_of(error)),
    }
}

// An error of clap's, as the program tells it.
fn error_of(error: clap::Error) -> CommandErr
    ensures { Tells error result }
{
    match error.kind() {
        ErrorKind::DisplayHelp | ErrorKind::DisplayVersion => CommandErr::Help(error),
        ErrorKind::OutOfMemory => CommandErr::NoMemory,
        _ => CommandErr::BadCommandLine(error),
    }
}

// The program's commands and their options.
fn program<'a>(alloc: Global) -> Result<Command<'a>, AllocError>
    ensures { IfOk result (λ command. app_of command ≡ spec.program) }
{
    Command::new(alloc, "workbook")
        .about("A shared workbook of whole-number arrays with selective undo")
        .version(VERSION)
        .subcommand_required(true)
        .subcommand(run_command(alloc)?)?
        .subcommand(check_command(alloc))?
        .subcommand(upgrade_command(alloc))?
        .subcommand(compact_command(alloc)?)?
        .subcommand(serve_command(alloc)?)
}

// The command `run` with its options.
fn run_command<'a>(alloc: Global) -> Result<Command<'a>, AllocError>
    ensures { IfOk result (λ command. (shape_of command ≡ spec.run_command)
        × ((fields_of command).has_globals ≡ false)) }
{
    Command::new(alloc, "run")
        .about("Answers each request line of standard input on standard output")
        .after_help(RUN_EXAMPLE)
        .arg(resume_flag(alloc, RUN_RESUME))?
        .arg(journal_option(alloc))?
        .arg(workers_option(alloc))
}

// The command `check`.
fn check_command<'a>(alloc: Global) -> Command<'a>
    ensures { (shape_of result ≡ spec.check_command) × ((fields_of result).has_globals ≡ false) }
{
    Command::new(alloc, "check")
        .about(
            "Tells whether standard input is the text of a workbook or of a history, and how much it has",
        )
        .after_help(CHECK_EXAMPLE)
}

// The command `upgrade`.
fn upgrade_command<'a>(alloc: Global) -> Command<'a>
    ensures { (shape_of result ≡ spec.upgrade_command) × ((fields_of result).has_globals ≡ false) }
{
    Command::new(alloc, "upgrade")
        .about("Makes the text of a workbook the text of a history, whose one edit loads it")
        .after_help(UPGRADE_EXAMPLE)
}

// The command `compact` with its file.
fn compact_command<'a>(alloc: Global) -> Result<Command<'a>, AllocError>
    ensures { IfOk result (λ command. (shape_of command ≡ spec.compact_command)
        × ((fields_of command).has_globals ≡ false)) }
{
    Command::new(alloc, "compact")
        .about("Makes a journal anew, of one line that has its whole history")
        .after_help(COMPACT_EXAMPLE)
        .arg(file_word(alloc))
}

// The command `serve` with its options.
fn serve_command<'a>(alloc: Global) -> Result<Command<'a>, AllocError>
    ensures { IfOk result (λ command. (shape_of command ≡ spec.serve_command)
        × ((fields_of command).has_globals ≡ false)) }
{
    bare_serve(alloc)
        .arg(port_option(alloc))?
        .arg(seats_option(alloc))?
        .arg(stay_flag(alloc))?
        .arg(socket_option(alloc))?
        .arg(idle_option(alloc))?
        .arg(quiet_flag(alloc))?
        .arg(resume_flag(alloc, SERVE_RESUME))?
        .arg(journal_option(alloc))?
        .arg(workers_option(alloc))
}

// The command `serve` without its options.
fn bare_serve<'a>(alloc: Global) -> Command<'a>
    ensures { (shape_of result ≡ new_shape (codes "serve")) × ((fields_of result).has_globals ≡ false) }
{
    Command::new(alloc, "serve")
        .about("Answers the request lines of each seat on a connection of its own")
        .after_help(SERVE_EXAMPLE)
}

// Whether the text of a history comes first, and what help says of that.
fn resume_flag<'a>(alloc: Global, help: &'a str) -> Arg<'a>
    ensures { (rule_of result ≡ spec.resume_option) × (result.global ≡ false) }
{
    Arg::new(alloc, "resume")
        .long("resume")
        .help(help)
        .action(ArgAction::SetTrue)
}

// The file that each change is kept in.
fn journal_option<'a>(alloc: Global) -> Arg<'a>
    ensures { (rule_of result ≡ spec.journal_option) × (result.global ≡ false) }
{
    Arg::new(alloc, "journal")
        .long("journal")
        .help(JOURNAL)
        .action(ArgAction::Set)
}

// The journal that is made anew.
fn file_word<'a>(alloc: Global) -> Arg<'a>
    ensures { (rule_of result ≡ spec.file_word) × (result.global ≡ false) }
{
    Arg::new(alloc, "file")
        .required(true)
        .action(ArgAction::Set)
}

// How many workers move arrays.
fn workers_option<'a>(alloc: Global) -> Arg<'a>
    ensures { (rule_of result ≡ spec.workers_option) × (result.global ≡ false) }
{
    Arg::new(alloc, "workers")
        .long("workers")
        .help(WORKERS)
        .action(ArgAction::Set)
        .value_parser(clap::value_parser!(u8).range(1..=64))
}

// The port to listen on.
fn port_option<'a>(alloc: Global) -> Arg<'a>
    ensures { (rule_of result ≡ spec.port_option) × (result.global ≡ false) }
{
    Arg::new(alloc, "port")
        .long("port")
        .help(PORT)
        .action(ArgAction::Set)
        .value_parser(clap::value_parser!(u16))
}

// How many connections are accepted.
fn seats_option<'a>(alloc: Global) -> Arg<'a>
    ensures { (rule_of result ≡ spec.seats_option) × (result.global ≡ false) }
{
    Arg::new(alloc, "seats")
        .long("seats")
        .help(SEATS)
        .required(true)
        .action(ArgAction::Set)
        .value_parser(clap::value_parser!(u8).range(1..=16))
}

// The file of a socket in the place of the port.
fn socket_option<'a>(alloc: Global) -> Arg<'a>
    ensures { (rule_of result ≡ spec.socket_option) × (result.global ≡ false) }
{
    Arg::new(alloc, "socket")
        .long("socket")
        .help(SOCKET)
        .action(ArgAction::Set)
}

// Whether a seat is lent again.
fn stay_flag<'a>(alloc: Global) -> Arg<'a>
    ensures { (rule_of result ≡ spec.stay_option) × (result.global ≡ false) }
{
    Arg::new(alloc, "stay")
        .long("stay")
        .help(STAY)
        .action(ArgAction::SetTrue)
}

// After how many seconds a connection is ended that is idle.
fn idle_option<'a>(alloc: Global) -> Arg<'a>
    ensures { (rule_of result ≡ spec.idle_option) × (result.global ≡ false) }
{
    Arg::new(alloc, "idle")
        .long("idle")
        .help(IDLE)
        .action(ArgAction::Set)
        .value_parser(clap::value_parser!(u32).range(0..=86400))
}

// Whether nothing is told of connections.
fn quiet_flag<'a>(alloc: Global) -> Arg<'a>
    ensures { (rule_of result ≡ spec.quiet_option) × (result.global ≡ false) }
{
    Arg::new(alloc, "quiet")
        .long("quiet")
        .help(QUIET)
        .action(ArgAction::SetTrue)
}

// What the matched words ask for.
fn read_off<'a>(matches: &ArgMatches<'a>) -> Option<Wanted<'a>>
    ensures { MatchOption result
        ((wanted : Wanted) → IsMeant (subcommand_rows_of matches.now) wanted → ⊥)
        (IsMeant (subcommand_rows_of matches.now)) }
{
    let (name, found) = matches.subcommand()?;
    asked_by(name, found)
}

// What the command of this name asks for by what was found for its options.
fn asked_by<'a>(name: &str, found: &ArgMatches<'a>) -> Option<Wanted<'a>>
    ensures { MatchOption result
        ((wanted : Wanted) → MeansAny name.now (rows_of (found_of found.now)) wanted → ⊥)
        (MeansAny name.now (rows_of (found_of found.now))) }
{
    match name {
        "serve" => serve_of(found),
        _ => match once_of(name, found) {
            Some(asked) => Some(Wanted::Once(asked)),
            None => None,
        },
    }
}

// What the command of this name asks for that is no desk.
fn once_of<'a>(name: &str, found: &ArgMatches<'a>) -> Option<Asked<'a>>
    requires { name.now ≢ codes "serve" }
    ensures { MatchOption result
        ((asked : Asked) → Means name.now (rows_of (found_of found.now)) asked → ⊥)
        (Means name.now (rows_of (found_of found.now))) }
{
    match name {
        "run" => run_of(found),
        "check" => Some(Asked::Check),
        "upgrade" => Some(Asked::Upgrade),
        "compact" => compact_of(found),
        _ => None,
    }
}

// What `run` asks for.
fn run_of<'a>(found: &ArgMatches<'a>) -> Option<Asked<'a>>
    ensures { MatchOption result
        ((asked : Asked) → Means (codes "run") (rows_of (found_of found.now)) asked → ⊥)
        (Means (codes "run") (rows_of (found_of found.now))) }
{
    let resume = is_told(found, "resume");
    let workers = workers_of(found)?;
    match path_of(found, "journal") {
        None => Some(Asked::Run { resume, workers }),
        Some(journal) => Some(Asked::RunKept {
            journal,
            resume,
            workers,
        }),
    }
}

// What `compact` asks for.
fn compact_of<'a>(found: &ArgMatches<'a>) -> Option<Asked<'a>>
    ensures { MatchOption result
        ((asked : Asked) → Means (codes "compact") (rows_of (found_of found.now)) asked → ⊥)
        (Means (codes "compact") (rows_of (found_of found.now))) }
{
    match path_of(found, "file") {
        Some(journal) => Some(Asked::Compact { journal }),
        None => None,
    }
}

// What `serve` asks for.
fn serve_of<'a>(found: &ArgMatches<'a>) -> Option<Wanted<'a>>
    ensures { MatchOption result
        ((wanted : Wanted) → MeansAny (codes "serve") (rows_of (found_of found.now)) wanted → ⊥)
        (MeansAny (codes "serve") (rows_of (found_of found.now))) }
{
    if is_told(found, "stay") {
        return stay_of(found);
    }
    match day_of(found) {
        Some(asked) => Some(Wanted::Once(asked)),
        None => None,
    }
}

// What `serve` asks for with `--stay`.
fn stay_of<'a>(found: &ArgMatches<'a>) -> Option<Wanted<'a>>
    requires { is_set (codes "stay") (rows_of (found_of found.now)) ≡ true }
    ensures { MatchOption result
        ((wanted : Wanted) → MeansAny (codes "serve") (rows_of (found_of found.now)) wanted → ⊥)
        (MeansAny (codes "serve") (rows_of (found_of found.now))) }
{
    let place = place_of(found)?;
    let seats = seats_of(found)?;
    let workers = workers_of(found)?;
    let idle = idle_of(found)?.unwrap_or(IDLE_SECONDS);
    let quiet = is_told(found, "quiet");
    // A desk that stays begins with its journal's history, or with the empty workbook.
    if is_told(found, "resume") {
        return None;
    }
    let stay = Stay {
        place,
        seats,
        idle,
        quiet,
        workers,
    };
    match path_of(found, "journal") {
        None => Some(Wanted::Stay(stay)),
        Some(journal) => Some(Wanted::StayKept { journal, stay }),
    }
}

// What `serve` asks for without `--stay`: a desk of one day.
fn day_of<'a>(found: &ArgMatches<'a>) -> Option<Asked<'a>>
    requires { is_set (codes "stay") (rows_of (found_of found.now)) ≡ false }
    ensures { MatchOption result
        ((asked : Asked) → Means (codes "serve") (rows_of (found_of found.now)) asked → ⊥)
        (Means (codes "serve") (rows_of (found_of found.now))) }
{
    let place = place_of(found)?;
    // Only a desk that stays listens on a socket.
    let Place::Port(port) = place else {
        return None;
    };
    let seats = seats_of(found)?;
    let resume = is_told(found, "resume");
    let workers = workers_of(found)?;
    // Only a desk that stays ends connections that are idle, and tells of them.
    if idle_of(found)?.is_some() || is_told(found, "quiet") {
        return None;
    }
    match path_of(found, "journal") {
        None => Some(Asked::Serve {
            port,
            seats,
            resume,
            workers,
        }),
        // A desk's journal has its own history, and no other is taken into it.
        Some(_) if resume => None,
        Some(journal) => Some(Asked::ServeKept {
            journal,
            port,
            seats,
            workers,
        }),
    }
}

// Where the desk listens: on a port, or on a socket.
fn place_of<'a>(found: &ArgMatches<'a>) -> Option<Place<'a>>
    ensures { MatchOption result
        ((place : Place) → IsPlace (rows_of (found_of found.now)) place → ⊥)
        (IsPlace (rows_of (found_of found.now))) }
{
    let port = port_of(found)?;
    match path_of(found, "socket") {
        None => match port {
            Some(port) => Some(Place::Port(port)),
            None => None,
        },
        Some(path) => match port {
            Some(_) => None,
            None => Some(Place::Socket(path)),
        },
    }
}

// The port, if that is told.
fn port_of(found: &ArgMatches) -> Option<Option<u16>>
    ensures { MatchOption result
        ((o : Option ℕ) → IsOptional 16 (codes "port") (rows_of (found_of found.now)) o → ⊥)
        (IsOptional 16 (codes "port") (rows_of (found_of found.now))) }
{
    match found.try_get_one::<u16>("port") {
        Ok(port) => Some(port),
        Err(_) => None,
    }
}

// The number of seats.
fn seats_of(found: &ArgMatches) -> Option<u8>
    ensures { MatchOption result
        ((n : ℕ) → HasNumber 8 (codes "seats") (rows_of (found_of found.now)) n → ⊥)
        (HasNumber 8 (codes "seats") (rows_of (found_of found.now))) }
{
    found.get_one::<u8>("seats")
}

// Whether the flag of this name is set.
fn is_told(found: &ArgMatches, name: &str) -> bool
    ensures { result ≡ is_set name.now (rows_of (found_of found.now)) }
{
    found.get_one::<bool>(name).unwrap_or(false)
}

// After how many seconds an idle connection is ended, if that is told.
fn idle_of(found: &ArgMatches) -> Option<Option<u32>>
    ensures { MatchOption result
        ((o : Option ℕ) → IsOptional 32 (codes "idle") (rows_of (found_of found.now)) o → ⊥)
        (IsOptional 32 (codes "idle") (rows_of (found_of found.now))) }
{
    match found.try_get_one::<u32>("idle") {
        Ok(idle) => Some(idle),
        Err(_) => None,
    }
}

// The path of this name, if there is one.
fn path_of<'a>(found: &ArgMatches<'a>, name: &str) -> Option<FilePath<'a>>
    ensures { result ≡ word_of name.now (rows_of (found_of found.now)) }
{
    match found.get_str(name) {
        Some(word) => Some(FilePath::new(word)),
        None => None,
    }
}

// The number of workers; 1 where it is not told.
fn workers_of(found: &ArgMatches) -> Option<u8>
    ensures { MatchOption result
        ((n : ℕ) → HasWorkers (rows_of (found_of found.now)) n → ⊥)
        (HasWorkers (rows_of (found_of found.now))) }
{
    match found.try_get_one::<u8>("workers") {
        Ok(workers) => Some(workers.unwrap_or(1)),
        Err(_) => None,
    }
}

//! `workbook`: a shared workbook of whole-number arrays with selective undo, one JSON line a request.
#![tactic(auto)]

use std::fs::{File, Files as FileSystem, OpenOptions};
use std::io::{self, BufWriter};
use std::net::{Net, TcpListener, TcpStream};
use std::os::fd::AsRawFd;
use std::process::ExitCode;
use std::sync::Wait;
use std::thread::Threads;
use std::time::Clock;
use std::{env, thread};
use wb_arrays::{Crew, Mover};
use wb_command::{Asked, CommandErr, FilePath, Misfit, Place, Stay, Wanted, command_of};
use wb_company::Company;
use wb_connections::Ports;
use wb_lines::{Input, Output};
use wb_program::{do_asked, stay, stay_kept};
use wb_sessions::{FileFault, Files, PutBack, Reason};
use wb_statuses::{BAD_COMMAND_LINE, DONE, INPUT_OR_OUTPUT_FAILED, NO_MEMORY, REFUSED};
use wb_visits::{Landings, Stop, wait_for_stop};

/// The path of a file that has nothing.
const NOTHING: &str = "/dev/null";

/// How the program ends.
#[derive(Drop)]
struct Ending {
    /// The exit status.
    status: u8,
    /// Why, if more is known than the status tells.
    why: Option<Why>,
}

/// Why the program ends.
#[derive(Drop)]
enum Why {
    /// The words of the command line are none, as the reader of words tells it.
    Words(String),
    /// They are options that don't go together, or one is missing.
    Together(Misfit),
    /// The port could not be had, in the system's words.
    Port(io::Error),
    /// The socket could not be had, in the system's words.
    Socket(io::Error),
    /// No journal is kept, or no more of it, in the system's words if it has any.
    File(FileFault, Option<io::Error>),
    /// This change of a journal, from 0, is not granted.
    Line(usize),
    /// The input is refused.
    Refused(Reason),
}

impl Ending {
    /// An end of which the status tells all.
    fn of(status: u8) -> Ending {
        Ending { status, why: None }
    }
}

fn main(rt: HostRuntime) -> ExitCode {
    // They stay open to the end of the program.
    let _held = stand_ins(&rt);
    let ending = match by_words(&rt, &rt) {
        Ok(ending) => ending,
        Err(error) => match error.kind() {
            io::ErrorKind::OutOfMemory => Ending::of(NO_MEMORY),
            _ => Ending::of(INPUT_OR_OUTPUT_FAILED),
        },
    };
    let status = ending.status;
    tell(&rt, ending);
    ExitCode::from(status)
}

// Files in place of standard input, output and errors, where these are closed: without them the next file that is opened has
// their number, and a journal is read as input, or has replies or errors written into it. Input can't be read from the one
// that stands in for it, nor output be written to the other.
fn stand_ins(rt: &HostRuntime) -> (Option<File>, Option<File>, Option<File>) {
    (stand_in(rt, 0), stand_in(rt, 1), stand_in(rt, 2))
}

// A file in place of standard input, output or errors, which is the one of this number, if it is closed.
fn stand_in(rt: &HostRuntime, number: i32) -> Option<File> {
    let is_input = number == 0;
    match OpenOptions::new()
        .read(!is_input)
        .write(is_input)
        .open(rt, NOTHING)
    {
        Ok(file) if file.as_raw_fd() == number => Some(file),
        _ => None,
    }
}

// Says on standard error why the program ends. Where that fails, the exit status stays what it is.
fn tell(rt: &HostRuntime, ending: Ending) {
    let Ending { status, why } = ending;
    let _ = match (status, why) {
        (REFUSED, Some(Why::Refused(reason))) => tell_refused(rt, reason),
        (REFUSED, Some(Why::Line(place))) => tell_line(rt, place),
        (BAD_COMMAND_LINE, why) => tell_of_words(rt, why),
        (INPUT_OR_OUTPUT_FAILED, Some(Why::Port(cause))) => tell_of_port(rt, cause),
        (INPUT_OR_OUTPUT_FAILED, Some(Why::Socket(cause))) => {
            eprintln!(rt; "workbook: the socket was not opened: {cause}")
        }
        (INPUT_OR_OUTPUT_FAILED, Some(Why::File(fault, cause))) => tell_of_file(rt, fault, cause),
        (INPUT_OR_OUTPUT_FAILED, _) => eprintln!(rt; "workbook: input or output failed"),
        (NO_MEMORY, _) => eprintln!(rt; "workbook: no memory"),
        _ => Ok(()),
    };
}

// Says on standard error why an input is refused.
fn tell_refused(rt: &HostRuntime, reason: Reason) -> io::Result<()> {
    match reason {
        Reason::Workbook => eprintln!(rt;
            "workbook: it is the text of a workbook; 'workbook upgrade' makes it that of a history"
        ),
        Reason::History => eprintln!(rt; "workbook: it is the text of a history already"),
        Reason::Journal => eprintln!(rt;
            "workbook: it begins as a journal; 'workbook run --journal' takes one, or tells which line is not granted"
        ),
        Reason::CutShort => eprintln!(rt; "workbook: it is cut short: the last line is not 'end'"),
        Reason::Altered => eprintln!(rt;
            "workbook: it begins and ends as a text of the program, but is not as the program prints one"
        ),
        Reason::NotOurs => eprintln!(rt; "workbook: it does not begin with 'chapel-workbook'"),
        Reason::NotGranted(place) => tell_line(rt, place),
        Reason::LineNotGranted(place) => {
            let line = place.saturating_add(1);
            eprintln!(rt; "workbook: line {line} of the history is not granted")
        }
        Reason::OtherHeading => eprintln!(rt;
            "workbook: its edits are granted, and the lines above them are not what these edits make"
        ),
    }
}

// Says on standard error which line of a journal has the first change that is not granted. Lines count from 1, the header's.
fn tell_line(rt: &HostRuntime, place: usize) -> io::Result<()> {
    let line = place.saturating_add(2);
    eprintln!(rt; "workbook: line {line} of the journal is not granted")
}

// Says on standard error what is wrong with the words of the command line, and where help is.
fn tell_of_words(rt: &HostRuntime, why: Option<Why>) -> io::Result<()> {
    eprintln!(rt; "workbook: bad command line")?;
    match why {
        Some(Why::Words(mistake)) => {
            eprint!(rt; "workbook:")?;
            tell_mistake(rt, mistake.as_str())?;
            eprintln!(rt; "; for more, try '--help'")
        }
        Some(Why::Together(misfit)) => {
            let which = words_of(misfit);
            eprintln!(rt; "workbook: {which}; for more, try '--help'")
        }
        _ => Ok(()),
    }
}

// Which options don't go together, or which one is missing.
fn words_of(misfit: Misfit) -> &'static str {
    match misfit {
        Misfit::StayAndResume => "'--stay' and '--resume' don't go together",
        Misfit::PortAndSocket => "'--port' and '--socket' don't go together",
        Misfit::JournalAndResume => {
            "'--journal' and '--resume' don't go together at a desk: 'workbook run' begins a journal so"
        }
        Misfit::NoPlace => "'--port' or '--socket' is missing",
        Misfit::NoPort => "'--port' is missing",
        Misfit::Socket => "'--socket' goes with '--stay' alone",
        Misfit::Idle => "'--idle' goes with '--stay' alone",
        Misfit::Quiet => "'--quiet' goes with '--stay' alone",
        Misfit::Other => "these options don't go together, or one is missing",
    }
}

// What the reader of words tells first, on one line: it ends with the first line that is empty.
fn tell_mistake(rt: &HostRuntime, mistake: &str) -> io::Result<()> {
    let told = mistake.strip_prefix("error: ").unwrap_or(mistake);
    for line in told.lines() {
        if line.is_empty() {
            return Ok(());
        }
        eprint!(rt; " {}", line.trim())?;
    }
    Ok(())
}

// Says on standard error why a port can't be had.
fn tell_of_port(rt: &HostRuntime, cause: io::Error) -> io::Result<()> {
    match cause.kind() {
        io::ErrorKind::AddrInUse => eprintln!(rt; "workbook: the port is in use: {cause}"),
        io::ErrorKind::PermissionDenied => eprintln!(rt;
            "workbook: the port is not allowed: {cause}"
        ),
        _ => eprintln!(rt; "workbook: the port was not opened: {cause}"),
    }
}

// Says on standard error what is wrong with the file of a journal.
fn tell_of_file(rt: &HostRuntime, fault: FileFault, cause: Option<io::Error>) -> io::Result<()> {
    match fault {
        FileFault::NotOpened => eprint!(rt; "workbook: the journal was not opened")?,
        FileFault::Busy => eprint!(rt; "workbook: the journal is in use")?,
        FileFault::NotAFile => eprint!(rt; "workbook: the journal is no regular file")?,
        FileFault::NotOurs => eprint!(rt; "workbook: the file is no journal")?,
        FileFault::HasLines => {
            eprint!(rt; "workbook: the journal has lines already, and --resume begins a new one")?
        }
        FileFault::NotGranted(_) => eprint!(rt; "workbook: the journal is refused")?,
        FileFault::Failed => eprint!(rt; "workbook: the journal failed")?,
        FileFault::NoMemory => eprint!(rt; "workbook: no memory for the journal")?,
        FileFault::Missing => {
            eprint!(rt; "workbook: there is no such journal, and compact makes none")?
        }
    }
    match cause {
        Some(cause) => eprintln!(rt; ": {cause}"),
        None => eprintln!(rt; ""),
    }
}

// Does what the words of the command line ask for.
fn by_words<
    R: Net<Listener = TcpListener, Stream = TcpStream>
        + FileSystem<File = File>
        + Threads
        + Wait
        + Clock
        + Eprint
        + Sync,
>(rt: &HostRuntime, net: &R) -> io::Result<Ending> {
    let alloc = rt.alloc();
    let mut words = Vec::new(alloc);
    for word in env::args(rt)? {
        words.push(word).map_err(|_| io::ErrorKind::OutOfMemory)?;
    }
    let mut texts = Vec::new(alloc);
    for word in &words {
        texts
            .push(word.as_str())
            .map_err(|_| io::ErrorKind::OutOfMemory)?;
    }
    match command_of(alloc, texts.as_slice()) {
        Ok(wanted) => by_crew(rt, net, wanted),
        Err(CommandErr::Help(error)) => {
            error.print(rt)?;
            Ok(Ending::of(DONE))
        }
        Err(CommandErr::BadCommandLine(error)) => Ok(Ending {
            status: BAD_COMMAND_LINE,
            why: format!(in alloc; "{error}").ok().map(Why::Words),
        }),
        Err(CommandErr::NothingMeant(misfit)) => Ok(Ending {
            status: BAD_COMMAND_LINE,
            why: Some(Why::Together(misfit)),
        }),
        Err(CommandErr::NoMemory) => Ok(Ending::of(NO_MEMORY)),
    }
}

// Does what is asked for, with as many workers as are asked for.
fn by_crew<
    R: Net<Listener = TcpListener, Stream = TcpStream>
        + FileSystem<File = File>
        + Threads
        + Wait
        + Clock
        + Eprint
        + Sync,
>(rt: &HostRuntime, net: &R, wanted: Wanted<'_>) -> io::Result<Ending> {
    match Crew::new(net, workers_wanted(&wanted)) {
        Ok(crew) => match wanted {
            Wanted::Once(asked) => on_devices(rt, net, asked, &crew),
            Wanted::Stay(stay) => until_stopped(rt, net, None, &stay, &crew),
            Wanted::StayKept { journal, stay } => {
                until_stopped(rt, net, Some(journal), &stay, &crew)
            }
        },
        Err(_) => Ok(Ending::of(BAD_COMMAND_LINE)),
    }
}

// How many workers move arrays.
fn workers_wanted(wanted: &Wanted<'_>) -> usize {
    match wanted {
        Wanted::Once(asked) => workers_of(asked),
        Wanted::Stay(stay) => stay.workers as usize,
        Wanted::StayKept { stay, .. } => stay.workers as usize,
    }
}

// How many workers move arrays, of what comes to its own end.
fn workers_of(asked: &Asked<'_>) -> usize {
    match asked {
        Asked::Run { workers, .. } => *workers as usize,
        Asked::RunKept { workers, .. } => *workers as usize,
        Asked::Check => 1,
        Asked::Upgrade => 1,
        Asked::Compact { .. } => 1,
        Asked::Serve { workers, .. } => *workers as usize,
        Asked::ServeKept { workers, .. } => *workers as usize,
    }
}

// Does what is asked for on the real devices, with arrays moved by the mover.
fn on_devices<
    R: Net<Listener = TcpListener, Stream = TcpStream> + Threads + Wait + Sync,
    M: Mover + Sync,
>(rt: &HostRuntime, net: &R, asked: Asked<'_>, mover: &M) -> io::Result<Ending> {
    let alloc = rt.alloc();
    let mut ports = Ports::of(net);
    let mut files = Files::of(rt);
    let mut input = PutBack::new(alloc, Input::new(rt.stdin()));
    let mut output = Output::new(BufWriter::new(alloc, rt.stdout())?);
    let mut reason = None;
    let status = do_asked(
        net,
        alloc,
        asked,
        &mut ports,
        &mut files,
        &mut input,
        &mut output,
        mover,
        &mut reason,
    );
    let why = match (reason, ports.cause(), files.told()) {
        (Some(reason), _, _) => Some(Why::Refused(reason)),
        (None, Some(cause), _) => Some(Why::Port(cause)),
        (None, None, Some(FileFault::NotGranted(place))) => Some(Why::Line(place)),
        (None, None, Some(fault)) => Some(Why::File(fault, files.cause())),
        (None, None, None) => None,
    };
    Ok(Ending { status, why })
}

// Has a desk stay, perhaps with a journal, until the line `stop` comes on standard input.
fn until_stopped<
    R: Net<Listener = TcpListener, Stream = TcpStream>
        + FileSystem<File = File>
        + Threads
        + Wait
        + Clock
        + Eprint
        + Sync,
    M: Mover + Sync,
>(
    rt: &HostRuntime,
    net: &R,
    journal: Option<FilePath<'_>>,
    asked: &Stay<'_>,
    mover: &M,
) -> io::Result<Ending> {
    let alloc = rt.alloc();
    let stop = Stop::new(alloc).map_err(|_| io::ErrorKind::OutOfMemory)?;
    let told = stop.again().map_err(|_| io::ErrorKind::OutOfMemory)?;
    let input = rt.stdin();
    // (the thread waits for a line that may never come, and ends with the program)
    let _waiting = thread::spawn(net, move || wait_for_stop(input, alloc, told)).map_err(
        |_| io::ErrorKind::Other,
    )?;
    let company = Company::new(net, alloc, asked.seats as usize, asked.quiet).map_err(
        |_| io::ErrorKind::OutOfMemory,
    )?;
    let mut ports = Landings::of(net, alloc, stop, asked.idle);
    let mut files = Files::of(rt);
    let mut output = Output::new(BufWriter::new(alloc, rt.stdout())?);
    let status = match journal {
        None => stay(net, alloc, &mut ports, &company, asked, &mut output, mover),
        Some(path) => stay_kept(
            net,
            alloc,
            &mut ports,
            &mut files,
            path.as_str(),
            &company,
            asked,
            &mut output,
            mover,
        ),
    };
    if let Place::Socket(path) = &asked.place {
        ports.take_away(path.as_str());
    }
    let why = match (ports.cause(), files.told()) {
        (Some(cause), _) => Some(match &asked.place {
            Place::Port(_) => Why::Port(cause),
            Place::Socket(_) => Why::Socket(cause),
        }),
        (None, Some(FileFault::NotGranted(place))) => Some(Why::Line(place)),
        (None, Some(fault)) => Some(Why::File(fault, files.cause())),
        (None, None) => None,
    };
    Ok(Ending { status, why })
}

//! The command line, the first run, and texts of workbooks and of none.

use crate::texts::{OTHERS, Text, WORKBOOKS};
use std::alloc::Global;
use std::process::Abort;
use std::test::Fail;
use wb_arrays::{Crew, Mover};
use wb_command::{CommandErr, Wanted, command_of};
use wb_lines::{Input, Output};
use wb_sessions::{check_with, run_with};

const FIRST_RUN: &[u8] =
    b"{\"op\":\"domain\",\"d\":\"D\",\"is\":\"{1..4}\"}\n{\"op\":\"array\",\"a\":\"A\",\"d\":\"D\"}\n{\"op\":\"set\",\"a\":\"A\",\"i\":4,\"v\":9}\n{\"op\":\"undo\"}\n{\"op\":\"get\",\"a\":\"A\",\"i\":4}\n";

const FIRST_REPLIES: &[u8] =
    b"{\"edit\":1,\"n\":3}\n{\"edit\":2,\"n\":7}\n{\"edit\":3,\"n\":1}\n{\"n\":1,\"undone\":3}\n{\"value\":0}\n";

// That a run over these lines prints these replies and ends with status 0.
fn goes_so<M: Mover>(rt: &impl Abort, alloc: Global, lines: &[u8], replies: &[u8], mover: &M) {
    let mut input = Input::new(lines);
    let mut output = Vec::new(alloc);
    let status = run_with(alloc, &mut input, &mut Output::new(&mut output), mover);
    assert!(rt; status == 0 && output.as_slice() == replies);
}

#[test]
fn first_run(rt: HostRuntime) {
    let alone = Crew::alone(&rt);
    goes_so(&rt, rt.alloc(), FIRST_RUN, FIRST_REPLIES, &alone);
}

// Command lines, and what each asks for.
const COMMAND_LINES: &str = r#"
workbook run -> Run { resume: false, workers: 1 }
workbook run --resume -> Run { resume: true, workers: 1 }
workbook run --workers 1 -> Run { resume: false, workers: 1 }
workbook run --workers 64 --resume -> Run { resume: true, workers: 64 }
workbook run --workers 0 -> bad command line
workbook run --workers 65 -> bad command line
workbook run --workers -> bad command line
workbook run --journal plan.wb -> RunKept { journal: FilePath { word: "plan.wb" }, resume: false, workers: 1 }
workbook run --workers 4 --journal=plan.wb -> RunKept { journal: FilePath { word: "plan.wb" }, resume: false, workers: 4 }
workbook run --journal -> bad command line
workbook run --journal plan.wb --journal other.wb -> bad command line
workbook run --journal plan.wb --resume -> RunKept { journal: FilePath { word: "plan.wb" }, resume: true, workers: 1 }
workbook check --journal plan.wb -> bad command line
workbook compact plan.wb -> Compact { journal: FilePath { word: "plan.wb" } }
workbook compact -> bad command line
workbook compact plan.wb other.wb -> bad command line
workbook compact --journal plan.wb -> bad command line
workbook check --workers 2 -> bad command line
workbook check -> Check
workbook upgrade -> Upgrade
workbook upgrade --resume -> bad command line
workbook upgrade saved -> bad command line
workbook -> bad command line
workbook walk -> bad command line
workbook run --fast -> bad command line
workbook --help -> help
workbook run --help -> help
workbook serve --port 0 --seats 1 -> Serve { port: 0, seats: 1, resume: false, workers: 1 }
workbook serve --seats 16 --resume --port 65535 --workers 4 -> Serve { port: 65535, seats: 16, resume: true, workers: 4 }
workbook serve --port 0 --seats 1 --journal plan.wb -> ServeKept { journal: FilePath { word: "plan.wb" }, port: 0, seats: 1, workers: 1 }
workbook serve --port 7000 --seats 2 --journal plan.wb --workers 3 -> ServeKept { journal: FilePath { word: "plan.wb" }, port: 7000, seats: 2, workers: 3 }
workbook serve --port 7000 --seats 2 --journal plan.wb --resume -> JournalAndResume
workbook serve --stay --port 0 --seats 1 -> Stay(Stay { place: Port(0), seats: 1, idle: 300, quiet: false, workers: 1 })
workbook serve --idle 0 --seats 2 --port 7000 --stay --workers 3 -> Stay(Stay { place: Port(7000), seats: 2, idle: 0, quiet: false, workers: 3 })
workbook serve --stay --port 0 --seats 1 --journal plan.wb --idle 86400 -> StayKept { journal: FilePath { word: "plan.wb" }, stay: Stay { place: Port(0), seats: 1, idle: 86400, quiet: false, workers: 1 } }
workbook serve --stay --socket plan.socket --seats 4 -> Stay(Stay { place: Socket(FilePath { word: "plan.socket" }), seats: 4, idle: 300, quiet: false, workers: 1 })
workbook serve --quiet --stay --port 0 --seats 1 -> Stay(Stay { place: Port(0), seats: 1, idle: 300, quiet: true, workers: 1 })
workbook serve --stay --socket plan.socket --port 0 --seats 4 -> PortAndSocket
workbook serve --stay --seats 4 -> NoPlace
workbook serve --socket plan.socket --seats 4 -> Socket
workbook serve --stay --port 0 --seats 1 --resume -> StayAndResume
workbook serve --port 0 --seats 1 --idle 5 -> Idle
workbook serve --port 0 --seats 1 --quiet -> Quiet
workbook serve --stay --port 0 --seats 1 --idle 86401 -> bad command line
workbook serve --stay=yes --port 0 --seats 1 -> bad command line
workbook serve --port 0 --seats 2 --journal -> bad command line
workbook serve --port 0 --seats 2 --workers 0 -> bad command line
workbook serve --port 0 --seats 2 --workers 65 -> bad command line
workbook serve -> bad command line
workbook serve --port 0 -> bad command line
workbook serve --seats 2 -> NoPort
workbook serve --port 65536 --seats 2 -> bad command line
workbook serve --port -1 --seats 2 -> bad command line
workbook serve --port http --seats 2 -> bad command line
workbook serve --port 0 --seats 0 -> bad command line
workbook serve --port 0 --seats 17 -> bad command line
workbook serve --port 0 --seats 2 now -> bad command line
"#;

// What a command line asks for.
fn asked(alloc: Global, line: &str) -> Result<String, Fail> {
    let mut words = Vec::new(alloc);
    for word in line.split_whitespace() {
        words.push(word)?;
    }
    match command_of(alloc, words.as_slice()) {
        Ok(Wanted::Once(asked)) => Ok(format!(in alloc; "{asked:?}")?),
        Ok(wanted) => Ok(format!(in alloc; "{wanted:?}")?),
        Err(CommandErr::Help(_)) => Ok(String::from_str(alloc, "help")?),
        Err(CommandErr::BadCommandLine(_)) => Ok(String::from_str(alloc, "bad command line")?),
        Err(CommandErr::NothingMeant(misfit)) => Ok(format!(in alloc; "{misfit:?}")?),
        Err(CommandErr::NoMemory) => Ok(String::from_str(alloc, "no memory")?),
    }
}

// That each row's command line asks for what stands behind it.
fn all_ask(rt: &impl Abort, alloc: Global, rows: &str) -> Result<(), Fail> {
    for row in rows.trim().lines() {
        let (line, wanted) = row.split_once(" -> ").ok_or("an arrow")?;
        let found = asked(alloc, line)?;
        assert!(rt; found.as_str() == wanted, "{line} -> {found}");
    }
    Ok(())
}

#[test]
fn command_lines(rt: HostRuntime) -> Result<(), Fail> {
    all_ask(&rt, rt.alloc(), COMMAND_LINES)
}

// Checks each text, and compares what is printed of it and the exit status.
fn judge<M: Mover>(rt: &impl Abort, alloc: Global, texts: &[Text], status: u8, mover: &M) {
    for (text, printed) in texts {
        let mut input = Input::new(*text);
        let mut output = Vec::new(alloc);
        let judged = check_with(
            alloc,
            &mut input,
            &mut Output::new(&mut output),
            mover,
            &mut None,
        );
        assert!(rt; judged == status && output.as_slice() == *printed);
    }
}

#[test]
fn workbook_text(rt: HostRuntime) {
    let alone = Crew::alone(&rt);
    judge(&rt, rt.alloc(), &WORKBOOKS, 0, &alone);
    judge(&rt, rt.alloc(), &OTHERS, 1, &alone);
}

//! Files that are opened or refused, and a session that is cut off in each call.
ghost use Rattle.wb_kept.specs.Keeping.{IsKept};
ghost use Rattle.wb_kept_tests.specs.Tallies.{Grants};

use crate::files::NEVER;
use crate::tally::{Tally, answer, make};
use std::alloc::{AllocError, Global};
use std::fs;
use std::test::Fail;
use wb_keep::START;
use wb_keep::disk::{Device, MemoryFile, open_file};
use wb_kept::{Changes, Kept, KeptEnd, OpenKeptErr, open, serve_kept};
use wb_lines::{Input, Output};

const PATH: &str = "wb_kept_session.log";

/// What a file stands for, or why it is refused.
fn state_of(alloc: Global, bytes: &[u8]) -> Result<Result<u8, OpenKeptErr>, AllocError> {
    let file = MemoryFile::new(alloc, bytes.to_vec(alloc)?, NEVER, 0);
    match open::<Tally, u8, _, _>(alloc, &make, 0u8, file, bytes) {
        Ok(kept) => Ok(Ok(kept.state)),
        Err((error, _)) => Ok(Err(error)),
    }
}

/// Serves the lines. Whether the session ends so, with these replies.
fn is_served<D: Device>(
    alloc: Global,
    kept: &mut Kept<u8, D>,
    lines: &[u8],
    end: KeptEnd,
    replies: &[u8],
) -> bool
    requires { IsKept 0 Grants D.seen D.may_leave kept.old }
{
    let answer = |state: &mut u8, line: &[u8], changes: &mut Changes| answer(
        alloc, state, line, changes,
    );
    let mut written = Vec::new(alloc);
    let ended = serve_kept::<Tally, u8, _, _, _, _>(
        alloc,
        &answer,
        kept,
        &mut Input::new(lines),
        &mut Output::new(&mut written),
    );
    ended == end && written.as_slice() == replies
}

/// What is left of a file, if all went well.
fn left_if(alloc: Global, is_well: bool, left: &[u8]) -> Result<Option<Vec<u8>>, AllocError> {
    if is_well {
        return Ok(Some(left.to_vec(alloc)?));
    }
    Ok(None)
}

/// Serves the lines over a new file, until it is cut off in the call after so many. What is left of it, where the session ends
/// so with these replies.
fn left_of(
    alloc: Global,
    lines: &[u8],
    calls: usize,
    torn: usize,
    end: KeptEnd,
    replies: &[u8],
) -> Result<Option<Vec<u8>>, AllocError> {
    let held = b"chapel-workbook 3\n up\n#";
    let file = MemoryFile::new(alloc, held.to_vec(alloc)?, calls, torn);
    match open::<Tally, u8, _, _>(alloc, &make, 0u8, file, held) {
        Ok(mut kept) => {
            let is_well = is_served(alloc, &mut kept, lines, end, replies);
            left_if(alloc, is_well, kept.log.device.left())
        }
        Err((_, file)) => {
            let is_well = end == KeptEnd::DiskFault(0) && replies.is_empty();
            left_if(alloc, is_well, file.left())
        }
    }
}

/// What a new file stands for that is cut off so, where the session ends so with these replies.
fn state_after(
    alloc: Global,
    lines: &[u8],
    calls: usize,
    torn: usize,
    end: KeptEnd,
    replies: &[u8],
) -> Result<Option<Result<u8, OpenKeptErr>>, AllocError> {
    match left_of(alloc, lines, calls, torn, end, replies)? {
        Some(left) => Ok(Some(state_of(alloc, &left)?)),
        None => Ok(None),
    }
}

/// Whether a file is refused, and handed back as it was.
fn is_refused(alloc: Global, bytes: &[u8]) -> Result<bool, AllocError> {
    let file = MemoryFile::new(alloc, bytes.to_vec(alloc)?, NEVER, 0);
    match open::<Tally, u8, _, _>(alloc, &make, 0u8, file, bytes) {
        Ok(_) => Ok(false),
        Err((_, file)) => Ok(file.bytes() == bytes),
    }
}

/// Files, and what they stand for, or why they are refused.
const FILES: &[(&[u8], Result<u8, OpenKeptErr>)] = &[
    (b"", Ok(0)),
    (b"chapel-workbook 3\n up\n+up\n up\n+up\n# up\n", Ok(3)),
    (
        b"chapel-workbook 3\n up\n down\n#",
        Err(OpenKeptErr::NotGranted(1)),
    ),
    (b"x", Err(OpenKeptErr::NotOurs)),
];

#[test]
fn files_are_opened_or_refused(rt: HostRuntime) -> Result<(), Fail> {
    for (bytes, state) in FILES {
        assert!(rt; state_of(rt.alloc(), bytes)? == *state);
    }
    assert!(rt; is_refused(rt.alloc(), b"chapel-workbook 3\n up\n down\nx")?);
    Ok(())
}

#[test]
fn questions_make_no_call(rt: HostRuntime) -> Result<(), Fail> {
    // To open the file takes three calls.
    let left = left_of(
        rt.alloc(),
        b"how many\nhow many\n",
        3,
        0,
        KeptEnd::Done(2),
        b"b\nb\n",
    )?;
    assert!(rt; left.as_deref() == Some(b"chapel-workbook 3\n up\n#".as_slice()));
    Ok(())
}

/// Serves two lines over the file at the path, which is made where it is missing. Whether both are served, with these
/// replies.
fn is_served_at(rt: &HostRuntime, lines: &[u8], replies: &[u8]) -> bool {
    let Ok((file, held)) = open_file(rt, PATH, &START) else {
        return false;
    };
    match open::<Tally, u8, _, _>(rt.alloc(), &make, 0u8, file, &held) {
        Ok(mut kept) => { is_served(rt.alloc(), &mut kept, lines, KeptEnd::Done(2), replies) }
        Err(_) => false,
    }
}

#[test]
fn a_real_file_outlives_its_sessions(rt: HostRuntime) -> Result<(), Fail> {
    let _ = fs::remove_file(&rt, PATH);
    assert!(rt; is_served_at(&rt, b"up\ntwice\n", b"ok\nok\n"));
    assert!(rt; is_served_at(&rt, b"how many\nup\n", b"d\nok\n"));
    assert!(rt;
        fs::read(&rt, PATH)?.as_slice() == b"chapel-workbook 3\n+up\n+up\n up\n up\n#".as_slice()
    );
    fs::remove_file(&rt, PATH)?;
    Ok(())
}

#[test]
fn a_session_is_cut_off_in_each_call(rt: HostRuntime) -> Result<(), Fail> {
    let alloc = rt.alloc();
    let lines = b"up\ntwice\nhow many\nup\n".as_slice();
    let state = state_after(alloc, lines, NEVER, 0, KeptEnd::Done(4), b"ok\nok\ne\nok\n")?;
    assert!(rt; state == Some(Ok(5)));
    for calls in 0..5 {
        for torn in 0..20 {
            let state = state_after(alloc, lines, calls, torn, KeptEnd::DiskFault(0), b"")?;
            assert!(rt; state == Some(Ok(1)) || state == Some(Ok(5)));
        }
    }
    Ok(())
}

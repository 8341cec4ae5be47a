//! Journals that are made anew.

use std::alloc::{AllocError, Global};
use std::process::Abort;
use std::test::Fail;
use wb_arrays::{Crew, Mover};
use wb_keep::disk::MemoryFile;
use wb_lines::{Input, Output};
use wb_sessions::{FileFault, compact_with, run_kept_with};

// More calls than are made here.
const NEVER: usize = 1000;

const HELD: &[u8] =
    b"chapel-workbook 3\n {\"d\":\"D\",\"is\":\"{1..2}\",\"map\":\"none\",\"op\":\"domain\"}\n {\"a\":\"A\",\"d\":\"D\",\"op\":\"array\"}\n {\"a\":\"A\",\"i\":2,\"op\":\"set\",\"v\":9}\n {\"k\":3,\"op\":\"undo\"}\n#";

const ANEW: &[u8] =
    b"chapel-workbook 3\n {\"op\":\"resume\",\"text\":\"chapel-workbook 2\\narray A over D [0, 0]\\nrect D {1..2} none\\nhistory 3\\n+ {\\\"d\\\":\\\"D\\\",\\\"is\\\":\\\"{1..2}\\\",\\\"map\\\":\\\"none\\\",\\\"op\\\":\\\"domain\\\"}\\n+ {\\\"a\\\":\\\"A\\\",\\\"d\\\":\\\"D\\\",\\\"op\\\":\\\"array\\\"}\\n- {\\\"a\\\":\\\"A\\\",\\\"i\\\":2,\\\"op\\\":\\\"set\\\",\\\"v\\\":9}\\nend\\n\"}\n#";

const BEHIND: &[u8] = b" {\"k\":3,\"op\":\"redo\"}\n#";

const REFUSED: &[u8] = b"refused\n";

const REPLIES: &[u8] = b"{\"n\":1,\"redone\":3}\n{\"value\":9}\n";

// Files with lines that no history begins with, and the first of them, from 0, that is not granted.
const STRANGE: [(&[u8], usize); 6] = [
    (b"chapel-workbook 3\n \n#", 0),
    (b"chapel-workbook 3\n {\"op\":\"resume\"}\n#", 0),
    (
        b"chapel-workbook 3\n {\"op\":\"resume\",\"text\":\"chapel-workbook 1\\nend\\n\"}\n#",
        0,
    ),
    (
        b"chapel-workbook 3\n {\"op\": \"resume\",\"text\":\"chapel-workbook 2\\nhistory 0\\nend\\n\"}\n#",
        0,
    ),
    (
        b"chapel-workbook 3\n {\"op\":\"resume\",\"text\":\"chapel-workbook 2\\nhistory 0\\nend\\n\",\"x\":1}\n#",
        0,
    ),
    (
        b"chapel-workbook 3\n {\"d\":\"D\",\"is\":\"{1..2}\",\"map\":\"none\",\"op\":\"domain\"}\n {\"op\":\"resume\",\"text\":\"chapel-workbook 2\\nhistory 0\\nend\\n\"}\n#",
        1,
    ),
];

// How a journal came out that was to be made anew, what was printed, and what is left of its file.
#[derive(Drop)]
struct Outcome {
    status: u8,
    fault: Option<FileFault>,
    written: Vec<u8>,
    left: Vec<u8>,
}

// A file that holds these bytes, and does so many calls, made anew.
fn made_anew<M: Mover>(
    alloc: Global,
    held: &[u8],
    calls: usize,
    mover: &M,
) -> Result<Outcome, AllocError> {
    let file = MemoryFile::new(alloc, held.to_vec(alloc)?, calls, 0);
    let mut written = Vec::new(alloc);
    let run = compact_with(
        alloc,
        &(),
        file,
        held,
        &mut Output::new(&mut written),
        mover,
    );
    let left = run.file.left().to_vec(alloc)?;
    Ok(Outcome {
        status: run.status,
        fault: run.fault,
        written,
        left,
    })
}

// That a file goes on as the journal: its third edit is redone.
fn goes_on<M: Mover>(
    rt: &impl Abort,
    alloc: Global,
    held: &[u8],
    mover: &M,
) -> Result<(), AllocError> {
    let file = MemoryFile::new(alloc, held.to_vec(alloc)?, NEVER, 0);
    let mut written = Vec::new(alloc);
    let run = run_kept_with(
        alloc,
        file,
        held,
        &mut Input::new(
            b"{\"op\":\"redo\",\"k\":3}\n{\"op\":\"get\",\"a\":\"A\",\"i\":2}\n".as_slice(),
        ),
        &mut Output::new(&mut written),
        mover,
    );
    assert!(rt; run.status == 0);
    assert_eq!(rt; written.as_slice(), REPLIES);
    assert!(rt; run.file.bytes().ends_with(BEHIND));
    Ok(())
}

#[test]
fn a_journal_is_made_anew(rt: HostRuntime) -> Result<(), Fail> {
    let alone = Crew::alone(&rt);
    let anew = made_anew(rt.alloc(), HELD, NEVER, &alone)?;
    assert!(rt; anew.status == 0 && anew.fault.is_none() && anew.written.is_empty());
    assert_eq!(rt; anew.left.as_slice(), ANEW);
    // A journal that is made anew once more stays the same.
    let again = made_anew(rt.alloc(), ANEW, NEVER, &alone)?;
    assert!(rt; again.status == 0);
    assert_eq!(rt; again.left.as_slice(), ANEW);
    goes_on(&rt, rt.alloc(), ANEW, &alone)?;
    Ok(())
}

#[test]
fn a_crash_leaves_the_old_file_or_the_new_one(rt: HostRuntime) -> Result<(), Fail> {
    let alone = Crew::alone(&rt);
    // To open the file takes three calls, and to put the new one in its place four.
    for calls in 0..7 {
        let cut = made_anew(rt.alloc(), HELD, calls, &alone)?;
        assert!(rt; cut.status == 3 && cut.fault == Some(FileFault::Failed));
        assert!(rt; cut.written.is_empty());
        goes_on(&rt, rt.alloc(), &cut.left, &alone)?;
    }
    Ok(())
}

#[test]
fn strange_lines_are_refused(rt: HostRuntime) -> Result<(), Fail> {
    let alone = Crew::alone(&rt);
    // (The file does no call, so a call on it would be told as a fault.)
    for (held, place) in STRANGE {
        let refused = made_anew(rt.alloc(), held, 0, &alone)?;
        assert!(rt; refused.status == 1 && refused.fault == Some(FileFault::NotGranted(place)));
        assert_eq!(rt; refused.written.as_slice(), REFUSED);
        assert_eq!(rt; refused.left.as_slice(), held);
    }
    let foreign = made_anew(rt.alloc(), b"hello\n", 0, &alone)?;
    assert!(rt; foreign.status == 3 && foreign.fault == Some(FileFault::NotOurs));
    assert!(rt; foreign.written.is_empty());
    Ok(())
}

//! Logs that are opened, and cut off in each call and at each byte.
ghost use Rattle.wb_keep.specs.Disk.Calls.{seen_after, MayLeave};
ghost use Rattle.wb_keep.specs.Keep.{IsSettled};

use crate::files::{NEVER, left_with, opened};
use std::alloc::{AllocError, Global};
use std::test::Fail;
use wb_keep::disk::MemoryFile;
use wb_keep::{LineLog, OpenErr, open};

const FIRST: &[u8] = b"chapel-workbook 3\n one\n#";

/// Lines as one text, each with a line end.
fn joined(alloc: Global, lines: &[Vec<u8>]) -> Result<Vec<u8>, AllocError> {
    let mut text = Vec::new(alloc);
    for line in lines {
        text.extend_from_slice(line)?;
        text.extend_from_slice(b"\n")?;
    }
    Ok(text)
}

/// What a file stands for, as one text, or none if it is refused.
fn text_of(alloc: Global, bytes: &[u8]) -> Result<Option<Vec<u8>>, AllocError> {
    let file = MemoryFile::new(alloc, bytes.to_vec(alloc)?, NEVER, 0);
    let Ok((_, lines)) = open(alloc, file, bytes) else {
        return Ok(None);
    };
    Ok(Some(joined(alloc, &lines)?))
}

/// Whether a file stands for these lines, each with a line end, or for none if it is refused.
fn stands_for(alloc: Global, bytes: &[u8], text: Option<&[u8]>) -> Result<bool, AllocError> {
    let found = text_of(alloc, bytes)?;
    Ok(found.as_deref() == text)
}

/// Adds a text behind others.
fn add_text(alloc: Global, texts: &mut Vec<Vec<u8>>, text: &[u8]) -> Result<(), AllocError> {
    match texts.push(text.to_vec(alloc)?) {
        Ok(()) => Ok(()),
        Err(_) => Err(AllocError),
    }
}

/// Adds two batches, with so much room behind each that makes the file longer, until one of them fails, and closes the log.
/// Returns how many were acknowledged.
fn acknowledged(alloc: Global, log: &mut LineLog<MemoryFile>, room: usize) -> usize
    requires { IsSettled (λ f. seen_after f.calls) (λ f. MayLeave f.calls) log.old }
{
    if log.append_ahead(alloc, b"two\nthree\n", room).is_err() {
        return 0;
    }
    if log.append_ahead(alloc, b"four\n", room).is_err() {
        return 1;
    }
    // Both are on the disk, whether the room is cut off or not.
    let _ = log.close();
    2
}

/// Opens the file, adds two batches and closes it, until it is cut off in the call after so many. Returns what is left, and
/// how many batches were acknowledged.
fn cut_off(
    alloc: Global,
    bytes: &[u8],
    calls: usize,
    torn: usize,
    room: usize,
) -> Result<(Vec<u8>, usize), AllocError> {
    match opened(alloc, bytes, calls, torn)? {
        Ok(mut log) => {
            let count = acknowledged(alloc, &mut log, room);
            left_with(alloc, log.device.left(), count)
        }
        Err(file) => left_with(alloc, file.left(), 0),
    }
}

/// The number of batches that a text of lines has, or none if it is in between.
fn count_of(text: &[u8]) -> Option<usize> {
    if text == b"one\n".as_slice() {
        return Some(0);
    }
    if text == b"one\ntwo\nthree\n".as_slice() {
        return Some(1);
    }
    if text == b"one\ntwo\nthree\nfour\n".as_slice() {
        return Some(2);
    }
    None
}

/// The number of batches that a file has, or none if it is in between.
fn batches_in(alloc: Global, bytes: &[u8]) -> Result<Option<usize>, AllocError> {
    match text_of(alloc, bytes)? {
        Some(text) => Ok(count_of(&text)),
        None => Ok(None),
    }
}

/// Whether the log of a new file has no line, and the file its start.
fn is_begun(alloc: Global) -> bool {
    let file = MemoryFile::new(alloc, Vec::new(alloc), NEVER, 0);
    match open(alloc, file, b"") {
        Ok((log, lines)) => {
            lines.is_empty() && log.device.bytes() == b"chapel-workbook 3\n#".as_slice()
        }
        Err(_) => false,
    }
}

/// Adds two batches at once. Whether they are acknowledged.
fn are_added(alloc: Global, log: &mut LineLog<MemoryFile>) -> Result<bool, AllocError>
    requires { IsSettled (λ f. seen_after f.calls) (λ f. MayLeave f.calls) log.old }
{
    let mut batches = Vec::new(alloc);
    add_text(alloc, &mut batches, b"one\n two\n")?;
    add_text(alloc, &mut batches, b"\n#three\nno line")?;
    Ok(log.append_all(alloc, &batches).is_ok())
}

/// Whether two batches are added to a new file, which has these bytes then.
fn has_both(alloc: Global, bytes: &[u8]) -> Result<bool, AllocError> {
    match opened(alloc, b"", NEVER, 0)? {
        Ok(mut log) => {
            let are_added = are_added(alloc, &mut log)?;
            Ok(are_added && log.device.bytes() == bytes)
        }
        Err(_) => Ok(false),
    }
}

#[test]
fn a_new_file_is_begun(rt: HostRuntime) -> Result<(), Fail> {
    let alloc = rt.alloc();
    assert!(rt; is_begun(alloc));
    assert!(rt; has_both(alloc, b"chapel-workbook 3\n+one\n  two\n+\n #three\n#")?);
    Ok(())
}

/// Whether a line of any bytes is added to a file, which has these bytes then.
fn has_line(alloc: Global, line: &[u8], bytes: &[u8]) -> Result<bool, AllocError> {
    match opened(alloc, FIRST, NEVER, 0)? {
        Ok(mut log) => {
            let is_added = log.append(alloc, line).is_ok();
            Ok(is_added && log.device.bytes() == bytes)
        }
        Err(_) => Ok(false),
    }
}

#[test]
fn any_bytes_are_kept(rt: HostRuntime) -> Result<(), Fail> {
    let alloc = rt.alloc();
    let file = b"chapel-workbook 3\n one\n+\x010\x011\x02\n 0\x0111\n#".as_slice();
    assert!(rt; has_line(alloc, b"\0\x01\x02\n0\x011\n", file)?);
    assert!(rt; stands_for(alloc, file, Some(b"one\n\0\x01\x02\n0\x011\n"))?);
    Ok(())
}

/// Whether a file with a batch of two lines, but for a zero in place of a byte, stands for these lines.
fn stands_with_hole(alloc: Global, at: usize, text: &[u8]) -> Result<bool, AllocError> {
    let mut left = b"chapel-workbook 3\n one\n+two\n three\n#".to_vec(alloc)?;
    let Some(byte) = left.get_mut(at) else {
        return Ok(false);
    };
    *byte = 0;
    stands_for(alloc, &left, Some(text))
}

#[test]
fn a_batch_with_a_hole_does_not_count(rt: HostRuntime) -> Result<(), Fail> {
    // The batch begins at byte 23, and its last line feed is byte 34.
    for at in 23..36 {
        let text = if at < 35 {
            b"one\n".as_slice()
        } else {
            b"one\ntwo\nthree\n"
        };
        assert!(rt; stands_with_hole(rt.alloc(), at, text)?);
    }
    Ok(())
}

/// Whether a file of someone else is refused, and handed back as it was.
fn is_refused(alloc: Global, bytes: &[u8]) -> Result<bool, AllocError> {
    let file = MemoryFile::new(alloc, bytes.to_vec(alloc)?, NEVER, 0);
    match open(alloc, file, bytes) {
        Ok(_) => Ok(false),
        Err((error, file)) => Ok(error == OpenErr::NotOurs && file.bytes() == bytes),
    }
}

/// Files, and the lines that they stand for, each with a line end; none where they are refused.
const FILES: &[(&[u8], Option<&[u8]>)] = &[
    (b"", Some(b"")),
    (b"chapel-wo", Some(b"")),
    (b"chapel-workbook 3\n", Some(b"")),
    (
        b"chapel-workbook 3\n one\n two\n#three\n",
        Some(b"one\ntwo\n"),
    ),
    (b"chapel-workbook 3\n one\n tw", Some(b"one\n")),
    (b"chapel-workbook 3\n one\n#\0\0\0", Some(b"one\n")),
    (b"chapel-workbook 3\n one\n\0\0\0 two\n#", Some(b"one\n")),
    (
        b"chapel-workbook 3\n+one\n+two\n three\n+four\n#",
        Some(b"one\ntwo\nthree\n"),
    ),
    (b"chapel-workbook 3\n+one\n+two\n", Some(b"")),
    (b"chapel-workbook 2\n one\n", None),
    (b"x", None),
];

#[test]
fn only_our_files_are_opened(rt: HostRuntime) -> Result<(), Fail> {
    for (bytes, text) in FILES {
        assert!(rt; stands_for(rt.alloc(), bytes, *text)?);
    }
    assert!(rt; is_refused(rt.alloc(), b"x")?);
    Ok(())
}

/// How many batches a file has that is opened once more, and cut off again. None if it is refused, or in between.
fn batches_then(
    alloc: Global,
    left: &[u8],
    calls: usize,
    room: usize,
) -> Result<Option<usize>, AllocError> {
    let (left, _) = cut_off(alloc, left, calls, 0, room)?;
    batches_in(alloc, &left)
}

/// Whether a file that is cut off has the batches that were acknowledged, each whole, and stands for the same once it is
/// opened and cut off again.
fn has_acknowledged(
    alloc: Global,
    calls: usize,
    torn: usize,
    room: usize,
) -> Result<bool, AllocError> {
    let (left, count) = cut_off(alloc, FIRST, calls, torn, room)?;
    let Some(found) = batches_in(alloc, &left)? else {
        return Ok(false);
    };
    for again in 0..4 {
        if batches_then(alloc, &left, again, room)? != Some(found) {
            return Ok(false);
        }
    }
    Ok(count <= found)
}

#[test]
fn a_crash_in_each_call_and_at_each_byte(rt: HostRuntime) -> Result<(), Fail> {
    let alloc = rt.alloc();
    for calls in 0..8 {
        for torn in 0..16 {
            assert!(rt; has_acknowledged(alloc, calls, torn, 0)?);
        }
    }
    Ok(())
}

#[test]
fn a_crash_with_room_behind_the_mark(rt: HostRuntime) -> Result<(), Fail> {
    let alloc = rt.alloc();
    // The second batch takes six bytes behind its first one: more than three, and less than twelve.
    for calls in 0..10 {
        for torn in 0..26 {
            assert!(rt; has_acknowledged(alloc, calls, torn, 3)?);
            assert!(rt; has_acknowledged(alloc, calls, torn, 12)?);
        }
    }
    Ok(())
}

/// What a log has after two batches with room for four bytes more, and once it is closed.
fn with_room(alloc: Global) -> Result<Option<(Vec<u8>, Vec<u8>, Vec<u8>)>, AllocError> {
    let Ok(mut log) = opened(alloc, FIRST, NEVER, 0)? else {
        return Ok(None);
    };
    if log.append_ahead(alloc, b"two\n", 4).is_err() {
        return Ok(None);
    }
    let first = log.device.bytes().to_vec(alloc)?;
    if log.append_ahead(alloc, b"3\n", 4).is_err() {
        return Ok(None);
    }
    let second = log.device.bytes().to_vec(alloc)?;
    if log.close().is_err() {
        return Ok(None);
    }
    let closed = log.device.bytes().to_vec(alloc)?;
    Ok(Some((first, second, closed)))
}

#[test]
fn room_is_written_over_and_cut_off(rt: HostRuntime) -> Result<(), Fail> {
    let Some((first, second, closed)) = with_room(rt.alloc())? else {
        return Err(Fail::new("no room was written"));
    };
    assert!(rt; first.as_slice() == b"chapel-workbook 3\n one\n two\n#\0\0\0\0".as_slice());
    assert!(rt; second.as_slice() == b"chapel-workbook 3\n one\n two\n 3\n#\0".as_slice());
    assert!(rt; closed.as_slice() == b"chapel-workbook 3\n one\n two\n 3\n#".as_slice());
    Ok(())
}

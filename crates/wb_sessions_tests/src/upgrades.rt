//! Texts of workbooks made texts of histories, which are judged and gone on from; texts of no workbook; and input and output
//! that fail.

use crate::devices::{AtLimit, Narrow};
use crate::texts::{OTHERS, WORKBOOKS};
use std::alloc::Global;
use std::io::{self, ErrorKind, Read, Write};
use std::process::Abort;
use std::test::Fail;
use wb_arrays::{Crew, Mover};
use wb_lines::{Input, Output};
use wb_sessions::{PutBack, check_with, resume_with, upgrade_with};

const WORKBOOK: &[u8] =
    b"chapel-workbook 1\narray A over D [0, 0, 0, 9]\nrect D {1..4} none\nend\n";

const HISTORY: &[u8] =
    b"chapel-workbook 2\narray A over D [0, 0, 0, 9]\nrect D {1..4} none\nhistory 1\n+ {\"op\":\"load\",\"text\":\"chapel-workbook 1\\narray A over D [0, 0, 0, 9]\\nrect D {1..4} none\\nend\\n\"}\nend\n";

// An object of each kind.
const EVERY_KIND: &[u8] =
    b"chapel-workbook 1\narray A over D [0, 0, 0, -9]\narray B over S [7, 300] irv -70000\narray C over T [1, 9223372036854775807]\nrect D {1..4} cyclicDist(1, [2])\narray E over N []\nassoc N of int {}\nrect P {1..3, 2..8 by -3} none\nsparse Q of P {(1, 2), (3, 8)}\nsparse S of D {2, 4}\nassoc T of text {\"a, }\", \"\xc3\xa9\"}\nend\n";

const HISTORY_OF_EVERY_KIND: &[u8] =
    b"chapel-workbook 2\narray A over D [0, 0, 0, -9]\narray B over S [7, 300] irv -70000\narray C over T [1, 9223372036854775807]\nrect D {1..4} cyclicDist(1, [2])\narray E over N []\nassoc N of int {}\nrect P {1..3, 2..8 by -3} none\nsparse Q of P {(1, 2), (3, 8)}\nsparse S of D {2, 4}\nassoc T of text {\"a, }\", \"\xc3\xa9\"}\nhistory 1\n+ {\"op\":\"load\",\"text\":\"chapel-workbook 1\\narray A over D [0, 0, 0, -9]\\narray B over S [7, 300] irv -70000\\narray C over T [1, 9223372036854775807]\\nrect D {1..4} cyclicDist(1, [2])\\narray E over N []\\nassoc N of int {}\\nrect P {1..3, 2..8 by -3} none\\nsparse Q of P {(1, 2), (3, 8)}\\nsparse S of D {2, 4}\\nassoc T of text {\\\"a, }\\\", \\\"\xc3\xa9\\\"}\\nend\\n\"}\nend\n";

const MORE: &[u8] =
    b"{\"op\":\"get\",\"a\":\"A\",\"i\":4}\n{\"op\":\"undo\"}\n{\"op\":\"size\",\"d\":\"D\"}\n{\"op\":\"redo\",\"k\":1}\n{\"op\":\"get\",\"a\":\"A\",\"i\":4}\n";

const MORE_REPLIES: &[u8] =
    b"{\"value\":9}\n{\"n\":10,\"undone\":1}\n{\"error\":\"E04\",\"name\":\"no-such-name\"}\n{\"n\":10,\"redone\":1}\n{\"value\":9}\n";

const HAS_TWO: &[u8] = b"ok 2 1\n";

const REFUSED: &[u8] = b"refused\n";

// Texts, the exit status after each, and what is printed.
const ROWS: [(&[u8], u8, &[u8]); 12] = [
    (WORKBOOK, 0, HISTORY),
    (EVERY_KIND, 0, HISTORY_OF_EVERY_KIND),
    (
        b"chapel-workbook 1\nend\n",
        0,
        b"chapel-workbook 2\nhistory 1\n+ {\"op\":\"load\",\"text\":\"chapel-workbook 1\\nend\\n\"}\nend\n",
    ),
    (
        b"chapel-workbook 1\nassoc T of text {\"a\"}\nend\n",
        0,
        b"chapel-workbook 2\nassoc T of text {\"a\"}\nhistory 1\n+ {\"op\":\"load\",\"text\":\"chapel-workbook 1\\nassoc T of text {\\\"a\\\"}\\nend\\n\"}\nend\n",
    ),
    (
        b"chapel-workbook 1\narray A over T [128, -32769, 2147483648]\nassoc T of text {\"01234567890123456789012345678901234567890123456789012345678901\xc3\xa9\", \"abcdefghijklmnopqrstuvw\", \"abcdefghijklmnopqrstuvwx\"}\nend\n",
        0,
        b"chapel-workbook 2\narray A over T [128, -32769, 2147483648]\nassoc T of text {\"01234567890123456789012345678901234567890123456789012345678901\xc3\xa9\", \"abcdefghijklmnopqrstuvw\", \"abcdefghijklmnopqrstuvwx\"}\nhistory 1\n+ {\"op\":\"load\",\"text\":\"chapel-workbook 1\\narray A over T [128, -32769, 2147483648]\\nassoc T of text {\\\"01234567890123456789012345678901234567890123456789012345678901\xc3\xa9\\\", \\\"abcdefghijklmnopqrstuvw\\\", \\\"abcdefghijklmnopqrstuvwx\\\"}\\nend\\n\"}\nend\n",
    ),
    (b"", 1, REFUSED),
    (b"chapel-workbook 2\nhistory 0\nend\n", 1, REFUSED),
    (HISTORY, 1, REFUSED),
    (b"\xff", 1, REFUSED),
    (b"{\"op\":\"print\"}\n", 1, REFUSED),
    (HISTORY_OF_EVERY_KIND, 1, REFUSED),
    (
        b"chapel-workbook 1\narray A over D [0, 0, 0, -9]\narray B over S [7, 300] irv -70000\narray C over T [1, 9223372036854775807]\nrect D {1..4} cyclicDist(1, [2])\narray E over N []\nassoc N of int {}\nrect P {1..3, 2..8 by -3} none\nsparse Q of P {(1, 2), (3, 8)}\nsparse S of D {2, 4}\nassoc T of text {\"a, }\", \"\xc3\xa9}x\nend\n",
        1,
        REFUSED,
    ),
];

// Fails at each read.
#[derive(Drop)]
struct Broken {}

impl Read for Broken {
    fn read(&mut self, _buf: &mut [u8]) -> io::Result<usize> {
        Err(io::Error::from(ErrorKind::BrokenPipe))
    }
}

// The exit status after a text, and what is printed.
fn upgraded<M: Mover>(alloc: Global, text: &[u8], mover: &M) -> (u8, Vec<u8>) {
    let mut output = Vec::new(alloc);
    let mut input = Input::new(text);
    let status = upgrade_with(
        alloc,
        &mut input,
        &mut Output::new(&mut output),
        mover,
        &mut None,
    );
    (status, output)
}

// What `check` prints of a text.
fn judged<M: Mover>(alloc: Global, text: &[u8], mover: &M) -> Vec<u8> {
    let mut output = Vec::new(alloc);
    let mut input = Input::new(text);
    let _ = check_with(
        alloc,
        &mut input,
        &mut Output::new(&mut output),
        mover,
        &mut None,
    );
    output
}

#[test]
fn upgraded_texts(rt: HostRuntime) {
    let alone = Crew::alone(&rt);
    for (text, status, printed) in &ROWS {
        let (ended, output) = upgraded(rt.alloc(), text, &alone);
        assert_eq!(rt; ended, *status);
        assert_eq!(rt; output.as_slice(), *printed);
    }
    for (text, printed) in &OTHERS {
        let (ended, output) = upgraded(rt.alloc(), text, &alone);
        assert_eq!(rt; ended, 1);
        assert_eq!(rt; output.as_slice(), *printed);
    }
}

// Each is the text of a history of one edit, with as many objects as the workbook.
#[test]
fn judged_after_an_upgrade(rt: HostRuntime) -> Result<(), Fail> {
    let alone = Crew::alone(&rt);
    assert_eq!(rt; judged(rt.alloc(), HISTORY, &alone).as_slice(), HAS_TWO);
    for (text, printed) in &WORKBOOKS {
        let (ended, output) = upgraded(rt.alloc(), text, &alone);
        assert_eq!(rt; ended, 0);
        let mut wanted = Vec::new(rt.alloc());
        wanted.write_all(printed.strip_suffix(b"\n").ok_or("a line")?)?;
        wanted.write_all(b" 1\n")?;
        assert_eq!(rt;
            judged(rt.alloc(), output.as_slice(), &alone).as_slice(),
            wanted.as_slice()
        );
    }
    Ok(())
}

#[test]
fn resumed_after_an_upgrade(rt: HostRuntime) {
    let alloc = rt.alloc();
    let alone = Crew::alone(&rt);
    let (_, text) = upgraded(alloc, WORKBOOK, &alone);
    let mut input = PutBack::new(alloc, Input::new(text.as_slice().chain(MORE)));
    let mut output = Vec::new(alloc);
    let status = resume_with(
        alloc,
        &mut input,
        &mut Output::new(&mut output),
        &alone,
        &mut None,
    );
    assert_eq!(rt; status, 0);
    assert_eq!(rt; output.as_slice(), MORE_REPLIES);
}

// Input that fails behind each front of the text: nothing is printed.
#[test]
fn failing_input(rt: HostRuntime) -> Result<(), Fail> {
    let alloc = rt.alloc();
    let alone = Crew::alone(&rt);
    for place in 0..=WORKBOOK.len() {
        let front = WORKBOOK.get(..place).ok_or("a place")?;
        let mut input = Input::new(front.chain(Broken {}));
        let mut output = Vec::new(alloc);
        let status = upgrade_with(
            alloc,
            &mut input,
            &mut Output::new(&mut output),
            &alone,
            &mut None,
        );
        assert_eq!(rt; status, 3);
        assert!(rt; output.is_empty());
    }
    Ok(())
}

// Output that fails behind each front of what is to be printed, or at its flush.
fn fails_at_each<M: Mover>(
    rt: &impl Abort,
    alloc: Global,
    text: &[u8],
    printed: &[u8],
    mover: &M,
) -> Result<(), Fail> {
    for limit in 0..=printed.len() {
        let mut input = Input::new(text);
        let mut output = Narrow::new(alloc, limit, AtLimit::FailsAtAll);
        let status = upgrade_with(
            alloc,
            &mut input,
            &mut Output::new(&mut output),
            mover,
            &mut None,
        );
        assert_eq!(rt; status, 3);
        assert_eq!(rt;
            output.taken.as_slice(),
            printed.get(..limit).ok_or("a front")?
        );
    }
    Ok(())
}

#[test]
fn failing_output(rt: HostRuntime) -> Result<(), Fail> {
    let alone = Crew::alone(&rt);
    fails_at_each(&rt, rt.alloc(), WORKBOOK, HISTORY, &alone)?;
    fails_at_each(&rt, rt.alloc(), EVERY_KIND, HISTORY_OF_EVERY_KIND, &alone)?;
    fails_at_each(&rt, rt.alloc(), b"", REFUSED, &alone)
}

//! Texts of histories: printed by a session, judged, and gone on from by a session and by a desk.

use std::alloc::Global;
use std::io::{Read, Write};
use std::net::{Shutdown, TcpListener, TcpStream};
use std::process::Abort;
use std::test::Fail;
use wb_arrays::{Crew, Mover};
use wb_connections::Connections;
use wb_lines::{Input, Output};
use wb_seats::serve_history;
use wb_sessions::{PutBack, Reason, check_with, history_from, resume_with, run_with};

const LINES: &[u8] =
    b"{\"op\":\"domain\",\"d\":\"D\",\"is\":\"{1..4}\"}\n{\"op\":\"array\",\"a\":\"A\",\"d\":\"D\"}\n{\"op\":\"set\",\"a\":\"A\",\"i\":4,\"v\":9}\n{\"op\":\"undo\"}\n{\"op\":\"history\"}\n";

const TOLD: &[u8] =
    b"\n{\"text\":\"chapel-workbook 2\\narray A over D [0, 0, 0, 0]\\nrect D {1..4} none\\nhistory 3\\n+ {\\\"d\\\":\\\"D\\\",\\\"is\\\":\\\"{1..4}\\\",\\\"map\\\":\\\"none\\\",\\\"op\\\":\\\"domain\\\"}\\n+ {\\\"a\\\":\\\"A\\\",\\\"d\\\":\\\"D\\\",\\\"op\\\":\\\"array\\\"}\\n- {\\\"a\\\":\\\"A\\\",\\\"i\\\":4,\\\"op\\\":\\\"set\\\",\\\"v\\\":9}\\nend\\n\"}\n";

const TEXT: &str =
    "chapel-workbook 2\narray A over D [0, 0, 0, 0]\nrect D {1..4} none\nhistory 3\n+ {\"d\":\"D\",\"is\":\"{1..4}\",\"map\":\"none\",\"op\":\"domain\"}\n+ {\"a\":\"A\",\"d\":\"D\",\"op\":\"array\"}\n- {\"a\":\"A\",\"i\":4,\"op\":\"set\",\"v\":9}\nend\n";

const REDONE: &str =
    "chapel-workbook 2\narray A over D [0, 0, 0, 9]\nrect D {1..4} none\nhistory 3\n+ {\"d\":\"D\",\"is\":\"{1..4}\",\"map\":\"none\",\"op\":\"domain\"}\n+ {\"a\":\"A\",\"d\":\"D\",\"op\":\"array\"}\n+ {\"a\":\"A\",\"i\":4,\"op\":\"set\",\"v\":9}\nend\n";

const NUMBERED: &str =
    "chapel-workbook 2\narray A over D [0, 7, -8, 0]\nrect D {1..4} none\nhistory 4\n+ {\"d\":\"D\",\"is\":\"{1..4}\",\"map\":\"none\",\"op\":\"domain\"}\n+ {\"a\":\"A\",\"d\":\"D\",\"op\":\"array\"}\n+ {\"a\":\"A\",\"on\":\"{2..3}\",\"op\":\"put\",\"vs\":[7,-8]}\n- {\"a\":\"A\",\"on\":\"{}\",\"op\":\"put\",\"vs\":[]}\nend\n";

const MORE: &str = "{\"op\":\"redo\",\"k\":3}\n{\"op\":\"get\",\"a\":\"A\",\"i\":4}\n";

const MORE_REPLIES: &[u8] = b"{\"n\":1,\"redone\":3}\n{\"value\":9}\n";

const REFUSED: &[u8] = b"refused\n";

// Parts of that text, and what stands in their place in texts of no history.
const DAMAGED: [(&str, &str); 60] = [
    ("chapel-workbook 2", "chapel-workbook 1"),
    ("chapel-workbook 2", " chapel-workbook 2"),
    ("chapel-workbook 2\n", ""),
    ("2\n", "2\r\n"),
    ("2\n", "2\n\n"),
    ("array A over D [0, 0, 0, 0]\n", ""),
    ("0]", "9]"),
    ("rect D {1..4} none\n", ""),
    (
        "rect D {1..4} none\n",
        "rect D {1..4} none\nrect D {1..4} none\n",
    ),
    (
        "array A over D [0, 0, 0, 0]\nrect D {1..4} none\n",
        "rect D {1..4} none\narray A over D [0, 0, 0, 0]\n",
    ),
    ("4} none", "4 } none"),
    ("history 3", "history 2"),
    ("history 3", "history 03"),
    ("history 3", "history 4"),
    ("history 3", "history -3"),
    ("history 3", "History 3"),
    ("history 3\n", ""),
    ("- ", "+ "),
    ("- ", "* "),
    ("- ", "-  "),
    ("- ", "-"),
    ("- ", ""),
    ("+ {\"d\"", "- {\"d\""),
    (",\"map\":\"none\"", ""),
    ("\"{1..4}\"", "\"{ 1..4}\""),
    ("\"{1..4}\"", "\"{1..#4}\""),
    ("\"i\":4", "\"i\":04"),
    ("\"i\":4", "\"i\":[4]"),
    ("\"v\":9", "\"v\": 9"),
    ("\"v\":9", "\"v\":9.0"),
    ("\"v\":9", "\"v\":9,\"v\":9"),
    ("\"v\":9", "\"v\":9,\"w\":9"),
    ("\"set\"", "\"sets\""),
    ("\"set\"", "\"s\\u0065t\""),
    (
        "{\"a\":\"A\",\"i\":4,\"op\":\"set\",\"v\":9}",
        "{\"op\":\"set\",\"a\":\"A\",\"i\":4,\"v\":9}",
    ),
    (
        "{\"a\":\"A\",\"i\":4,\"op\":\"set\",\"v\":9}",
        "{\"op\":\"undo\"}",
    ),
    (
        "- {\"a\":\"A\",\"i\":4,\"op\":\"set\",\"v\":9}",
        "+ {\"a\":\"Z\",\"op\":\"drop_array\"}",
    ),
    ("- {\"a\":\"A\",\"i\":4,\"op\":\"set\",\"v\":9}\n", ""),
    ("end\n", "end"),
    ("end\n", "end\n\n"),
    ("end\n", "End\n"),
    ("end\n", ""),
    ("end\n", "end\nend\n"),
    ("+ {\"a\"", "- {\"a\""),
    ("- {", " - {"),
    ("}\n- {", "}\n\n- {"),
    ("[0, 0, 0, 0]", "[0, 0, 0]"),
    ("{1..4} none", "{1..4}  none"),
    ("{1..4} none", "{1..5} none"),
    ("{1..4} none", "{1..4} cyclicDist(1, [2])"),
    ("history 3", "history  3"),
    ("history 3", "history"),
    ("\"i\":4,\"op\":\"set\"", "\"op\":\"set\",\"i\":4"),
    ("\"op\":\"array\"", "\"op\":\"\\u0061rray\""),
    (
        "- {\"a\":\"A\",\"i\":4,\"op\":\"set\",\"v\":9}",
        "- {\"d\":\"D\",\"op\":\"size\"}",
    ),
    ("- {\"a\":\"A\",\"i\":4,\"op\":\"set\",\"v\":9}", ""),
    (
        "{\"a\":\"A\",\"i\":4,\"op\":\"set\",\"v\":9}",
        "{\"a\":\"A\",\"on\":\"{2..3}\",\"op\":\"put\",\"vs\":[7]}",
    ),
    (
        "{\"a\":\"A\",\"i\":4,\"op\":\"set\",\"v\":9}",
        "{\"a\":\"A\",\"on\":\"{2..3}\",\"op\":\"put\",\"vs\":[7, -8]}",
    ),
    (
        "{\"a\":\"A\",\"i\":4,\"op\":\"set\",\"v\":9}",
        "{\"a\":\"A\",\"op\":\"put\",\"on\":\"{2..3}\",\"vs\":[7,-8]}",
    ),
    (
        "{\"a\":\"A\",\"i\":4,\"op\":\"set\",\"v\":9}",
        "{\"a\":\"A\",\"on\":\"{}\",\"op\":\"put\",\"vs\":[7]}",
    ),
];

// Parts of that text, what stands in their place, and what is told of it: the first line, from 0, with which no history goes on, or that
// the lines above the edits are not theirs.
const PLACES: [(&str, &str, Reason); 22] = [
    ("array A over D [0, 0, 0, 0]\n", "", Reason::OtherHeading),
    ("0]", "9]", Reason::OtherHeading),
    ("{1..4} none", "{1..5} none", Reason::OtherHeading),
    ("history 3", "history 2", Reason::OtherHeading),
    ("history 3", "history  3", Reason::OtherHeading),
    ("- ", "+ ", Reason::OtherHeading),
    (
        "chapel-workbook 2",
        "chapel-workbook 7",
        Reason::OtherHeading,
    ),
    (
        "- {\"a\":\"A\",\"i\":4,\"op\":\"set\",\"v\":9}\n",
        "",
        Reason::OtherHeading,
    ),
    ("history 3", "history", Reason::Altered),
    ("history 3\n", "", Reason::Altered),
    ("+ {\"d\"", "- {\"d\"", Reason::LineNotGranted(5)),
    (",\"map\":\"none\"", "", Reason::LineNotGranted(4)),
    ("\"{1..4}\"", "\"{ 1..4}\"", Reason::LineNotGranted(4)),
    (
        "\"d\":\"D\",\"op\"",
        "\"d\":\"E\",\"op\"",
        Reason::LineNotGranted(5),
    ),
    (
        "\"op\":\"array\"",
        "\"op\":\"\\u0061rray\"",
        Reason::LineNotGranted(5),
    ),
    ("}\n- {", "}\n\n- {", Reason::LineNotGranted(6)),
    ("- ", "* ", Reason::LineNotGranted(6)),
    ("- ", "", Reason::LineNotGranted(6)),
    ("\"v\":9", "\"v\": 9", Reason::LineNotGranted(6)),
    ("\"v\":9", "\"v\":9.5", Reason::LineNotGranted(6)),
    (
        "- {\"a\":\"A\",\"i\":4,\"op\":\"set\",\"v\":9}",
        "+ {\"a\":\"A\",\"i\":5,\"op\":\"set\",\"v\":9}",
        Reason::LineNotGranted(6),
    ),
    (
        "{\"a\":\"A\",\"i\":4,\"op\":\"set\",\"v\":9}",
        "{\"op\":\"undo\"}",
        Reason::LineNotGranted(6),
    ),
];

// The text with one thing in the place of another.
fn damaged(alloc: Global, old: &str, new: &str) -> Result<String, Fail> {
    let (before, behind) = TEXT.split_once(old).ok_or("it stands in the text")?;
    Ok(format!(in alloc; "{before}{new}{behind}")?)
}

// Checks a text, and compares what is printed of it and the exit status.
fn judge<M: Mover>(
    rt: &impl Abort,
    alloc: Global,
    text: &str,
    status: u8,
    printed: &[u8],
    mover: &M,
) -> Result<(), Fail> {
    let mut input = Input::new(text.as_bytes());
    let mut output = Vec::new(alloc);
    assert_eq!(rt;
        check_with(
            alloc,
            &mut input,
            &mut Output::new(&mut output),
            mover,
            &mut None
        ),
        status
    );
    assert_eq!(rt; output.as_slice(), printed);
    Ok(())
}

#[test]
fn history_text(rt: HostRuntime) -> Result<(), Fail> {
    let alloc = rt.alloc();
    let alone = Crew::alone(&rt);
    let mut output = Vec::new(alloc);
    let status = run_with(
        alloc,
        &mut Input::new(LINES),
        &mut Output::new(&mut output),
        &alone,
    );
    assert_eq!(rt; status, 0);
    assert!(rt; output.as_slice().ends_with(TOLD));
    judge(&rt, alloc, TEXT, 0, b"ok 2 3\n", &alone)?;
    judge(&rt, alloc, REDONE, 0, b"ok 2 3\n", &alone)?;
    judge(&rt, alloc, NUMBERED, 0, b"ok 2 4\n", &alone)?;
    for (part, other) in &DAMAGED {
        let text = damaged(alloc, part, other)?;
        judge(&rt, alloc, text.as_str(), 1, REFUSED, &alone)?;
    }
    judge(
        &rt,
        alloc,
        "chapel-workbook 2\nhistory 0\nend\n",
        0,
        b"ok 0 0\n",
        &alone,
    )
}

// What is told of a text that is refused, by `check`, by a session and by a desk that are to go on from it.
fn told<M: Mover>(
    rt: &impl Abort,
    alloc: Global,
    text: &[u8],
    reason: Reason,
    mover: &M,
) -> Result<(), Fail> {
    let mut output = Vec::new(alloc);
    let mut why = None;
    let status = check_with(
        alloc,
        &mut Input::new(text),
        &mut Output::new(&mut output),
        mover,
        &mut why,
    );
    assert!(rt; status == 1 && why == Some(reason));
    let mut why = None;
    let status = resume_with(
        alloc,
        &mut PutBack::new(alloc, Input::new(text)),
        &mut Output::new(&mut output),
        mover,
        &mut why,
    );
    assert!(rt; status == 1 && why == Some(reason));
    let mut why = None;
    let opened = history_from(
        alloc,
        &mut Input::new(text),
        &mut Output::new(&mut output),
        mover,
        &mut why,
    );
    assert!(rt; matches!(opened, Err(1)) && why == Some(reason));
    Ok(())
}

#[test]
fn places_are_told(rt: HostRuntime) -> Result<(), Fail> {
    let alloc = rt.alloc();
    let alone = Crew::alone(&rt);
    for (part, other, reason) in &PLACES {
        let text = damaged(alloc, part, other)?;
        told(&rt, alloc, text.as_bytes(), *reason, &alone)?;
    }
    // An empty line stands where an edit's may.
    let text = b"chapel-workbook 2\nhistory 0\n\nend\n";
    told(&rt, alloc, text, Reason::LineNotGranted(2), &alone)
}

// A session from the text in front of the lines, read in two pieces: the exit status, and what it wrote.
fn resumed<M: Mover>(
    rt: &impl Abort,
    alloc: Global,
    all: &[u8],
    place: usize,
    status: u8,
    written: &[u8],
    mover: &M,
) -> Result<(), Fail> {
    let one = all.get(..place).ok_or("a place")?;
    let two = all.get(place..).ok_or("a place")?;
    let mut input = PutBack::new(alloc, Input::new(one.chain(two)));
    let mut output = Vec::new(alloc);
    assert_eq!(rt;
        resume_with(
            alloc,
            &mut input,
            &mut Output::new(&mut output),
            mover,
            &mut None
        ),
        status
    );
    assert_eq!(rt; output.as_slice(), written);
    Ok(())
}

#[test]
fn resumed_sessions(rt: HostRuntime) -> Result<(), Fail> {
    let alloc = rt.alloc();
    let alone = Crew::alone(&rt);
    let all = format!(in alloc; "{TEXT}{MORE}")?;
    for place in 0..all.len() {
        resumed(&rt, alloc, all.as_bytes(), place, 0, MORE_REPLIES, &alone)?;
    }
    resumed(&rt, alloc, TEXT.as_bytes(), 0, 0, b"", &alone)?;
    for (old, new) in [
        ("\nend\n", "\nend"),
        ("- {", "+ {"),
        ("\nend\n", "\n\nend\n"),
    ] {
        let text = damaged(alloc, old, new)?;
        resumed(&rt, alloc, text.as_bytes(), 0, 1, REFUSED, &alone)?;
    }
    resumed(&rt, alloc, LINES, 0, 1, REFUSED, &alone)
}

// A desk of one seat from the text: whether it ended with status 0 and printed the text of the history with the edit redone.
#[test]
fn resumed_desk(rt: HostRuntime) -> Result<(), Fail> {
    let alloc = rt.alloc();
    let alone = Crew::alone(&rt);
    let mut output = Vec::new(alloc);
    let listener = TcpListener::bind(&rt, "127.0.0.1:0")?;
    let port = listener.local_addr()?.port();
    let mut stream = TcpStream::connect(&rt, ("127.0.0.1", port))?;
    stream.write_all(MORE.as_bytes())?;
    stream.shutdown(Shutdown::Write)?;
    let mut writer = Output::new(&mut output);
    let mut input = Input::new(TEXT.as_bytes());
    let Ok(history) = history_from(alloc, &mut input, &mut writer, &alone, &mut None) else {
        return Err("a history")?;
    };
    let status = serve_history(
        &rt,
        alloc,
        Connections::of(listener),
        1,
        history,
        &mut writer,
        &alone,
    );
    assert_eq!(rt; status, 0);
    let mut replies = Vec::new(alloc);
    stream.read_to_end(&mut replies)?;
    assert_eq!(rt; replies.as_slice(), MORE_REPLIES);
    let text = format!(in alloc; "settled 2\n{REDONE}")?;
    assert_eq!(rt; output.as_slice(), text.as_bytes());
    let mut refused = Vec::new(alloc);
    let other = history_from(
        alloc,
        &mut Input::new(LINES),
        &mut Output::new(&mut refused),
        &alone,
        &mut None,
    );
    assert!(rt; matches!(other, Err(1)));
    assert_eq!(rt; refused.as_slice(), REFUSED);
    Ok(())
}

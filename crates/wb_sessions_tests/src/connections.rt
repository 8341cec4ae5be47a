//! Seats on connections of this machine: two-way talk, a connection that is cut within a line, one that is never read, one that
//! sends many lines at once, and one of a browser.

use std::alloc::Global;
use std::io::{self, Write};
use std::net::{Net, TcpListener, TcpStream};
use std::sync::Wait;
use std::test::Fail;
use std::thread;
use std::thread::Threads;
use wb_arrays::Crew;
use wb_connections::Connections;
use wb_lines::{Input, Line, LineBuffer, LineFault, NothingHeld, Output, Sink, next_line};
use wb_seats::serve_on;

const MAKE_X: &[u8] = b"{\"op\":\"domain\",\"d\":\"X\",\"is\":\"{1..1}\"}\n";

const MAKE_Y: &[u8] = b"{\"op\":\"domain\",\"d\":\"Y\",\"is\":\"{1..1}\"}\n";

const SIZE_X: &[u8] = b"{\"op\":\"size\",\"d\":\"X\"}\n";

const SIZE_Y: &[u8] = b"{\"op\":\"size\",\"d\":\"Y\"}\n";

const CUT: &[u8] = b"{\"op\":\"ass";

// An array with a long text.
const MAKE_A: &[u8] =
    b"{\"op\":\"domain\",\"d\":\"B\",\"is\":\"{1..8192}\"}\n{\"op\":\"array\",\"a\":\"A\",\"d\":\"B\"}\n{\"op\":\"fill_all\",\"a\":\"A\",\"v\":-1000000000000000000}\n";

const PRINT: &[u8] = b"{\"op\":\"print\"}\n";

// As dear as a whole turn, so that the lines behind it are the first of the next.
const SUM: &[u8] = b"{\"op\":\"reduce\",\"a\":\"N\",\"how\":\"+\"}\n";

// The first line of a browser, and what follows.
const POST: &[u8] = b"POST / HTTP/1.1\r\n";

const POSTED: &[u8] =
    b"Host: 127.0.0.1\r\nContent-Length: 38\r\n\r\n{\"op\":\"domain\",\"d\":\"X\",\"is\":\"{1..1}\"}\n";

const BAD_REQUEST: &[u8] = b"{\"error\":\"E01\",\"name\":\"bad-request\"}";

const NOTHING_DONE: &[u8] = b"settled 0\nchapel-workbook 1\nend\n";

const IS_THERE: &[u8] = b"{\"size\":1}";

const LAST_LINES: &[u8] = b"\nrect X {1..1} none\nrect Y {1..1} none\nend\n";

// How many lines of each kind are sent at once.
const MANY: u32 = 500;

// What the first seat does.
#[derive(Clone, Copy)]
enum First {
    // It makes X, and asks until Y is there.
    WaitsForY,
    // It makes X, and is cut within a line.
    IsCut,
    // It makes X and an array, asks for their text 64 times, and never reads.
    NeverReads,
    // It makes X and an array, and sets and asks for elements in many lines sent at once, with sums, prints and lines that are
    // none among them. Each reply has to come in its place.
    SendsMany,
}

// The next line that comes, while nothing is held back.
fn line_from(stream: &mut TcpStream, buffer: &mut LineBuffer) -> Result<Line, LineFault> {
    let mut nowhere = Output::new(io::sink());
    if nowhere.flush().is_err() {
        return Err(LineFault::ReadFault);
    }
    next_line(&mut Input::new(stream), &nowhere, &NothingHeld, buffer)
}

// Asks a line until its reply is that the domain is there, at most 100,000 times.
fn comes(stream: &mut TcpStream, buffer: &mut LineBuffer, line: &[u8]) -> io::Result<bool> {
    for _ in 0..100_000u32 {
        stream.write_all(line)?;
        match line_from(stream, buffer) {
            Ok(Line::Whole) if buffer.line() == IS_THERE => return Ok(true),
            Ok(Line::Whole) => {}
            _ => return Err(io::ErrorKind::UnexpectedEof.into()),
        }
    }
    Ok(false)
}

// Makes X, and does what the first seat does where it waits for nothing.
fn begin(stream: &mut TcpStream, first: First) -> io::Result<()> {
    stream.write_all(MAKE_X)?;
    match first {
        First::WaitsForY => {}
        First::IsCut => stream.write_all(CUT)?,
        First::NeverReads => {
            stream.write_all(MAKE_A)?;
            for _ in 0..64u32 {
                stream.write_all(PRINT)?;
            }
        }
        First::SendsMany => {}
    }
    Ok(())
}

// The lines that are sent at once: an array of as many elements, each set to its index, and asked for.
fn many_lines(alloc: Global) -> io::Result<Vec<u8>> {
    let mut text = Vec::new(alloc);
    text.extend_from_slice(MAKE_X)?;
    write!(
        text,
        "{{\"op\":\"domain\",\"d\":\"M\",\"is\":\"{{1..{MANY}}}\"}}\n{{\"op\":\"array\",\"a\":\"N\",\"d\":\"M\"}}\n"
    )?;
    for k in 1..=MANY {
        write!(text, "{{\"op\":\"set\",\"a\":\"N\",\"i\":{k},\"v\":{k}}}\n")?;
    }
    for k in 1..=MANY {
        write!(text, "{{\"op\":\"get\",\"a\":\"N\",\"i\":{k}}}\n")?;
        if k % 100 == 0 {
            text.extend_from_slice(SUM)?;
            text.extend_from_slice(PRINT)?;
            text.extend_from_slice(b"\n")?;
        }
    }
    Ok(text)
}

// Whether the next reply begins so.
fn begins(stream: &mut TcpStream, buffer: &mut LineBuffer, front: &[u8]) -> bool {
    line_from(stream, buffer) == Ok(Line::Whole) && buffer.line().starts_with(front)
}

// Sends many lines at once: whether each reply comes in its place.
fn many_replies(alloc: Global, stream: TcpStream) -> io::Result<bool> {
    let mut stream = stream;
    let mut buffer = LineBuffer::new(alloc);
    stream.write_all(many_lines(alloc)?.as_slice())?;
    let mut well = true;
    for _ in 0..3 + MANY {
        well &= begins(&mut stream, &mut buffer, b"{\"edit\":");
    }
    for k in 1..=MANY {
        let value = format!(in alloc; "{{\"value\":{k}}}")?;
        well &= begins(&mut stream, &mut buffer, value.as_bytes());
        if k % 100 == 0 {
            well &= begins(&mut stream, &mut buffer, b"{\"value\":125250}");
            well &= begins(&mut stream, &mut buffer, b"{\"text\":");
            well &= begins(&mut stream, &mut buffer, b"{\"error\":\"E01\"");
        }
    }
    Ok(well)
}

// Makes X, and waits for Y.
fn first_seat(alloc: Global, stream: TcpStream) -> io::Result<bool> {
    let mut stream = stream;
    let mut buffer = LineBuffer::new(alloc);
    begin(&mut stream, First::WaitsForY)?;
    let _ = line_from(&mut stream, &mut buffer);
    comes(&mut stream, &mut buffer, SIZE_Y)
}

// Waits for X, and makes Y.
fn second_seat(alloc: Global, stream: TcpStream) -> io::Result<bool> {
    let mut stream = stream;
    let mut buffer = LineBuffer::new(alloc);
    let came = comes(&mut stream, &mut buffer, SIZE_X)?;
    stream.write_all(MAKE_Y)?;
    Ok(came && line_from(&mut stream, &mut buffer) == Ok(Line::Whole))
}

// Both seats: whether each had what it waited for.
fn both_seats<R: Threads>(
    rt: &R,
    alloc: Global,
    first: First,
    one: TcpStream,
    two: TcpStream,
) -> io::Result<bool> {
    let mut one = one;
    match first {
        First::WaitsForY => {
            let (came, other) = thread::join(
                rt,
                move || first_seat(alloc, one),
                move || second_seat(alloc, two),
            );
            Ok(came? && other?)
        }
        First::IsCut => {
            begin(&mut one, first)?;
            drop(one);
            second_seat(alloc, two)
        }
        First::NeverReads => {
            begin(&mut one, first)?;
            second_seat(alloc, two)
        }
        First::SendsMany => {
            let (came, other) = thread::join(
                rt,
                move || many_replies(alloc, one),
                move || second_seat(alloc, two),
            );
            Ok(came? && other?)
        }
    }
}

// A desk of two seats on connections: whether each seat had what it waited for, and the desk ended with status 0 and printed
// how many entries there are and the workbook.
fn ends_well<R: Net<Listener = TcpListener, Stream = TcpStream> + Threads + Wait + Sync>(
    rt: &R,
    alloc: Global,
    first: First,
) -> io::Result<bool> {
    let Ok(workers) = Crew::new(rt, 2) else {
        return Ok(false);
    };
    let listener = TcpListener::bind(rt, "127.0.0.1:0")?;
    let port = listener.local_addr()?.port();
    let mut output = Vec::new(alloc);
    let one = TcpStream::connect(rt, ("127.0.0.1", port))?;
    let two = TcpStream::connect(rt, ("127.0.0.1", port))?;
    let (status, came) = thread::join(
        rt,
        || serve_on(
            rt,
            alloc,
            Connections::of(listener),
            2,
            &mut Output::new(&mut output),
            &workers,
        ),
        || both_seats(rt, alloc, first, one, two),
    );
    let printed = output.as_slice();
    Ok(status == 0 && came? && printed.starts_with(b"settled ") && printed.ends_with(LAST_LINES))
}

#[test]
fn two_way(rt: HostRuntime) -> Result<(), Fail> {
    assert!(rt; ends_well(&rt, rt.alloc(), First::WaitsForY)?);
    Ok(())
}

#[test]
fn cut_silent_and_crowded_connections(rt: HostRuntime) -> Result<(), Fail> {
    for first in [First::IsCut, First::NeverReads, First::SendsMany] {
        assert!(rt; ends_well(&rt, rt.alloc(), first)?);
    }
    Ok(())
}

// What a browser is told: whether its first line is answered, and the connection ends then, whatever else it sends.
fn is_turned_away(alloc: Global, stream: TcpStream) -> io::Result<bool> {
    let mut stream = stream;
    let mut buffer = LineBuffer::new(alloc);
    stream.write_all(POST)?;
    let told = line_from(&mut stream, &mut buffer) == Ok(Line::Whole)
        && buffer.line() == BAD_REQUEST;
    let _ = stream.write_all(POSTED);
    let next = line_from(&mut stream, &mut buffer);
    Ok(told && (next == Ok(Line::End) || next == Err(LineFault::ReadFault)))
}

#[test]
fn browsers_are_turned_away(rt: HostRuntime) -> Result<(), Fail> {
    let alone = Crew::alone(&rt);
    let alloc = rt.alloc();
    let listener = TcpListener::bind(&rt, "127.0.0.1:0")?;
    let port = listener.local_addr()?.port();
    let mut output = Vec::new(alloc);
    let stream = TcpStream::connect(&rt, ("127.0.0.1", port))?;
    let (status, turned_away) = thread::join(
        &rt,
        || serve_on(
            &rt,
            alloc,
            Connections::of(listener),
            1,
            &mut Output::new(&mut output),
            &alone,
        ),
        || is_turned_away(alloc, stream),
    );
    assert!(rt; status == 0 && turned_away?);
    assert_eq!(rt; output.as_slice(), NOTHING_DONE);
    Ok(())
}

//! Desks that stay, on connections in memory: one seat that is lent to one connection after another, with a journal in memory too; a
//! crowd, of which each is served or turned away; a file that fails in a call, and one that is refused.
ghost use Rattle.std.specs.Prelude.{◌≡◌, ◌<◌, false, length};

use std::alloc::{AllocError, Global};
use std::io::{self, ErrorKind, Read, Write};
use std::sync::{Mutex, Wait};
use std::test::Fail;
use std::thread::{SpawnError, Threads};
use std::time::Clock;
use wb_arrays::{Crew, Mover};
use wb_command::{FilePath, Place, Stay};
use wb_company::Company;
use wb_keep::START;
use wb_keep::disk::MemoryFile;
use wb_lending::{Guests, Next};
use wb_lines::{Input, Output};
use wb_program::{lend_on, stay, stay_kept_with};
use wb_sessions::{FileFault, KeptRun};
use wb_visits::{BindErr, Lands, Left, Surplus, Visit};

// More calls than a desk makes here.
const NEVER: usize = 1000;

// What one connection after another asks, of which the second is cut within a line.
const FIRST: &[u8] =
    b"{\"op\":\"domain\",\"d\":\"D\",\"is\":\"{1..2}\"}\n{\"op\":\"array\",\"a\":\"A\",\"d\":\"D\"}\n";

const SECOND: &[u8] =
    b"{\"op\":\"set\",\"a\":\"A\",\"i\":1,\"v\":5}\n{\"op\":\"set\",\"a\":\"A\",\"i\":1,\"v\":6}";

const THIRD: &[u8] = b"{\"op\":\"get\",\"a\":\"A\",\"i\":1}\n";

const REPLIES: &[u8] =
    b"{\"edit\":1,\"n\":3}\n{\"edit\":2,\"n\":5}\n{\"edit\":3,\"n\":1}\n{\"value\":5}\n";

const SETTLED: &[u8] =
    b"settled 4\nchapel-workbook 1\narray A over D [5, 0]\nrect D {1..2} none\nend\n";

// So many lines of one connection find more than 64 entries, again and again; they are fewer than a crowd.
const MANY: usize = 300;

const EDITS: &[u8] = b"{\"edit\":1,\"n\":3}\n{\"edit\":2,\"n\":5}\n";

const VALUE: &[u8] = b"{\"value\":0}\n";

const SETTLED_MANY: &[u8] =
    b"settled 303\nchapel-workbook 1\narray A over D [0, 0]\nrect D {1..2} none\nend\n";

const LISTENING: &[u8] = b"listening on 127.0.0.1:7000\n";

const JOURNAL: &[u8] =
    b"chapel-workbook 3\n {\"d\":\"D\",\"is\":\"{1..2}\",\"map\":\"none\",\"op\":\"domain\"}\n {\"a\":\"A\",\"d\":\"D\",\"op\":\"array\"}\n {\"a\":\"A\",\"i\":1,\"op\":\"set\",\"v\":5}\n#";

// A line that is no request.
const NO_REQUEST: &[u8] = b"{}\n";

const BAD_REQUEST: &[u8] = b"{\"error\":\"E01\",\"name\":\"bad-request\"}\n";

const NO_SEAT: &[u8] = b"{\"error\":\"E93\",\"name\":\"no-seat\"}\n";

const NOTHING_DONE: &[u8] = b"settled 0\nchapel-workbook 1\nend\n";

// A connection that says its name, and then another, which it may not; and what it does then.
const BEN: &[u8] =
    b"{\"op\":\"hello\",\"name\":\"Ben\"}\n{\"op\":\"hello\",\"name\":\"Eva\"}\n{\"op\":\"domain\",\"d\":\"D\",\"is\":\"{1..2}\"}\n{\"op\":\"undo\",\"k\":1}\n{\"op\":\"redo\",\"k\":1}\n{\"op\":\"edits\",\"from\":2}\n";

const BEN_TOLD: &[u8] =
    b"{\"seat\":0}\n{\"error\":\"E01\",\"name\":\"bad-request\"}\n{\"edit\":1,\"n\":3}\n{\"n\":3,\"undone\":1}\n{\"n\":3,\"redone\":1}\n{\"done\":[{\"did\":\"undo\",\"edit\":1,\"name\":\"Ben\",\"seat\":0},{\"did\":\"redo\",\"edit\":1,\"name\":\"Ben\",\"seat\":0}],\"from\":2}\n";

// One that says no name, after it: a cascade is an undo of each edit that it takes back.
const NOBODY: &[u8] =
    b"{\"op\":\"array\",\"a\":\"A\",\"d\":\"D\"}\n{\"op\":\"cascade\",\"k\":1}\n{\"op\":\"edits\",\"from\":0}\n{\"op\":\"edits\",\"from\":9}\n";

const NOBODY_TOLD: &[u8] =
    b"{\"edit\":2,\"n\":5}\n{\"n\":8,\"undone\":[2,1]}\n{\"done\":[{\"did\":\"edit\",\"edit\":1,\"name\":\"Ben\",\"seat\":0},{\"did\":\"undo\",\"edit\":1,\"name\":\"Ben\",\"seat\":0},{\"did\":\"redo\",\"edit\":1,\"name\":\"Ben\",\"seat\":0},{\"did\":\"edit\",\"edit\":2,\"name\":null,\"seat\":0},{\"did\":\"undo\",\"edit\":2,\"name\":null,\"seat\":0},{\"did\":\"undo\",\"edit\":1,\"name\":null,\"seat\":0}],\"from\":1}\n{\"done\":[],\"from\":7}\n";

// Lines that are no words: a name of 33 bytes, names with what no label has, fields that are missing, too many, or of another type.
const NO_WORDS: &[u8] =
    b"{\"op\":\"hello\",\"name\":\"123456789012345678901234567890123\"}\n{\"op\":\"hello\",\"name\":\"a\\\"b\"}\n{\"op\":\"hello\",\"name\":\"a\\nb\"}\n{\"op\":\"hello\"}\n{\"op\":\"hello\",\"name\":7}\n{\"op\":\"hello\",\"name\":\"Ben\",\"seat\":1}\n{\"op\":\"edits\",\"from\":-1}\n{\"op\":\"desk\",\"k\":1}\n";

// How a desk stands that has two entries, up to since when.
const STANDS: &[u8] =
    b"{\"op\":\"hello\",\"name\":\"12345678901234567890123456789012\"}\n{\"op\":\"domain\",\"d\":\"D\",\"is\":\"{1..2}\"}\n{\"op\":\"size\",\"d\":\"D\"}\n{\"op\":\"desk\"}\n";

const STANDS_TOLD: &[u8] =
    b"{\"seat\":0}\n{\"edit\":1,\"n\":3}\n{\"size\":2}\n{\"entries\":2,\"free\":0,\"journal\":null,\"names\":[{\"name\":\"12345678901234567890123456789012\",\"seat\":0}],\"seats\":1,\"since\":";

// So many come at once.
const CROWD: usize = 500;

// Gives a line a read, and fails after the last of them where that is a part of one.
#[derive(Drop)]
struct Lines<'a> {
    rest: &'a [u8],
}

impl<'a> Read for Lines<'a> {
    fn read(&mut self, buf: &mut [u8]) -> io::Result<usize> {
        let line = match self.rest.iter().position(|byte| *byte == b'\n') {
            Some(at) => at + 1,
            None => self.rest.len(),
        };
        if line == 0 || line < self.rest.len() || self.rest.ends_with(b"\n") {
            let n = line.min(buf.len());
            buf[..n].copy_from_slice(&self.rest[..n]);
            self.rest = &self.rest[n..];
            return Ok(n);
        }
        Err(io::Error::from(ErrorKind::ConnectionReset))
    }
}

// Writes to a text.
#[derive(Drop)]
struct Pen<'a> {
    text: &'a Mutex<Vec<u8>>,
}

impl<'a> Write for Pen<'a> {
    fn write(&mut self, buf: &[u8]) -> io::Result<usize> {
        match self.text.try_lock() {
            Some(mut text) => {
                text.extend_from_slice(buf)?;
                Ok(buf.len())
            }
            None => Err(io::Error::from(ErrorKind::WouldBlock)),
        }
    }

    fn flush(&mut self) -> io::Result<()> {
        Ok(())
    }
}

// A connection that comes, and one that is turned away.
type Coming<'a> = Visit<Input<Lines<'a>>, Output<Pen<'a>>>;

type Sent<'a> = Surplus<Output<Pen<'a>>>;

// Connections that come one after another, by what they ask; nobody comes after the last. Those that are served write to one text, and
// those that are turned away to another.
#[derive(Drop)]
struct Street<'a> {
    ahead: &'a [&'a [u8]],
    served: &'a Mutex<Vec<u8>>,
    turned: &'a Mutex<Vec<u8>>,
    // Whether who comes while no seat is free is turned away; else each waits until one is.
    is_hasty: bool,
    counted: u64,
    inside: u64,
    places: u64,
    has_failed: bool,
}

impl<'a> Guests<Coming<'a>, Sent<'a>, Left> for Street<'a> {
    ghost came = { λ s n c. n < s.counted };

    ghost counted = { λ s. s.counted };

    ghost inside = { λ s. s.inside };

    ghost places = { λ s. s.places };

    ghost over = { λ s. length s.ahead.now ≡ 0 };

    ghost failed = { λ s. s.has_failed };

    fn next(&mut self) -> Next<Coming<'a>> {
        if self.ahead.is_empty() {
            return Next::Over;
        }
        let Some(counted) = self.counted.checked_add(1) else {
            return Next::Nobody;
        };
        let Some(inside) = self.inside.checked_add(1) else {
            return Next::Nobody;
        };
        let rest = self.ahead[0];
        self.ahead = &self.ahead[1..];
        self.counted = counted;
        self.inside = inside;
        let text = self.served;
        Next::Came(Visit::of(Input::new(Lines { rest }), Output::new(Pen { text })))
    }

    fn surplus(&mut self) -> Next<Sent<'a>> {
        if self.ahead.is_empty() {
            return Next::Over;
        }
        if self.inside < self.places || !self.is_hasty {
            return Next::Nobody;
        }
        self.ahead = &self.ahead[1..];
        let text = self.turned;
        Next::Came(Surplus::of(Output::new(Pen { text })))
    }

    fn leave(&mut self, served: Left) {
        if served.leave() {
            self.ahead = &[];
        }
        self.inside = self.inside.saturating_sub(1);
    }

    fn retire(&mut self, served: Left) {
        self.leave(served);
        self.places = self.places.saturating_sub(1);
    }

    fn note_refused<F>(&mut self, refused: &SpawnError<F>) {
        let _ = refused;
        self.ahead = &[];
        self.has_failed = true;
    }
}

// The port on which they come.
#[derive(Drop)]
struct Port<'a> {
    ahead: &'a [&'a [u8]],
    served: &'a Mutex<Vec<u8>>,
    turned: &'a Mutex<Vec<u8>>,
}

impl<'a> Port<'a> {
    // Those who come, for so many seats.
    fn street(&self, seats: u8) -> Street<'a>
        ensures { (result.inside ≡ 0) × (result.places ≡ seats) }
    {
        Street {
            ahead: self.ahead,
            served: self.served,
            turned: self.turned,
            is_hasty: false,
            counted: 0,
            inside: 0,
            places: seats as u64,
            has_failed: false,
        }
    }
}

impl<'a> Lands<Street<'a>, Coming<'a>, Sent<'a>, Left> for Port<'a> {
    ghost failed = { λ s. false };

    fn land(&mut self, port: u16, seats: u8) -> Result<(Street<'a>, u16), BindErr> {
        Ok((self.street(seats), port))
    }

    fn land_at(&mut self, path: &str, seats: u8) -> Result<Street<'a>, BindErr> {
        let _ = path;
        Ok(self.street(seats))
    }
}

// How a desk came out: the exit status, what was told of the file, what the connections were told that had its seat and those that had
// none, what was printed, and what is left of the file.
#[derive(Drop)]
struct Stayed {
    status: u8,
    fault: Option<FileFault>,
    served: Vec<u8>,
    turned: Vec<u8>,
    printed: Vec<u8>,
    left: Vec<u8>,
}

// A desk of so many seats that stays, without a journal.
fn what_stayed<R: Threads + Wait + Clock + Eprint + Sync, M: Mover + Sync>(
    rt: &R,
    alloc: Global,
    ahead: &[&[u8]],
    seats: u64,
    is_hasty: bool,
    mover: &M,
) -> Result<Stayed, AllocError> {
    let company = Company::new(rt, alloc, seats as usize, true)?;
    let served = Mutex::new(Vec::new(alloc));
    let turned = Mutex::new(Vec::new(alloc));
    let mut printed = Vec::new(alloc);
    let street = Street {
        ahead,
        served: &served,
        turned: &turned,
        is_hasty,
        counted: 0,
        inside: 0,
        places: seats,
        has_failed: false,
    };
    let status = lend_on(
        rt,
        alloc,
        street,
        &company,
        seats as usize,
        &mut Output::new(&mut printed),
        mover,
    );
    Ok(Stayed {
        status,
        fault: None,
        served: served.into_inner(),
        turned: turned.into_inner(),
        printed,
        left: Vec::new(alloc),
    })
}

// A desk of one seat that stays, on a file that holds these bytes and does so many calls.
fn stayed_kept<R: Threads + Wait + Clock + Eprint + Sync, M: Mover + Sync>(
    rt: &R,
    alloc: Global,
    held: &[u8],
    ahead: &[&[u8]],
    done: usize,
    mover: &M,
) -> Result<Stayed, AllocError> {
    let served = Mutex::new(Vec::new(alloc));
    let turned = Mutex::new(Vec::new(alloc));
    let file = MemoryFile::new(alloc, held.to_vec(alloc)?, done, 0);
    let company = Company::new(rt, alloc, 1, true)?;
    let mut printed = Vec::new(alloc);
    let asked = Stay {
        place: Place::Port(7000),
        seats: 1,
        idle: 0,
        quiet: true,
        workers: 1,
    };
    let KeptRun {
        status,
        fault,
        file,
    } = stay_kept_with(
        rt,
        alloc,
        &mut Port {
            ahead,
            served: &served,
            turned: &turned,
        },
        &company,
        &asked,
        file,
        held,
        &mut Output::new(&mut printed),
        mover,
    );
    let left = file.left().to_vec(alloc)?;
    Ok(Stayed {
        status,
        fault,
        served: served.into_inner(),
        turned: turned.into_inner(),
        printed,
        left,
    })
}

#[test]
fn a_seat_is_lent_again(rt: HostRuntime) -> Result<(), Fail> {
    let alone = Crew::alone(&rt);
    let desk = what_stayed(
        &rt,
        rt.alloc(),
        &[FIRST, SECOND, b"", THIRD],
        1,
        false,
        &alone,
    )?;
    assert_eq!(rt; desk.status, 0);
    assert_eq!(rt; desk.served.as_slice(), REPLIES);
    assert!(rt; desk.turned.is_empty());
    assert_eq!(rt; desk.printed.as_slice(), SETTLED);
    Ok(())
}

// A seat is settled early while its connection lasts, and once it ended: the number of entries has those too.
#[test]
fn lines_that_were_settled_early_are_counted(rt: HostRuntime) -> Result<(), Fail> {
    let alone = Crew::alone(&rt);
    let alloc = rt.alloc();
    let mut asked = FIRST.to_vec(alloc)?;
    for _ in 0..MANY {
        asked.extend_from_slice(THIRD)?;
    }
    let desk = what_stayed(
        &rt,
        alloc,
        &[asked.as_slice(), THIRD, b""],
        1,
        false,
        &alone,
    )?;
    assert_eq!(rt; desk.status, 0);
    let told = desk.served.strip_prefix(EDITS).ok_or("two edits")?;
    assert!(rt; repeats(told, VALUE));
    assert_eq!(rt; told.len() / VALUE.len(), MANY + 1);
    assert_eq!(rt; desk.printed.as_slice(), SETTLED_MANY);
    Ok(())
}

#[test]
fn a_desk_on_a_socket_tells_its_path(rt: HostRuntime) -> Result<(), Fail> {
    let alone = Crew::alone(&rt);
    let alloc = rt.alloc();
    let served = Mutex::new(Vec::new(alloc));
    let turned = Mutex::new(Vec::new(alloc));
    let mut printed = Vec::new(alloc);
    let asked = Stay {
        place: Place::Socket(FilePath::new("plan.socket")),
        seats: 1,
        idle: 0,
        quiet: true,
        workers: 1,
    };
    let mut ports = Port {
        ahead: &[FIRST, SECOND, THIRD],
        served: &served,
        turned: &turned,
    };
    let mut output = Output::new(&mut printed);
    let company = Company::new(&rt, alloc, 1, true)?;
    assert_eq!(rt;
        stay(
            &rt,
            alloc,
            &mut ports,
            &company,
            &asked,
            &mut output,
            &alone
        ),
        0
    );
    let rest = printed
        .strip_prefix(b"listening on plan.socket\n")
        .ok_or("a path")?;
    assert_eq!(rt; rest, SETTLED);
    Ok(())
}

// Who did what is told by the names that connections say.
#[test]
fn a_desk_tells_who_did_what(rt: HostRuntime) -> Result<(), Fail> {
    let alone = Crew::alone(&rt);
    let desk = what_stayed(&rt, rt.alloc(), &[BEN, NOBODY], 1, false, &alone)?;
    assert_eq!(rt; desk.status, 0);
    let told = desk
        .served
        .strip_prefix(BEN_TOLD)
        .ok_or("what Ben is told")?;
    assert_eq!(rt; told, NOBODY_TOLD);
    Ok(())
}

// Who did what is told at a desk with a journal too, whose file has none of it.
#[test]
fn a_kept_desk_tells_who_did_what(rt: HostRuntime) -> Result<(), Fail> {
    let alone = Crew::alone(&rt);
    let desk = stayed_kept(&rt, rt.alloc(), &START, &[BEN, NOBODY], NEVER, &alone)?;
    assert_eq!(rt; desk.status, 0);
    let told = desk
        .served
        .strip_prefix(BEN_TOLD)
        .ok_or("what Ben is told")?;
    assert_eq!(rt; told, NOBODY_TOLD);
    assert!(rt; !desk.left.windows(3).any(|part| part == b"Ben".as_slice()));
    Ok(())
}

#[test]
fn lines_that_are_no_words_are_no_requests(rt: HostRuntime) -> Result<(), Fail> {
    let alone = Crew::alone(&rt);
    let desk = what_stayed(&rt, rt.alloc(), &[NO_WORDS], 1, false, &alone)?;
    assert!(rt; repeats(&desk.served, BAD_REQUEST));
    assert_eq!(rt; desk.served.len() / BAD_REQUEST.len(), 8);
    assert_eq!(rt; desk.printed.as_slice(), NOTHING_DONE);
    Ok(())
}

#[test]
fn a_desk_tells_how_it_stands(rt: HostRuntime) -> Result<(), Fail> {
    let alone = Crew::alone(&rt);
    let desk = what_stayed(&rt, rt.alloc(), &[STANDS], 1, false, &alone)?;
    let since = desk
        .served
        .strip_prefix(STANDS_TOLD)
        .ok_or("how it stands")?;
    assert!(rt; since.ends_with(b"}\n") && since.len() > 11);
    Ok(())
}

// Whether a text is this line again and again.
fn repeats(text: &[u8], line: &[u8]) -> bool {
    let mut rest = text;
    for _ in 0..=CROWD {
        match rest.strip_prefix(line) {
            Some(behind) => rest = behind,
            None => return rest.is_empty(),
        }
    }
    false
}

#[test]
fn each_of_a_crowd_is_served_or_turned_away(rt: HostRuntime) -> Result<(), Fail> {
    let alone = Crew::alone(&rt);
    let desk = what_stayed(&rt, rt.alloc(), &[NO_REQUEST; CROWD], 1, true, &alone)?;
    assert_eq!(rt; desk.status, 0);
    assert!(rt; repeats(&desk.served, BAD_REQUEST) && repeats(&desk.turned, NO_SEAT));
    let served = desk.served.len() / BAD_REQUEST.len();
    let turned = desk.turned.len() / NO_SEAT.len();
    assert!(rt; served > 0 && served.saturating_add(turned) == CROWD);
    assert_eq!(rt; desk.printed.as_slice(), NOTHING_DONE);
    Ok(())
}

#[test]
fn no_desk_of_so_many_seats(rt: HostRuntime) -> Result<(), Fail> {
    let alone = Crew::alone(&rt);
    for seats in [0u64, 17] {
        let desk = what_stayed(&rt, rt.alloc(), &[FIRST], seats, false, &alone)?;
        assert!(rt; desk.status == 2 && desk.served.is_empty() && desk.printed.is_empty());
    }
    Ok(())
}

#[test]
fn a_desk_is_kept_and_gone_on_with(rt: HostRuntime) -> Result<(), Fail> {
    let alone = Crew::alone(&rt);
    let kept = stayed_kept(
        &rt,
        rt.alloc(),
        &START,
        &[FIRST, SECOND, THIRD],
        NEVER,
        &alone,
    )?;
    assert!(rt; kept.status == 0 && kept.fault.is_none());
    assert_eq!(rt; kept.served.as_slice(), REPLIES);
    assert_eq!(rt;
        kept.printed.strip_prefix(LISTENING).ok_or("a port")?,
        SETTLED
    );
    assert_eq!(rt; kept.left.as_slice(), JOURNAL);
    let more = stayed_kept(&rt, rt.alloc(), &kept.left, &[b"", THIRD], NEVER, &alone)?;
    assert!(rt; more.status == 0 && more.fault.is_none());
    assert_eq!(rt; more.served.as_slice(), b"{\"value\":5}\n".as_slice());
    assert_eq!(rt; more.left.as_slice(), JOURNAL);
    Ok(())
}

// To open the file takes three calls. What was replied is in the file, and nothing was printed.
#[test]
fn a_file_fails_in_a_call(rt: HostRuntime) -> Result<(), Fail> {
    let alone = Crew::alone(&rt);
    for call in 3..9usize {
        let cut = stayed_kept(
            &rt,
            rt.alloc(),
            &START,
            &[FIRST, SECOND, THIRD],
            call,
            &alone,
        )?;
        assert!(rt; cut.status == 3 && cut.fault == Some(FileFault::Failed));
        assert_eq!(rt; cut.printed.as_slice(), LISTENING);
        assert!(rt; REPLIES.starts_with(&cut.served));
        let told = cut.served.iter().filter(|byte| **byte == b'\n').count();
        assert_eq!(rt; told, (call - 3) / 2);
    }
    Ok(())
}

#[test]
fn files_are_refused_before_a_port_is_told(rt: HostRuntime) -> Result<(), Fail> {
    let alone = Crew::alone(&rt);
    // (The file does no call, so a call on it would be told as a fault.)
    let foreign = stayed_kept(&rt, rt.alloc(), b"hello\n", &[FIRST], 0, &alone)?;
    assert!(rt; foreign.status == 3 && foreign.fault == Some(FileFault::NotOurs));
    assert!(rt; foreign.printed.is_empty() && foreign.served.is_empty());
    Ok(())
}

//! Arrays moved to another mapping, by one thread, by several and by none.
ghost use Rattle.std.specs.Prelude.{⊤};

use crate::index_sets::arrays::elements;
use crate::index_sets::mappings::layout;
use crate::index_sets::rectangles::rectangle;
use crate::index_sets::rows::{Words, shown};
use std::alloc::Global;
use std::marker::PhantomData;
use std::process::Abort;
use std::sync::atomic::{AtomicUsize, Ordering};
use std::test::Fail;
use std::thread::Threads;
use wb_arrays::{BadWorkers, Bound, Crew, Gate, MoveErr, Mover, Open, Pieces, Store, Way, Workers};
use wb_dist::{BadMapping, Layout};
use wb_range::NoMemory;
use wb_rect::Rect;

/// An array over a rectangle of one range, in pieces.
pub(crate) type Parts = Pieces<Rect<1>, Layout<1>>;

// An array of zeros. A refused growth is tried again once.
fn zeros(alloc: Global, domain: &Rect<1>) -> Result<Bound<Rect<1>>, NoMemory> {
    match Bound::new(alloc, domain) {
        Ok(whole) => Ok(whole),
        Err(_) => Bound::new(alloc, domain),
    }
}

// The tens 10, 20 .. 100 at 1 to 10.
fn whole_tens(rt: &impl Abort, alloc: Global) -> Result<Bound<Rect<1>>, Fail> {
    let domain = rectangle(&mut Words::of("1 10 1 _"))?;
    let mut whole = zeros(alloc, &domain)?;
    for i in 1..=10i64 {
        assert!(rt; whole.set([i], i.wrapping_mul(10)) == Ok(0));
    }
    Ok(whole)
}

// An array in the pieces of a layout. A refused growth is tried again once.
fn split(alloc: Global, layout: &Layout<1>, whole: &Bound<Rect<1>>) -> Result<Parts, NoMemory> {
    match Pieces::split(alloc, layout, whole) {
        Ok(pieces) => Ok(pieces),
        Err(_) => Pieces::split(alloc, layout, whole),
    }
}

// The tens, in blocks.
pub fn tens(rt: &impl Abort, alloc: Global) -> Result<Parts, Fail> {
    let blocks = layout(&mut Words::of("block 1 10 1 _ 4"))?;
    let whole = whole_tens(rt, alloc)?;
    Ok(split(alloc, &blocks, &whole)?)
}

// Four locales in turn.
pub fn in_turn() -> Result<Layout<1>, BadMapping> {
    layout(&mut Words::of("cyclic 1 4"))
}

// The tens moved by the mover. After a refused growth they are as they were, and can be moved again.
fn moved_at_last<X: Mover>(
    rt: &impl Abort,
    alloc: Global,
    mover: &X,
    from: &Parts,
    to: &Layout<1>,
) -> Result<Parts, MoveErr> {
    let moved = mover.move_pieces(alloc, from, to);
    if moved.is_ok() {
        return moved;
    }
    let kept = from.pairs(3).expect(rt, "locale 3");
    assert_eq!(rt; kept, [([9], 90), ([10], 100)].as_slice());
    mover.move_pieces(alloc, from, to)
}

// The array that pieces are. A refused growth is tried again once.
fn gathered(pieces: &Parts) -> Result<Bound<Rect<1>>, NoMemory> {
    match pieces.gather() {
        Ok(whole) => Ok(whole),
        Err(_) => pieces.gather(),
    }
}

// What lies on each locale, in blocks and in turn; there is no fifth one.
const BLOCKS: [&str; 5] = [
    "Some([([1], 10), ([2], 20), ([3], 30)])",
    "Some([([4], 40), ([5], 50)])",
    "Some([([6], 60), ([7], 70), ([8], 80)])",
    "Some([([9], 90), ([10], 100)])",
    "None",
];

const MOVED: [&str; 5] = [
    "Some([([1], 10), ([5], 50), ([9], 90)])",
    "Some([([2], 20), ([6], 60), ([10], 100)])",
    "Some([([3], 30), ([7], 70)])",
    "Some([([4], 40), ([8], 80)])",
    "None",
];

// That this lies on each locale.
fn lie_so(rt: &impl Abort, alloc: Global, pieces: &Parts, all: &[&str]) -> Result<(), Fail> {
    for (locale, wanted) in all.iter().enumerate() {
        let pairs = shown(alloc, &pieces.pairs(locale))?;
        assert!(rt; pairs.as_str() == *wanted, "{pairs}");
    }
    Ok(())
}

// The elements at 0 to 11.
const WHOLE: &str =
    "[None, Some(10), Some(20), Some(30), Some(40), Some(50), Some(60), Some(70), Some(80), Some(90), Some(100), None]";

// That pieces, gathered, are the tens.
fn are_tens(rt: &impl Abort, alloc: Global, pieces: &Parts) -> Result<(), Fail> {
    let whole = gathered(pieces)?;
    assert!(rt; whole.len() == 10);
    let looks = [[0], [1], [2], [3], [4], [5], [6], [7], [8], [9], [10], [11]];
    let told = elements(alloc, &whole, looks.as_slice())?;
    assert!(rt; told.as_str() == WHOLE, "{told}");
    Ok(())
}

/// Moves the tens by the mover, and looks at each piece, before and after, and at the whole.
pub(crate) fn moves_the_tens<X: Mover>(
    rt: &impl Abort,
    alloc: Global,
    mover: &X,
) -> Result<(), Fail> {
    let from = tens(rt, alloc)?;
    let moved = moved_at_last(rt, alloc, mover, &from, &in_turn()?)?;
    lie_so(rt, alloc, &from, &BLOCKS)?;
    lie_so(rt, alloc, &moved, &MOVED)?;
    are_tens(rt, alloc, &moved)
}

// One thread and 1, 3 and 64 workers make the same pieces.
#[test]
fn pieces_by_any_workers(rt: HostRuntime) -> Result<(), Fail> {
    let alone = Crew::alone(&rt);
    moves_the_tens(&rt, rt.alloc(), &alone)?;
    for count in [0, 1, 3, 64, 65] {
        match Workers::new(&rt, count, Open) {
            Ok(workers) => {
                assert!(rt; 1 <= count && count <= 64);
                moves_the_tens(&rt, rt.alloc(), &workers)?;
            }
            Err(BadWorkers) => assert!(rt; count < 1 || 64 < count),
        }
    }
    Ok(())
}

// Worker 0 waits here until worker 1 has come, for a while.
#[derive(Drop)]
struct Meeting<'a> {
    arrived: &'a AtomicUsize,
    met: &'a AtomicUsize,
}

impl Gate for Meeting<'_> {
    fn arrive(&self, worker: usize) {
        if worker == 1 {
            self.arrived.store(1, Ordering::SeqCst);
            return;
        }
        for _ in 0..100_000_000u64 {
            if self.arrived.load(Ordering::SeqCst) == 1 {
                self.met.store(1, Ordering::SeqCst);
                return;
            }
        }
    }
}

// Two workers are at work at the same time.
#[test]
fn two_workers_meet(rt: HostRuntime) -> Result<(), Fail> {
    let arrived = AtomicUsize::new(0);
    let met = AtomicUsize::new(0);
    let gate = Meeting {
        arrived: &arrived,
        met: &met,
    };
    let workers = Workers::new(&rt, 2, gate)?;
    moves_the_tens(&rt, rt.alloc(), &workers)?;
    assert_eq!(rt; met.load(Ordering::SeqCst), 1);
    Ok(())
}

/// A mover that has no thread.
#[derive(Drop)]
pub(crate) struct Threadless<R> {
    pub(crate) of: PhantomData<R>,
}

impl<R: Threads + Sync> Mover for Threadless<R> {
    type R = R;

    type G = Open;

    ghost may_lack_threads = { λ m. ⊤ };

    fn way(&self) -> Way<'_, R, Open> {
        Way::NoThread
    }
}

#[test]
fn mover_without_threads(rt: HostRuntime) -> Result<(), Fail> {
    let mover: Threadless<&HostRuntime> = Threadless { of: PhantomData };
    let from = tens(&rt, rt.alloc())?;
    let refused = mover.move_pieces(rt.alloc(), &from, &in_turn()?);
    assert!(rt; refused.err() == Some(MoveErr::NoThread));
    Ok(())
}

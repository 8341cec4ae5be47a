//! Which numbers stand at which points.

ghost use Rattle.std.specs.Prelude.{◌≡◌, ℕ, ◌<◌, ◌≤◌, ◌||◌, [], ◌∷◌, false, true, Some, None, IsTrue, OnOk, OnErr, length, slice_index_or, if◌then◌else◌};
ghost use Rattle.std.specs.List.{list_any};
ghost use Rattle.std.specs.Ordering.{eq_by_cmp, int_cmp};
ghost use Rattle.wb_footprints.specs.Marks.{marked};
ghost use Rattle.wb_footprints.specs.Points.{Coordinates, point_cmp};
ghost use Rattle.wb_footprints.specs.PointMarks.{at_single, point_marked, single_of};
ghost use Rattle.wb_footprints.specs.Relation.{Sets, IsLeastAfter, JoinedAfter};

use crate::marks::earlier::earlier;
use crate::marks::key_marks::Marks;
use crate::marks::numbers::Numbers;
use crate::places::points::Points;
use std::alloc::Global;
use wb_cells::Point;
use wb_range::NoMemory;

/// Numbers at points. Those of one coordinate are kept by it alone, in half the room.
#[derive(Drop)]
pub struct PointMarks {
    single: Marks<i64>,
    others: Marks<Point>,
}

impl PointMarks {
    /// No marks.
    pub fn new(alloc: Global) -> PointMarks
        ensures { (p : Coordinates) (n : ℕ) → point_marked result p n ≡ false }
    {
        PointMarks {
            single: Marks::new(alloc),
            others: Marks::new(alloc),
        }
    }

    /// Whether no number stands at any point.
    pub fn is_empty(&self) -> bool
        ensures { IsTrue result → (p : Coordinates) (n : ℕ) → point_marked self.now p n ≡ false }
    {
        if !self.single.is_empty() {
            return false;
        }
        self.others.is_empty()
    }

    /// Adds a number at the point of one coordinate.
    pub fn add_single(&mut self, coordinate: i64, number: u64) -> Result<(), NoMemory>
        ensures ok { OnOk result (Sets (point_marked self.old) (point_marked self.new) (eq_by_cmp point_cmp (coordinate ∷ [])) number true) }
        ensures err { OnErr result (self.new ≡ self.old) }
    {
        self.single.add(coordinate, number)
    }

    /// Adds a number at a point.
    pub fn add(&mut self, point: Point, number: u64) -> Result<(), NoMemory>
        ensures ok { OnOk result (Sets (point_marked self.old) (point_marked self.new) (eq_by_cmp point_cmp point) number true) }
        ensures err { OnErr result (self.new ≡ self.old) }
    {
        match coordinate_of(&point) {
            Some(coordinate) => self.add_single(coordinate, number),
            None => self.others.add(point, number),
        }
    }

    /// Takes a number away from the point of one coordinate.
    pub fn take_single(&mut self, coordinate: i64, number: u64)
        ensures { Sets (point_marked self.old) (point_marked self.new) (eq_by_cmp point_cmp (coordinate ∷ [])) number false }
    {
        self.single.take(coordinate, number);
        self.others.take(Point::single(coordinate), number);
    }

    /// Takes a number away from a point.
    pub fn take(&mut self, point: Point, number: u64)
        ensures { Sets (point_marked self.old) (point_marked self.new) (eq_by_cmp point_cmp point) number false }
    {
        match coordinate_of(&point) {
            Some(coordinate) => self.take_single(coordinate, number),
            None => self.others.take(point, number),
        }
    }

    /// The least number above `after` at the point of one coordinate.
    pub fn single_after(&self, coordinate: i64, after: u64) -> Option<u64>
        ensures { IsLeastAfter (point_marked self.now (coordinate ∷ [])) after result }
    {
        earlier(
            self.single.least_after(coordinate, after),
            self.others.least_after(Point::single(coordinate), after),
        )
    }

    /// The least number above `after` at a point.
    pub fn least_after(&self, point: Point, after: u64) -> Option<u64>
        ensures { IsLeastAfter (point_marked self.now point) after result }
    {
        earlier(
            least_at_single(&self.single, &point, after),
            self.others.least_after(point, after),
        )
    }

    /// The least number above `after` at one of several points: from mark to mark, past the points without one, and from
    /// point to point, past the marks that stand at none.
    pub fn least_in(&self, points: &Points, after: u64) -> Option<u64>
        ensures { IsLeastAfter (λ n. list_any (λ p. point_marked self.now p n) points.now) after result }
    {
        earlier(
            least_single(&self.single, points, after),
            least_other(&self.others, points, after),
        )
    }

    /// Those above `after` at a point join the numbers that wait.
    pub fn join_after(
        &self,
        point: Point,
        after: u64,
        waiting: &mut Numbers,
    ) -> Result<(), NoMemory>
        ensures { OnOk result (JoinedAfter waiting.old waiting.new (point_marked self.now point) after) }
    {
        join_at_single(&self.single, &point, after, waiting)?;
        self.others.join_after(point, after, waiting)
    }

    /// Those above `after` at one of several points join the numbers that wait: all at a point, and then those at the next
    /// that may have any.
    pub fn join_in(
        &self,
        points: &Points,
        after: u64,
        waiting: &mut Numbers,
    ) -> Result<(), NoMemory>
        ensures { OnOk result (JoinedAfter waiting.old waiting.new (λ n. list_any (λ p. point_marked self.now p n) points.now) after) }
    {
        join_single(&self.single, points, after, waiting)?;
        join_others(&self.others, points, after, waiting)
    }
}

// The coordinate of a point that has one alone.
fn coordinate_of(point: &Point) -> Option<i64>
    ensures { result ≡ single_of point.now }
{
    match point.coordinates() {
        [coordinate] => Some(*coordinate),
        _ => None,
    }
}

// The least number above `after` at a point of one coordinate; none at another point.
fn least_at_single(marks: &Marks<i64>, point: &Point, after: u64) -> Option<u64>
    ensures { IsLeastAfter (at_single marks.now point.now) after result }
{
    match coordinate_of(point) {
        Some(coordinate) => marks.least_after(coordinate, after),
        None => None,
    }
}

// The least number above `after` that stands at one of several points, of those kept by their one coordinate.
fn least_single(marks: &Marks<i64>, points: &Points, after: u64) -> Option<u64>
    ensures { IsLeastAfter (λ n. list_any (λ p. at_single marks.now p n) points.now) after result }
{
    let count = points.len();
    let mut first = None;
    let mut at = 0;
    while at < count {
        let point = points.point(at);
        match coordinate_of(&point) {
            None => at += 1,
            Some(coordinate) => match marks.first_behind(coordinate, after) {
                None => return first,
                Some(mark) => {
                    let next = Point::single(mark.0);
                    first = earlier(first, number_at(&(next, mark.1), &point));
                    at = points.place_from(at + 1, &next);
                }
            },
        }
    }
    first
}

// The least number above `after` that stands at one of several points, of those kept by the whole point.
fn least_other(marks: &Marks<Point>, points: &Points, after: u64) -> Option<u64>
    ensures { IsLeastAfter (λ n. list_any (λ p. marked point_cmp marks.now p n) points.now) after result }
{
    let count = points.len();
    let mut first = None;
    let mut at = 0;
    while at < count {
        let point = points.point(at);
        match marks.first_behind(point, after) {
            None => return first,
            Some(mark) => {
                first = earlier(first, number_at(&mark, &point));
                at = points.place_from(at + 1, &mark.0);
            }
        }
    }
    first
}

// The number of a mark, if it stands at a point.
fn number_at(mark: &(Point, u64), point: &Point) -> Option<u64>
    ensures { result ≡ (if eq_by_cmp point_cmp mark.now.0 point.now then Some mark.now.1 else None) }
{
    if mark.0 == *point { Some(mark.1) } else { None }
}

// Those above `after` at a point of one coordinate join the numbers that wait; none at another point.
fn join_at_single(
    marks: &Marks<i64>,
    point: &Point,
    after: u64,
    waiting: &mut Numbers,
) -> Result<(), NoMemory>
    ensures { OnOk result (JoinedAfter waiting.old waiting.new (at_single marks.now point.now) after) }
{
    match coordinate_of(point) {
        Some(coordinate) => marks.join_after(coordinate, after, waiting),
        None => Ok(()),
    }
}

// The first place behind one at whose point a number above `after` may stand, of those kept by their one coordinate.
fn next_single(marks: &Marks<i64>, points: &Points, at: usize, after: u64) -> usize
    requires { at < length points.now }
    ensures behind { at < result }
    ensures within { result ≤ length points.now }
    ensures none { (i n : ℕ) (d : Coordinates) → at < i → i < result → after < n → at_single marks.now (slice_index_or points.now i d) n ≡ false }
{
    let count = points.len();
    let point = points.point(at);
    match coordinate_of(&point) {
        None => at + 1,
        Some(coordinate) => match marks.first_behind(coordinate, after) {
            None => count,
            Some(mark) => points.place_from(at + 1, &Point::single(mark.0)),
        },
    }
}

// Those above `after` at one of several points join the numbers that wait, of those kept by their one coordinate.
fn join_single(
    marks: &Marks<i64>,
    points: &Points,
    after: u64,
    waiting: &mut Numbers,
) -> Result<(), NoMemory>
    ensures { OnOk result (JoinedAfter waiting.old waiting.new (λ n. list_any (λ p. at_single marks.now p n) points.now) after) }
{
    let count = points.len();
    let mut at = 0;
    while at < count {
        let point = points.point(at);
        join_at_single(marks, &point, after, waiting)?;
        at = next_single(marks, points, at, after);
    }
    Ok(())
}

// The first place behind one at whose point a number above `after` may stand, of those kept by the whole point.
fn next_other(marks: &Marks<Point>, points: &Points, at: usize, after: u64) -> usize
    requires { at < length points.now }
    ensures behind { at < result }
    ensures within { result ≤ length points.now }
    ensures none { (i n : ℕ) (d : Coordinates) → at < i → i < result → after < n → marked point_cmp marks.now (slice_index_or points.now i d) n ≡ false }
{
    let count = points.len();
    let point = points.point(at);
    match marks.first_behind(point, after) {
        None => count,
        Some(mark) => points.place_from(at + 1, &mark.0),
    }
}

// Those above `after` at one of several points join the numbers that wait, of those kept by the whole point.
fn join_others(
    marks: &Marks<Point>,
    points: &Points,
    after: u64,
    waiting: &mut Numbers,
) -> Result<(), NoMemory>
    ensures { OnOk result (JoinedAfter waiting.old waiting.new (λ n. list_any (λ p. marked point_cmp marks.now p n) points.now) after) }
{
    let count = points.len();
    let mut at = 0;
    while at < count {
        let point = points.point(at);
        marks.join_after(point, after, waiting)?;
        at = next_other(marks, points, at, after);
    }
    Ok(())
}

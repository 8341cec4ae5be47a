//! One dimension of a mapping: the coordinate of the locale on which an index lies. Every i64 is handled: the distance of
//! two is kept unsigned.
ghost use Rattle.std.specs.Prelude.{◌≡◌, pos, ◌+◌, ◌-◌, ◌*◌, ◌/◌, ◌≤◌, ◌<◌, ◌^◌, ◌≤ℤ◌, ◌<ℤ◌, ◌-ℤ◌, negsuc};
ghost use Rattle.wb_dist.specs.Axis.{block_coordinate, cyclic_coordinate, block_cyclic_coordinate};

// The coordinate for `i` where the box `low..high` is cut into `count` blocks.
pub(crate) fn block_coordinate(low: i64, high: i64, count: u64, i: i64) -> u64
    requires some { 0 < count }
    requires few { count ≤ 256 }
    ensures value { result ≡ block_coordinate low high (pos count) i }
    ensures below { result < count }
{
    if i < low {
        return 0;
    }
    if high < i {
        return count - 1;
    }
    scaled(distance(low, i), count, distance(low, high))
}

// The coordinate for `i` where the indices are dealt out to `count` locales one by one from `start` on.
pub(crate) fn cyclic_coordinate(start: i64, count: u64, i: i64) -> u64
    requires { 0 < count }
    ensures value { result ≡ cyclic_coordinate start (pos count) i }
    ensures below { result < count }
{
    if start <= i {
        distance(start, i) % count
    } else {
        count - 1 - distance_below(start, i) % count
    }
}

// The coordinate for `i` where the indices are dealt out to `count` locales in blocks of `size` from `start` on.
pub(crate) fn block_cyclic_coordinate(start: i64, size: u64, count: u64, i: i64) -> u64
    requires filled { 0 < size }
    requires some { 0 < count }
    ensures value { result ≡ block_cyclic_coordinate start (pos size) (pos count) i }
    ensures below { result < count }
{
    if start <= i {
        distance(start, i) / size % count
    } else {
        count - 1 - distance_below(start, i) / size % count
    }
}

// How far `to` lies above `from`.
fn distance(from: i64, to: i64) -> u64
    requires { from ≤ℤ to }
    ensures { pos result ≡ to -ℤ from }
{
    to.abs_diff(from)
}

// How far `to` lies below the index before `from`.
fn distance_below(from: i64, to: i64) -> u64
    requires { to <ℤ from }
    ensures { negsuc result ≡ to -ℤ from }
{
    from.abs_diff(to) - 1
}

// `along * count / (length + 1)`, rounded down.
fn scaled(along: u64, count: u64, length: u64) -> u64
    requires inside { along ≤ length }
    requires some { 0 < count }
    requires few { count ≤ 256 }
    ensures value { result ≡ along * count / (length + 1) }
    ensures below { result < count }
{
    (along as u128 * count as u128 / (length as u128 + 1)) as u64
}

ghost use Rattle.wb_literals.specs.Spelling.{IsInteger};
ghost use Rattle.std.specs.Prelude.{◌≡◌, ◌↔◌, [], pos, ◌^◌, ◌+◌, ◌-◌, ◌*◌, ◌<◌, ◌≤◌, ℕ, ℤ, true, List, min, Some, None, option_map, option_and_then};
ghost use Rattle.wb_literals.specs.Integer.{is_digit, digits_from, digits_at, capped, integer_at, natural_at, negative, nonnegative};

// Past every i64.
const CAP: u64 = 1 << 63;

fn is_digit(byte: u8) -> bool
    ensures { result ≡ is_digit byte }
{
    b'0' <= byte && byte <= b'9'
}

// The number so far with one digit more, or a number past every i64.
fn with_digit(number: u64, byte: u8) -> u64
    requires digit { is_digit byte ≡ true }
    requires bound { number ≤ 2 ^ 63 + 1 }
    ensures { result ≡ min (10 * number + (byte - 48)) (2 ^ 63 + 1) }
{
    if number > CAP / 10 {
        return CAP + 1;
    }
    (10 * number + (byte - b'0') as u64).min(CAP + 1)
}

// The digits at the front, as a number that stops past every i64, and what follows them.
#[tactic(auto, using(crate::proofs::Digits::step_at, crate::proofs::Digits::stop_at, crate::proofs::Digits::end_at))]
fn digits_from(start: u64, bytes: &[u8]) -> (u64, &[u8])
    requires { start ≤ 2 ^ 63 + 1 }
    ensures { (result.0, result.1.now) ≡ capped (digits_from start bytes.now) }
{
    let mut number = start;
    let mut n = 0;
    while n < bytes.len() {
        if !is_digit(bytes[n]) {
            return (number, &bytes[n..]);
        }
        number = with_digit(number, bytes[n]);
        n += 1;
    }
    (number, &bytes[n..])
}

// The digits at the front, one or more.
fn digits_at(bytes: &[u8]) -> Option<(u64, &[u8])>
    ensures { option_map (λ x. (x.0, x.1.now)) result ≡ option_map capped (digits_at bytes.now) }
{
    match bytes {
        [first, rest @ ..] if is_digit(*first) => Some(digits_from((*first - b'0') as u64, rest)),
        _ => None,
    }
}

/// Digits alone at the front, a number within i64.
pub fn natural_at(bytes: &[u8]) -> Option<(u64, &[u8])>
    ensures { option_map (λ x. (x.0, x.1.now)) result ≡ natural_at bytes.now }
{
    let (number, rest) = digits_at(bytes)?;
    if number < CAP {
        Some((number, rest))
    } else {
        None
    }
}

// A number with a minus before it, and what follows it.
fn minus_at(bytes: &[u8]) -> Option<(i64, &[u8])>
    ensures { option_map (λ x. (x.0, x.1.now)) result ≡ option_and_then negative (digits_at bytes.now) }
{
    let (number, rest) = digits_at(bytes)?;
    if number < CAP {
        Some((-(number as i64), rest))
    } else if number == CAP {
        Some((i64::MIN, rest))
    } else {
        None
    }
}

fn plus_at(bytes: &[u8]) -> Option<(i64, &[u8])>
    ensures { option_map (λ x. (x.0, x.1.now)) result ≡ option_and_then nonnegative (digits_at bytes.now) }
{
    let (number, rest) = digits_at(bytes)?;
    if number < CAP {
        Some((number as i64, rest))
    } else {
        None
    }
}

/// The integer at the front, within i64, and what follows it.
pub fn integer_at(bytes: &[u8]) -> Option<(i64, &[u8])>
    ensures { option_map (λ x. (x.0, x.1.now)) result ≡ integer_at bytes.now }
{
    match bytes {
        [b'-', rest @ ..] => minus_at(rest),
        _ => plus_at(bytes),
    }
}

/// An integer is the whole of a text just where the text is a spelling of it.
pub fn integer_spelling()
    ensures { (text : List ℕ) (z : ℤ) → (integer_at text ≡ Some (z, [])) ↔ IsInteger text z }
{}

// Reads a number (documents 01, "A line, a number", and 02, No. 4) as an exact signed decimal in millionths.
// A client cites Reading (reading_of, is_number). That this reading is the documents' wording (Grammar) is the theorem `agree` of proofs/Agree.antt.
#![tactic(auto)]

ghost use Rattle.std.specs.Prelude.{◌≡◌, ◌+◌, ◌*◌, ◌^◌, ◌≤◌, ◌<◌, length, take};
ghost use Rattle.text.specs.Run.{run_of, is_digit};
ghost use Rattle.number_decimal.specs.Digits.{most_bytes, value_from, scale_of};
ghost use Rattle.number_decimal.specs.Reading.{Small, whole_of, closes_bracket, is_tail, size_of, point_length, unsigned_of, sign_length, signed_of, reading_of};

// The digits that a text begins with: how many, and the number that they write.
#[derive(Clone, Copy)]
struct DigitRun {
    count: usize,
    value: u64,
}

// The limits of a number.
const MOST_DIGITS: usize = 9;

const MOST_PLACES: usize = 6;

const MOST_UNCERTAIN: usize = 4;

// No number is longer: a sign, the digits, a point, and the uncertainty in its brackets.
const MOST_BYTES: usize = 1 + MOST_DIGITS + 1 + MOST_UNCERTAIN + 2;

// The digits that s begins with, and the number that they write after acc.
fn read_run(acc: u64, s: &[u8]) -> DigitRun
    requires { (acc + 1) * 10 ^ length s.now ≤ 10 ^ most_bytes }
    ensures { (result.count ≡ run_of is_digit s.now) × (result.value ≡ value_from acc (take (run_of is_digit s.now) s.now)) }
{
    let mut value = acc;
    for (i, &b) in s.iter().enumerate() {
        if !text::is_between(b, b'0', b'9') {
            return DigitRun { count: i, value };
        }
        value = value * 10 + u64::from(b - b'0');
    }
    DigitRun {
        count: s.len(),
        value,
    }
}

// The whole number that 1 to 9 digits write.
#[tactic(auto, unfolding(crate::specs::Reading::whole_of))]
pub fn read_digits(s: &[u8]) -> Option<u64>
    ensures { result ≡ whole_of s.now }
{
    if s.is_empty() || MOST_DIGITS < s.len() {
        return None;
    }
    let digits = read_run(0, s);
    if digits.count == s.len() {
        Some(digits.value)
    } else {
        None
    }
}

// What the last of n digits after the point is worth, in millionths.
fn scale(n: usize) -> u64
    ensures { (result ≡ scale_of n) × (result ≤ 1000000) }
{
    match n {
        0 => 1000000,
        1 => 100000,
        2 => 10000,
        3 => 1000,
        4 => 100,
        5 => 10,
        _ => 1,
    }
}

// Whether u is 1 to 4 digits, a bracket that closes, and nothing more.
#[tactic(auto, unfolding(crate::specs::Reading::closes_bracket))]
fn closes_bracket(u: &[u8]) -> bool
    ensures { result ≡ closes_bracket u.now }
{
    let n = text::run::run_between(u, b'0', b'9');
    1 <= n && n <= MOST_UNCERTAIN && u.len() == n + 1 && u[n] == b')'
}

// Whether s, which follows the digits, is empty or an uncertainty in round brackets.
#[tactic(auto, unfolding(crate::specs::Reading::is_tail))]
fn is_tail(s: &[u8]) -> bool
    ensures { result ≡ is_tail s.now }
{
    match s {
        [] => true,
        [b'(', rest @ ..] => closes_bracket(rest),
        _ => false,
    }
}

// The size of so many digits, so many of them after the point, that write a value, and of what follows, if their numbers are right.
#[tactic(auto, unfolding(crate::specs::Reading::size_of))]
fn sized(digits: usize, places: usize, value: u64, tail: &[u8]) -> Option<u64>
    requires { value < 10 ^ digits }
    ensures { (result ≡ size_of digits places value tail.now) × Small result }
{
    if 1 <= digits && digits <= MOST_DIGITS && places <= MOST_PLACES && is_tail(tail) {
        Some(value * scale(places))
    } else {
        None
    }
}

// How long the point at a place of s is: 1, or 0 where there is none.
fn point_length(s: &[u8], at: usize) -> usize
    ensures { result ≡ point_length s.now at }
{
    usize::from(text::has(s, at, b'.'))
}

// A number with no sign: digits, a point, digits, each of them or none, and what follows. Without a point no digit follows the first ones.
fn unsigned(s: &[u8]) -> Option<u64>
    requires { length s.now ≤ most_bytes }
    ensures { (result ≡ unsigned_of s.now) × Small result }
{
    let before = read_run(0, s);
    let start = before.count + point_length(s, before.count);
    let fraction = read_run(before.value, &s[start..]);
    let end = start + fraction.count;
    sized(
        before.count + fraction.count,
        fraction.count,
        fraction.value,
        &s[end..],
    )
}

// The number of that size, below zero or not.
fn with_sign(negative: bool, z: Option<u64>) -> Option<i64>
    requires { Small z }
    ensures { result ≡ signed_of negative z }
{
    let v = z? as i64;
    if negative { Some(-v) } else { Some(v) }
}

// How long the sign is that s begins with: 1, or 0 where there is none.
fn sign_length(s: &[u8]) -> usize
    ensures { result ≡ sign_length s.now }
{
    usize::from(text::has(s, 0, b'-') || text::has(s, 0, b'+'))
}

// The number that s is, in millionths, or that it is none.
pub fn read_number(s: &[u8]) -> Option<i64>
    ensures { result ≡ reading_of s.now }
{
    if MOST_BYTES < s.len() {
        return None;
    }
    let sign = sign_length(s);
    with_sign(text::has(s, 0, b'-'), unsigned(&s[sign..]))
}

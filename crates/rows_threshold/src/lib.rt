// Row 12: the threshold expression (document 01, "The twelve rows").
#![tactic(auto)]

ghost use Rattle.std.specs.Prelude.{◌≡◌, ◌-◌, length, true, false, MatchOption};
ghost use Rattle.text.specs.Run.{has_at};
ghost use Rattle.rows_threshold.specs.Threshold.{has_shape, inside_of, multiplier_of, threshold_level, multiplier_row, threshold_row, row12};

use rows::{Row, is_missing, judged_row, make_row};

// What stands in t between p, with which t begins, and q, with which the rest ends.
fn inside<'a>(t: &'a [u8], p: &[u8], q: &[u8]) -> Option<&'a [u8]>
    ensures { MatchOption result (has_shape p.now q.now t.now ≡ false) (λ x. (has_shape p.now q.now t.now ≡ true) × (x.now ≡ inside_of p.now q.now t.now)) }
{
    t.strip_prefix(p)?.strip_suffix(q)
}

// Whether x ends with the byte b.
fn ends_with(x: &[u8], b: u8) -> bool
    ensures { result ≡ has_at x.now (length x.now - 1) b }
{
    !x.is_empty() && text::has(x, x.len() - 1, b)
}

// The multiplier that x is.
#[tactic(auto, unfolding(crate::specs::Threshold::multiplier_of))]
fn read_multiplier(x: &[u8]) -> Option<u64>
    ensures { result ≡ multiplier_of x.now }
{
    if text::has(x, 0, b'+') || text::has(x, 0, b'-') || ends_with(x, b')') {
        return None;
    }
    let Some(v) = number_decimal::read_number(x) else {
        return None;
    };
    u64::try_from(v).ok()
}

// The level of x, in millionths, for F alone or not.
#[tactic(auto, unfolding(crate::specs::Threshold::threshold_level))]
fn threshold_level(alone: bool, x: u64) -> u8
    ensures { result ≡ threshold_level alone x }
{
    let least = rows_levels::bounds_of(12, alone);
    rows_levels::level(least.a <= x, least.b <= x, least.c <= x)
}

// The row of what stands for x, of F alone or not.
fn row_of_x(alone: bool, x: &[u8]) -> Row
    ensures { result ≡ multiplier_row alone (multiplier_of x.now) }
{
    judged_row(read_multiplier(x).map(|m| threshold_level(alone, m)))
}

// The row of the text without quotes.
#[tactic(auto, unfolding(crate::specs::Threshold::threshold_row))]
fn row_of_text(t: &[u8]) -> Row
    ensures { result ≡ threshold_row t.now }
{
    if let Some(x) = inside(t, b"I > ", b"\\s(I)") {
        return row_of_x(false, x);
    }
    if let Some(x) = inside(t, b"F^2^ > ", b"\\s(F^2^)") {
        return row_of_x(false, x);
    }
    if let Some(x) = inside(t, b"F > ", b"\\s(F)") {
        return row_of_x(true, x);
    }
    make_row(2, 2)
}

// Row 12.
#[tactic(auto, unfolding(crate::specs::Threshold::row12))]
pub fn threshold_row(threshold: &[u8]) -> Row
    ensures { result ≡ row12 threshold.now }
{
    if is_missing(threshold) {
        return make_row(2, 1);
    }
    row_of_text(line_quotes::text_of(threshold))
}

// The alert levels of document 01, "The twelve rows".
// A client cites Level (level_of, Highest) and Bounds (bounds_of, graded_of, graded_number, graded_level).
#![tactic(auto)]

ghost use Rattle.std.specs.Prelude.{◌≡◌, ◌<◌, ◌^◌, cond};
ghost use Rattle.std.specs.Int.Signed.{mag};
ghost use Rattle.rows_levels.specs.Level.{level_of};
ghost use Rattle.rows_levels.specs.Bounds.{first_line, second_line, bounds_at, bounds_of, is_graded, judged_of, grade_of, graded_of};

// The bounds of A, B and C in one row.
#[derive(Clone, Copy)]
pub struct Bounds {
    pub a: u64,
    pub b: u64,
    pub c: u64,
}

// Why a typed value earns no level: the row has no three bounds, or the value is no number.
#[derive(Clone, Copy)]
pub enum Ungraded {
    NoRow,
    NoNumber,
}

// The table of three-bound grades: rows 4 (below, above), 6, 8, 10, 12 (for I and F^2^, for F), and zeros for the rows that have none.
// Row 4's are hundredths, the others millionths. The table is lent, so that no call builds a copy of it.
const BOUNDS: &[Bounds] = &[
    Bounds {
        a: 90,
        b: 95,
        c: 99,
    },
    Bounds {
        a: 110,
        b: 105,
        c: 101,
    },
    Bounds {
        a: 200000,
        b: 150000,
        c: 100000,
    },
    Bounds {
        a: 450000,
        b: 350000,
        c: 250000,
    },
    Bounds {
        a: 200000,
        b: 100000,
        c: 50000,
    },
    Bounds {
        a: 6000000,
        b: 5000000,
        c: 4000000,
    },
    Bounds {
        a: 12000000,
        b: 10000000,
        c: 8000000,
    },
    Bounds { a: 0, b: 0, c: 0 },
];

// The row whose numbers are judged by their absolute value.
const ABSOLUTE: u64 = 10;

// The place in the table of a row's bounds, or of its second ones, which rows 4 (above) and 12 (for F) have.
fn line_of(row: u64, second: bool) -> usize
    ensures { (result ≡ cond second (second_line row) (first_line row)) × (result < 8) }
{
    match (row, second) {
        (4, false) => 0,
        (4, true) => 1,
        (6, false) => 2,
        (8, false) => 3,
        (10, false) => 4,
        (12, false) => 5,
        (12, true) => 6,
        _ => 7,
    }
}

#[tactic(auto, unfolding(crate::specs::Bounds::bounds))]
fn bounds_at(line: usize) -> Bounds
    requires { line < 8 }
    ensures { result ≡ bounds_at line }
{
    BOUNDS[line]
}

// The bounds of a row, or its second ones; zeros where there are none.
// No Option, since each caller asks for a row that has bounds, and would have an arm that is never taken.
pub fn bounds_of(row: u64, second: bool) -> Bounds
    ensures { result ≡ bounds_of row second }
{
    bounds_at(line_of(row, second))
}

// Whether one number is graded by a row's bounds: row 6, 8 or 10.
fn is_graded(row: u64) -> bool
    ensures { result ≡ is_graded row }
{
    matches!(row, 6 | 8 | 10)
}

// The highest level whose bound is broken, or 0: 4 for a, 3 for b, 2 for c.
pub fn level(a: bool, b: bool, c: bool) -> u8
    ensures { result ≡ level_of a b c }
{
    if a {
        return 4;
    }
    if b {
        return 3;
    }
    if c {
        return 2;
    }
    0
}

// What is judged of a number: in row 10 its absolute value, negated where it is below zero.
#[tactic(auto, unfolding(crate::specs::Bounds::judged_of))]
fn judged(row: u64, v: i64) -> i64
    requires { mag v < 2 ^ 62 }
    ensures { result ≡ judged_of row v }
{
    if row == ABSOLUTE && v < 0 { -v } else { v }
}

// The level of a number by the three bounds of a row.
fn grade(row: u64, v: i64) -> u8
    requires { mag v < 2 ^ 62 }
    ensures { result ≡ grade_of row v }
{
    let z = judged(row, v);
    let most = bounds_of(row, false);
    level(
        (most.a as i64) < z,
        (most.b as i64) < z,
        (most.c as i64) < z,
    )
}

// The level that a typed value earns in a row.
#[tactic(auto, unfolding(crate::specs::Bounds::graded_of))]
pub fn grade_value(row: u64, typed: &[u8]) -> Result<u8, Ungraded>
    ensures { result ≡ graded_of row typed.now }
{
    if !is_graded(row) {
        return Err(Ungraded::NoRow);
    }
    let Some(v) = number_decimal::read_number(typed) else {
        return Err(Ungraded::NoNumber);
    };
    Ok(grade(row, v))
}

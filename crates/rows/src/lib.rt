// A row of the report, rows without an alert, and when the value of an item is missing (document 01, "The twelve rows"; document 02, No. 11: rows 13 to 24, No. 12: row 25).
#![tactic(auto)]

ghost use Rattle.std.specs.Prelude.{◌≡◌};
ghost use Rattle.rows.specs.Rows.{row_of, judged_row, no_rows, missing};

pub const ROW_COUNT: usize = 25;

// The profiles are 0, single-crystal, and 1, powder.
pub const PROFILE_COUNT: u64 = 2;

pub const POWDER: u64 = 1;

// Level 0 none, 1 General, 2 C, 3 B, 4 A. Reason 0 judged, 1 an item missing, 2 not judgeable.
#[repr(C)]
#[derive(Clone, Copy)]
pub struct Row {
    pub level: u8,
    pub reason: u8,
}

#[repr(C)]
#[derive(Clone, Copy)]
pub struct Rows {
    pub rows: [Row; ROW_COUNT],
}

// A row of that level and reason.
pub fn make_row(level: u8, reason: u8) -> Row
    ensures { result ≡ row_of level reason }
{
    Row { level, reason }
}

// The row of a value by its level, or of one that cannot be judged, which is C.
pub fn judged_row(level: Option<u8>) -> Row
    ensures { result ≡ judged_row level }
{
    match level {
        Some(level) => make_row(level, 0),
        None => make_row(2, 2),
    }
}

// Rows with no alert.
pub fn no_rows() -> Rows
    ensures { result ≡ no_rows }
{
    let none = Row {
        level: 0,
        reason: 0,
    };
    Rows {
        rows: [none; ROW_COUNT],
    }
}

// Whether the value of an item is missing: empty or unassigned.
#[tactic(auto, unfolding(crate::specs::Rows::missing))]
pub fn is_missing(v: &[u8]) -> bool
    ensures { result ≡ missing v.now }
{
    v.is_empty() || line_values::is_unassigned(v)
}

// Rows 6 to 11: values with a new and an old name (document 01, "The twelve rows").
#![tactic(auto)]

ghost use Rattle.std.specs.Prelude.{◌≡◌};
ghost use Rattle.rows_graded.specs.GradedRows.{graded_row, old_name_row};

use rows::{Row, is_missing, judged_row, make_row};

// Row 6, 8 or 10: the new name's value is judged if assigned, otherwise the old one's.
#[tactic(auto, unfolding(crate::specs::GradedRows::graded_row))]
pub fn graded_row(row: u64, new: &[u8], old: &[u8]) -> Row
    ensures { result ≡ graded_row row new.now old.now }
{
    let value = if is_missing(new) { old } else { new };
    if is_missing(value) {
        return make_row(2, 1);
    }
    judged_row(rows_levels::grade_value(row, value).ok())
}

// Row 7, 9 or 11: General if the old name's value is assigned.
#[tactic(auto, unfolding(crate::specs::GradedRows::old_name_row))]
pub fn old_name_row(old: &[u8]) -> Row
    ensures { result ≡ old_name_row old.now }
{
    if is_missing(old) {
        make_row(0, 0)
    } else {
        make_row(1, 0)
    }
}

// All rows of a sheet.
ghost use Rattle.std.specs.Prelude.{◌≡◌};
ghost use Rattle.desk_memory.specs.Memory.{sheet_from};
ghost use Rattle.rows_sheet.specs.Sheet.{rows_of};

use rows::Rows;
use rows_counted::{counted_row, value_of};
use rows_formula::{class_row, order_row, recognised_row};
use rows_graded::{graded_row, old_name_row};
use rows_moiety::moiety_row;
use rows_threshold::threshold_row;

// The rows of a sheet in a profile, in its block of memory.
pub fn sheet_rows(profile: u64, texts: &[u8], numbers: &[usize]) -> Rows
    ensures { result ≡ rows_of profile (sheet_from texts.now numbers.now) }
{
    let formula = value_of(texts, numbers, 1);
    let weight = value_of(texts, numbers, 2);
    let category = value_of(texts, numbers, 3);
    let weighed = rows_weight::weight_rows(formula, weight, category);
    let r_old = value_of(texts, numbers, 5);
    let wr_old = value_of(texts, numbers, 7);
    let shift_old = value_of(texts, numbers, 9);
    Rows {
        rows: [
            recognised_row(formula),
            order_row(formula),
            class_row(formula, category),
            weighed.ratio,
            weighed.difference,
            graded_row(6, value_of(texts, numbers, 4), r_old),
            old_name_row(r_old),
            graded_row(8, value_of(texts, numbers, 6), wr_old),
            old_name_row(wr_old),
            graded_row(10, value_of(texts, numbers, 8), shift_old),
            old_name_row(shift_old),
            threshold_row(value_of(texts, numbers, 10)),
            counted_row(profile, 13, texts, numbers),
            counted_row(profile, 14, texts, numbers),
            counted_row(profile, 15, texts, numbers),
            counted_row(profile, 16, texts, numbers),
            counted_row(profile, 17, texts, numbers),
            counted_row(profile, 18, texts, numbers),
            counted_row(profile, 19, texts, numbers),
            counted_row(profile, 20, texts, numbers),
            counted_row(profile, 21, texts, numbers),
            counted_row(profile, 22, texts, numbers),
            counted_row(profile, 23, texts, numbers),
            counted_row(profile, 24, texts, numbers),
            moiety_row(formula, value_of(texts, numbers, 19)),
        ],
    }
}

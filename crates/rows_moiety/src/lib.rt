// Row 25: the moiety formula against the formula (document 02, No. 12).
#![tactic(auto)]

ghost use Rattle.std.specs.Prelude.{◌≡◌};
ghost use Rattle.rows_moiety.specs.MoietyRow.{totals_row, row25};

use formula_totals::Compared;
use rows::{Row, is_missing, make_row};

// The row of what the comparison finds.
fn totals_row(c: Compared) -> Row
    ensures { result ≡ totals_row c }
{
    match c {
        Compared::Same => make_row(0, 0),
        Compared::Differs => make_row(3, 0),
        Compared::Unread => make_row(2, 2),
    }
}

// Row 25: the totals of each element in the moiety formula, item 19, against those in the formula, item 1. Both are values as typed.
#[tactic(auto, unfolding(crate::specs::MoietyRow::row25))]
pub fn moiety_row(formula: &[u8], moiety: &[u8]) -> Row
    ensures { result ≡ row25 formula.now moiety.now }
{
    if is_missing(formula) || is_missing(moiety) {
        return make_row(0, 1);
    }
    totals_row(formula_totals::compare(line_quotes::text_of(moiety), line_quotes::text_of(formula)))
}

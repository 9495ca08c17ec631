// Rows 1 to 3: the formula by itself, and against the category (document 01, "The twelve rows").
#![tactic(auto)]

ghost use Rattle.std.specs.Prelude.{◌≡◌, cond};
ghost use Rattle.rows.specs.Rows.{row_of, no_alert, missing};
ghost use Rattle.rows_formula.specs.FormulaRows.{row1, row2, row3};

use rows::{Row, is_missing, make_row};

// The row of a formula that is there by whether it passed a test.
fn tested_row(formula: &[u8], passed: bool, level: u8) -> Row
    ensures { result ≡ cond (missing formula.now) (row_of 2 1) (cond passed no_alert (row_of level 0)) }
{
    if is_missing(formula) {
        return make_row(2, 1);
    }
    if passed {
        make_row(0, 0)
    } else {
        make_row(level, 0)
    }
}

// Row 1: every term is well formed and recognised.
#[tactic(auto, unfolding(crate::specs::FormulaRows::row1))]
pub fn recognised_row(formula: &[u8]) -> Row
    ensures { result ≡ row1 formula.now }
{
    let passed = formula_sum::recognised::all_recognised(line_quotes::text_of(formula));
    tested_row(formula, passed, 4)
}

// Row 2: the symbols stand in order.
#[tactic(auto, unfolding(crate::specs::FormulaRows::row2))]
pub fn order_row(formula: &[u8]) -> Row
    ensures { result ≡ row2 formula.now }
{
    let passed = formula_order::in_order(line_quotes::text_of(formula));
    tested_row(formula, passed, 3)
}

// Row 3: the class of the formula against the category.
#[tactic(auto, unfolding(crate::specs::FormulaRows::row3))]
pub fn class_row(formula: &[u8], category: &[u8]) -> Row
    ensures { result ≡ row3 formula.now category.now }
{
    if is_missing(formula) || is_missing(category) {
        return make_row(1, 1);
    }
    let t = line_quotes::text_of(formula);
    if !formula_sum::recognised::all_recognised(t) {
        return make_row(1, 2);
    }
    if line_categories::is_in_class(formula_class::class_of(t), line_quotes::text_of(category)) {
        make_row(0, 0)
    } else {
        make_row(1, 0)
    }
}

// The static library of the check of symmetry operators: include/symmetry.h declares these functions. Each calls the function of export_symmetry that has its name, and states its clauses again.
#![tactic(auto)]

ghost use Rattle.std.specs.Prelude.{◌≡◌};
ghost use Rattle.symmetry_operators.specs.Check.{checked};
ghost use Rattle.symmetry_readings.specs.Answers.{reading_number, numbers};
ghost use Rattle.symmetry_text.specs.Reading.{reading_of};
ghost use Rattle.export_symmetry.specs.Told.{checked_told};

use export_symmetry::{SymmetryChecked, SymmetryOperator};

// The row of an operator's text: answer 0 or 13.
#[unsafe(no_mangle)]
pub extern "C" fn symmetry_read(text: &[u8]) -> SymmetryOperator
    ensures { (result.answer ≡ reading_number (reading_of text.now)) × (result.row ≡ numbers (reading_of text.now)) }
{
    export_symmetry::symmetry_read(text)
}

// The check of a list of operators, rows of twelve numbers. The list is only read.
#[unsafe(no_mangle)]
pub extern "C" fn symmetry_check(rows: &[i8]) -> SymmetryChecked
    ensures { checked_told result ≡ checked rows.now }
{
    export_symmetry::symmetry_check(rows)
}

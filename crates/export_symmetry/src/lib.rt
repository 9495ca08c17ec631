// Symmetry operators for C programs.
#![tactic(auto)]

ghost use Rattle.std.specs.Prelude.{◌≡◌};
ghost use Rattle.symmetry_operators.specs.Check.{checked};
ghost use Rattle.symmetry_readings.specs.Answers.{reading_number, numbers};
ghost use Rattle.symmetry_text.specs.Reading.{reading_of};
ghost use Rattle.export_symmetry.specs.Told.{checked_told};

use symmetry_answers::list_number;
use symmetry_judged::pairs_looked;
use symmetry_list::check_list;
use symmetry_readings::{NUMBERS, reading_number, reading_row};
use symmetry_text::read_operator;

// The number of the answer, and the twelve numbers of the row: zeros where there is none.
// The answer is a number and no enum, since C reads it.
#[repr(C)]
#[derive(Clone, Copy)]
pub struct SymmetryOperator {
    pub answer: u8,
    pub row: [i8; NUMBERS],
}

// The row of an operator's text: answer 0 or 13.
#[unsafe(no_mangle)]
pub extern "C" fn symmetry_read(text: &[u8]) -> SymmetryOperator
    ensures { (result.answer ≡ reading_number (reading_of text.now)) × (result.row ≡ numbers (reading_of text.now)) }
{
    let reading = read_operator(text);
    SymmetryOperator {
        answer: reading_number(reading),
        row: reading_row(reading),
    }
}

// How many pairs were looked at, and the number of the answer.
// The answer is a number and no enum, since C reads it.
#[repr(C)]
#[derive(Clone, Copy)]
pub struct SymmetryChecked {
    pub pairs: u64,
    pub answer: u8,
}

// The check of a list of operators, rows of twelve numbers. The list is only read.
#[unsafe(no_mangle)]
pub extern "C" fn symmetry_check(rows: &[i8]) -> SymmetryChecked
    ensures { checked_told result ≡ checked rows.now }
{
    let checked = check_list(rows);
    SymmetryChecked {
        pairs: pairs_looked(checked),
        answer: list_number(checked),
    }
}

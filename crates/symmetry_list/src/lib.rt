// The check of a list of symmetry operators, lent as rows of twelve whole numbers (document 02, No. 5).
#![tactic(auto)]

ghost use Rattle.std.specs.Prelude.{◌≡◌};
ghost use Rattle.text.specs.Run.{all};
ghost use Rattle.symmetry_operators.specs.Operator.{fine};
ghost use Rattle.symmetry_operators.specs.Check.{operator_rows, checked};
ghost use Rattle.symmetry_judged.specs.Answer.{outcome_of};

use symmetry_answers::ListRefusal;
use symmetry_judged::judge;
use symmetry_operators::ROW_LENGTH;
use symmetry_rows::row_fine;

// Whether the numbers of all rows are in range.
fn all_fine(rows: &[i8]) -> bool
    ensures { result ≡ all fine (operator_rows rows.now) }
{
    rows.chunks_exact(ROW_LENGTH).all(row_fine)
}

// The check of a list of operators. The list is only read.
#[tactic(auto, using(crate::proofs::Answers::part_row, crate::proofs::Answers::out_of_range, crate::proofs::Answers::in_range))]
pub fn check_list(rows: &[i8]) -> Result<u64, ListRefusal>
    ensures { outcome_of result ≡ checked rows.now }
{
    if rows.len() % ROW_LENGTH != 0 {
        return Err(ListRefusal::NoList);
    }
    if !all_fine(rows) {
        return Err(ListRefusal::NoList);
    }
    judge(rows)
}

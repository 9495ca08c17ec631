// The report: the rows of a sheet in a profile.
ghost use Rattle.std.specs.Prelude.{◌≡◌};
ghost use Rattle.desk_questions.specs.Report.{report_in, report_lent};

use desk_answers::QuestionRefusal;
use desk_memory::{sheet_numbers, sheet_texts};
use desk_state::desk::SHEET_COUNT;
use rows::{PROFILE_COUNT, Rows};
use rows_sheet::sheet_rows::sheet_rows;

// The report of a sheet of the desk in lent memory, in a profile.
pub fn report(
    texts: &[u8],
    numbers: &[usize],
    sheet: u64,
    profile: u64,
) -> Result<Rows, QuestionRefusal>
    ensures { report_in result ≡ report_lent texts.now numbers.now sheet profile }
{
    if SHEET_COUNT as u64 <= sheet {
        return Err(QuestionRefusal::NoSheet);
    }
    if PROFILE_COUNT <= profile {
        return Err(QuestionRefusal::NoProfile);
    }
    if !desk_soundness::is_sound(texts, numbers) {
        return Err(QuestionRefusal::Unsound);
    }
    let at = sheet as usize;
    Ok(sheet_rows(profile, sheet_texts(texts, at), sheet_numbers(numbers, at)))
}

// The hydrogen helper and the check of a count, asked of a sheet of the desk in lent memory (document 02, No. 13). The memory is lent to be read: the sheet does not change.
#![tactic(auto)]

ghost use Rattle.std.specs.Prelude.{◌≡◌};
ghost use Rattle.desk_hydrogen.specs.Hydrogens.{proposal_in, helper_lent, check_lent};

use desk_memory::{sheet_numbers, sheet_texts, value_at};
use desk_state::desk::SHEET_COUNT;
use hydrogen_answers::Refusal;

// The places of the formula and of the weight in a sheet's block.
const FORMULA: usize = 0;

const WEIGHT: usize = 1;

// The smallest right count for a sheet.
pub fn propose(texts: &[u8], numbers: &[usize], sheet: u64) -> Result<u64, Refusal>
    ensures { proposal_in result ≡ helper_lent texts.now numbers.now sheet }
{
    if SHEET_COUNT as u64 <= sheet {
        return Err(Refusal::NoSheet);
    }
    if !desk_soundness::is_sound(texts, numbers) {
        return Err(Refusal::Unsound);
    }
    let at = sheet as usize;
    let t = sheet_texts(texts, at);
    let n = sheet_numbers(numbers, at);
    hydrogen_helper::propose(value_at(t, n, FORMULA), value_at(t, n, WEIGHT))
}

// A proposed count for a sheet, if it is right.
pub fn check(texts: &[u8], numbers: &[usize], sheet: u64, count: u64) -> Result<u64, Refusal>
    ensures { proposal_in result ≡ check_lent texts.now numbers.now sheet count }
{
    if SHEET_COUNT as u64 <= sheet {
        return Err(Refusal::NoSheet);
    }
    if !desk_soundness::is_sound(texts, numbers) {
        return Err(Refusal::Unsound);
    }
    let at = sheet as usize;
    let t = sheet_texts(texts, at);
    let n = sheet_numbers(numbers, at);
    hydrogen_check::check(value_at(t, n, FORMULA), value_at(t, n, WEIGHT), count)
}

// Who typed an item.
ghost use Rattle.std.specs.Prelude.{◌≡◌, List, ℕ, ◌<◌, get_or};
ghost use Rattle.desk_state.specs.Desks.{bench_count};
ghost use Rattle.desk_memory.specs.Memory.{item_numbers, slot, item_from};
ghost use Rattle.desk_questions.specs.Who.{who_in, told_of, who_lent};

use desk_answers::QuestionRefusal;
use desk_memory::{BENCH_AT, ENTRY_AT, LEN_AT, TIMES_AT, number_at, sheet_numbers};
use desk_state::desk::SHEET_COUNT;
use line_items::ITEM_COUNT;

// The number of an item's last entry, its bench, and how many accepted entries named the item.
#[derive(Clone, Copy)]
pub struct LastEntry {
    pub entry: usize,
    pub bench: u8,
    pub times: usize,
}

// Who typed the item at a place of a sheet's block, counted from 0, whatever its value; none where it is empty. A filled item has one of the benches.
fn last_entry(numbers: &[usize], k: usize) -> Option<LastEntry>
    requires { (get_or (slot item_numbers numbers.now k) 0 0 ≡ 0 → ⊥) → get_or (slot item_numbers numbers.now k) 2 0 < bench_count }
    ensures { (value : List ℕ) → who_in (Ok result) ≡ told_of (item_from value (slot item_numbers numbers.now k)) }
{
    if number_at(numbers, k, LEN_AT) == 0 {
        return None;
    }
    let entry = number_at(numbers, k, ENTRY_AT);
    let bench = number_at(numbers, k, BENCH_AT);
    let times = number_at(numbers, k, TIMES_AT);
    Some(LastEntry {
        entry,
        bench: bench as u8,
        times,
    })
}

// Who typed the item of that number, of a sheet of the desk in lent memory; none where it is empty.
pub fn who(
    texts: &[u8],
    numbers: &[usize],
    sheet: u64,
    item: u64,
) -> Result<Option<LastEntry>, QuestionRefusal>
    ensures { who_in result ≡ who_lent texts.now numbers.now sheet item }
{
    if SHEET_COUNT as u64 <= sheet {
        return Err(QuestionRefusal::NoSheet);
    }
    if !desk_soundness::is_sound(texts, numbers) {
        return Err(QuestionRefusal::Unsound);
    }
    if item < 1 {
        return Err(QuestionRefusal::NoItem);
    }
    if (ITEM_COUNT as u64) < item {
        return Err(QuestionRefusal::NoItem);
    }
    let at = (item - 1) as usize;
    Ok(last_entry(sheet_numbers(numbers, sheet as usize), at))
}

// One entry more on a desk in memory that the caller lends: what an accepted entry stores, and which bench may make it.
#![tactic(auto)]

ghost use Rattle.std.specs.Prelude.{◌≡◌, ℕ, ◌+◌, ◌*◌, ◌-◌, ◌<◌, ◌≤◌, true, List, length};
ghost use Rattle.text_copies.specs.Copy.{copied};
ghost use Rattle.line_items.specs.Typed.{line_most};
ghost use Rattle.line_items.specs.Items.{item_count};
ghost use Rattle.desk_state.specs.Lines.{padded};
ghost use Rattle.desk_state.specs.Desks.{sheet_of_bench};
ghost use Rattle.desk_memory.specs.Memory.{item_numbers, sheet_numbers, slot, item_from, numbers_of, desk_of, used_of};
ghost use Rattle.desk_entries.specs.Entry.{with_entry_on, open_to};
ghost use Rattle.desk_entries.specs.Lent.{takes, EntryLent, Few, EntryNumbers};

use desk_memory::{
    BENCH_AT, COUNT_AT, ENTRY_AT, ITEM_NUMBERS, LEN_AT, SHEET_NUMBERS, TIMES_AT, USED_AT,
    number_at, sheet_numbers,
};
use desk_soundness::LOG_MOST;
use desk_state::desk::{BENCH_COUNT, BENCHES_EACH};
use line_items::{ITEM_COUNT, LINE_MOST};

// Whether a bench may write the item at a place of its own sheet, counted from 0, whatever its value: the item is empty, or the bench's own.
pub fn is_open(numbers: &[usize], bench: usize, k: usize) -> bool
    ensures { (value : List ℕ) → result ≡ open_to (item_from value (slot item_numbers (numbers_of numbers.now (sheet_of_bench bench)) k)) bench }
{
    let own = sheet_numbers(numbers, bench / BENCHES_EACH);
    if number_at(own, k, LEN_AT) < 1 {
        return true;
    }
    number_at(own, k, BENCH_AT) == bench
}

// The numbers of one entry more, in a sheet's block.
fn put_numbers(numbers: &mut [usize], k: usize, len: usize, bench: usize)
    requires { (k < item_count) × Few numbers.old k × (length numbers.old ≡ sheet_numbers) }
    ensures { EntryNumbers numbers.old k len bench numbers.new }
{
    let entry = numbers[COUNT_AT] + 1;
    let at = k * ITEM_NUMBERS;
    let times = numbers[at + TIMES_AT] + 1;
    numbers[at + LEN_AT] = len;
    numbers[at + ENTRY_AT] = entry;
    numbers[at + BENCH_AT] = bench;
    numbers[at + TIMES_AT] = times;
    numbers[COUNT_AT] = entry;
}

// The value in its slot, and zeros to the slot's end.
fn put_value(texts: &mut [u8], k: usize, value: &[u8])
    requires { (length value.now ≤ line_most) × (k * line_most + line_most ≤ length texts.old) }
    ensures { texts.new ≡ copied texts.old (k * line_most) (padded value.now) }
{
    let to = k * LINE_MOST;
    let len = value.len();
    text_copies::copy_in(texts, to, value);
    desk_memory::clear(texts, to + len, LINE_MOST - len);
}

// The value becomes an item's on its bench's sheet, where the memory can take it.
fn put_item(texts: &mut [u8], numbers: &mut [usize], bench: usize, item: usize, value: &[u8])
    requires { takes texts.old numbers.old bench item value.now ≡ true }
    ensures { (desk_of texts.new numbers.new ≡ with_entry_on (desk_of texts.old numbers.old) bench item value.now) × (used_of numbers.new ≡ used_of numbers.old) }
{
    let sheet = bench / BENCHES_EACH;
    let k = item - 1;
    put_value(texts, BENCH_COUNT + sheet * ITEM_COUNT + k, value);
    let at = BENCH_COUNT + sheet * SHEET_NUMBERS;
    let end = at + SHEET_NUMBERS;
    put_numbers(&mut numbers[at..end], k, value.len(), bench);
}

// Whether the memory can take an entry with a value of len bytes.
fn can_take(texts: &[u8], numbers: &[usize], bench: usize, item: usize, len: usize) -> bool
    ensures { (v : List ℕ) → length v ≡ len → result ≡ takes texts.now numbers.now bench item v }
{
    if !desk_memory::is_desk(texts, numbers) {
        return false;
    }
    if BENCH_COUNT <= bench {
        return false;
    }
    if item < 1 {
        return false;
    }
    if ITEM_COUNT < item {
        return false;
    }
    if LINE_MOST < len {
        return false;
    }
    let block = sheet_numbers(numbers, bench / BENCHES_EACH);
    if LOG_MOST <= block[COUNT_AT] {
        return false;
    }
    number_at(block, item - 1, TIMES_AT) < LOG_MOST
}

// Stores one entry more, and the number of used bytes after its record; memory that cannot take it stays as it is.
pub fn put_entry(
    texts: &mut [u8],
    numbers: &mut [usize],
    bench: usize,
    item: usize,
    value: &[u8],
    used: usize,
)
    ensures { EntryLent texts.old numbers.old bench item value.now used texts.new numbers.new }
{
    if !can_take(texts, numbers, bench, item, value.len()) {
        return;
    }
    numbers[USED_AT] = used;
    put_item(texts, numbers, bench, item, value);
}

// The test of soundness of an item in lent memory, empty or filled (document 01, "What the desk holds"; document 02, No. 7 and 9).
#![tactic(auto)]

ghost use Rattle.std.specs.Prelude.{◌≡◌, ◌&&◌, leb, length, take, drop};
ghost use Rattle.line_items.specs.Typed.{line_most};
ghost use Rattle.line_kinds.specs.Kinds.{fits};
ghost use Rattle.desk_memory.specs.Memory.{item_numbers, item_from};
ghost use Rattle.desk_items.specs.Sound.{zeros, sound_empty, counted, sound_filled, sound_item, sound_slot};

use desk_memory::{BENCH_AT, ENTRY_AT, ITEM_NUMBERS, LEN_AT, TIMES_AT};
use desk_state::desk::{BENCH_COUNT, BENCHES_EACH};
use line_items::{ITEM_COUNT, LINE_MOST};

fn is_sound_empty(value: &[u8], numbers: &[usize]) -> bool
    requires { length numbers.now ≡ item_numbers }
    ensures { result ≡ sound_empty (item_from value.now numbers.now) }
{
    if numbers[BENCH_AT] != 0 {
        return false;
    }
    if numbers[ENTRY_AT] != 0 {
        return false;
    }
    if numbers[TIMES_AT] != 0 {
        return false;
    }
    text::all_between(value, 0, 0)
}

// Whether n is from 1 to the count.
fn is_counted(count: usize, n: usize) -> bool
    ensures { result ≡ counted count n }
{
    if n < 1 {
        return false;
    }
    n <= count
}

// Whether the first n bytes of a slot are a value that item k can hold, and the others are zero. Whether it fits is asked last, since that takes the most stack.
fn is_sound_value(k: usize, value: &[u8], n: usize) -> bool
    requires { length value.now ≡ line_most }
    ensures { result ≡ (leb n line_most && (fits k (take n value.now) && zeros (drop n value.now))) }
{
    if LINE_MOST < n {
        return false;
    }
    if !text::all_between(&value[n..], 0, 0) {
        return false;
    }
    line_kinds::fits_item(k, &value[..n])
}

// Whether the filled item k of a sheet, which has that count, is sound.
fn is_sound_filled(sheet: usize, count: usize, k: usize, value: &[u8], numbers: &[usize]) -> bool
    requires { (length value.now ≡ line_most) × (length numbers.now ≡ item_numbers) }
    ensures { result ≡ sound_filled sheet count k (item_from value.now numbers.now) }
{
    if BENCH_COUNT <= numbers[BENCH_AT] {
        return false;
    }
    if numbers[BENCH_AT] / BENCHES_EACH != sheet {
        return false;
    }
    if !is_counted(count, numbers[ENTRY_AT]) {
        return false;
    }
    if !is_counted(count, numbers[TIMES_AT]) {
        return false;
    }
    is_sound_value(k, value, numbers[LEN_AT])
}

// Whether the item at place k of a sheet, counted from 0, is sound, by the sheet's count, its slot of the texts and its numbers.
pub fn is_sound_item(sheet: usize, count: usize, k: usize, value: &[u8], numbers: &[usize]) -> bool
    ensures { result ≡ sound_slot sheet count k value.now numbers.now }
{
    if ITEM_COUNT <= k {
        return false;
    }
    if value.len() != LINE_MOST {
        return false;
    }
    if numbers.len() != ITEM_NUMBERS {
        return false;
    }
    if numbers[LEN_AT] == 0 {
        is_sound_empty(value, numbers)
    } else {
        is_sound_filled(sheet, count, k + 1, value, numbers)
    }
}

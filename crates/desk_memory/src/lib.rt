// The desk in memory that the caller lends: where each part stands, what is read of it, and bytes made zero in it.
// Texts: a slot of the longest line for each bench, then each sheet's block, a slot for each item.
// Numbers: the length of each bench's line, then each sheet's block, each item's numbers together and then the sheet's count; then the used number.
#![tactic(auto)]

ghost use Rattle.std.specs.Prelude.{◌≡◌, ◌+◌, ◌≤◌, length, get_or, take, replicate};
ghost use Rattle.text_copies.specs.Copy.{copied};
ghost use Rattle.line_items.specs.Typed.{line_most};
ghost use Rattle.desk_state.specs.Sheets.{value_in};
ghost use Rattle.desk_memory.specs.Memory.{item_numbers, is_desk, slot, item_in, texts_of, numbers_of};

use desk_state::desk::{BENCH_COUNT, SHEET_COUNT};
use line_items::{ITEM_COUNT, LINE_MOST};

// An item's numbers: the length of its value, its entry number, its bench, and how many accepted entries named it.
pub const LEN_AT: usize = 0;

pub const ENTRY_AT: usize = LEN_AT + 1;

pub const BENCH_AT: usize = ENTRY_AT + 1;

pub const TIMES_AT: usize = BENCH_AT + 1;

pub const ITEM_NUMBERS: usize = TIMES_AT + 1;

// A sheet's block: the count stands after the items' numbers.
pub const COUNT_AT: usize = ITEM_COUNT * ITEM_NUMBERS;

pub const SHEET_NUMBERS: usize = COUNT_AT + 1;

pub const SHEET_TEXTS: usize = ITEM_COUNT * LINE_MOST;

// Where the sheets begin in the texts; in the numbers they begin at BENCH_COUNT.
pub const SHEETS_AT: usize = BENCH_COUNT * LINE_MOST;

pub const USED_AT: usize = BENCH_COUNT + SHEET_COUNT * SHEET_NUMBERS;

pub const TEXTS: usize = SHEETS_AT + SHEET_COUNT * SHEET_TEXTS;

pub const NUMBERS: usize = USED_AT + 1;

// Whether memory has a desk's lengths.
pub fn is_desk(texts: &[u8], numbers: &[usize]) -> bool
    ensures { result ≡ is_desk texts.now numbers.now }
{
    if texts.len() != TEXTS {
        return false;
    }
    numbers.len() == NUMBERS
}

// The block of a sheet in the texts: nothing of a sheet that is not there.
pub fn sheet_texts(texts: &[u8], sheet: usize) -> &[u8]
    ensures { result.now ≡ texts_of texts.now sheet }
{
    if texts.len() < SHEETS_AT {
        return &texts[..0];
    }
    if (texts.len() - SHEETS_AT) / SHEET_TEXTS < sheet {
        return &texts[..0];
    }
    let from = SHEETS_AT + sheet * SHEET_TEXTS;
    if texts.len() - from < SHEET_TEXTS {
        return &texts[from..];
    }
    let end = from + SHEET_TEXTS;
    &texts[from..end]
}

// The block of a sheet in the numbers: nothing of a sheet that is not there.
pub fn sheet_numbers(numbers: &[usize], sheet: usize) -> &[usize]
    ensures { result.now ≡ numbers_of numbers.now sheet }
{
    if numbers.len() < BENCH_COUNT {
        return &numbers[..0];
    }
    if (numbers.len() - BENCH_COUNT) / SHEET_NUMBERS < sheet {
        return &numbers[..0];
    }
    let from = BENCH_COUNT + sheet * SHEET_NUMBERS;
    if numbers.len() - from < SHEET_NUMBERS {
        return &numbers[from..];
    }
    let end = from + SHEET_NUMBERS;
    &numbers[from..end]
}

// A number of the item at a place of a sheet's block, counted from 0.
pub fn number_at(numbers: &[usize], k: usize, i: usize) -> usize
    ensures { result ≡ get_or (slot item_numbers numbers.now k) i 0 }
{
    if ITEM_NUMBERS <= i {
        return 0;
    }
    if numbers.len() / ITEM_NUMBERS < k {
        return 0;
    }
    let at = k * ITEM_NUMBERS + i;
    if at < numbers.len() { numbers[at] } else { 0 }
}

// The first n bytes of s, or all where it has no more.
fn front(s: &[u8], n: usize) -> &[u8]
    ensures { result.now ≡ take n s.now }
{
    if s.len() <= n {
        return s;
    }
    &s[..n]
}

// The first len bytes of a slot.
pub fn text_at(texts: &[u8], k: usize, len: usize) -> &[u8]
    ensures { result.now ≡ take len (slot line_most texts.now k) }
{
    if texts.len() / LINE_MOST < k {
        return &texts[..0];
    }
    let at = k * LINE_MOST;
    front(front(&texts[at..], LINE_MOST), len)
}

// The value of the item at a place of a sheet's block, counted from 0.
pub fn value_at<'a>(texts: &'a [u8], numbers: &[usize], k: usize) -> &'a [u8]
    ensures { result.now ≡ value_in (item_in texts.now numbers.now k) }
{
    text_at(texts, k, number_at(numbers, k, LEN_AT))
}

// Makes n bytes zero, where there are so many; else nothing.
pub fn clear(t: &mut [u8], from: usize, n: usize)
    ensures { t.new ≡ copied t.old from (replicate n 0) }
{
    if t.len() < from {
        return;
    }
    if t.len() - from < n {
        return;
    }
    t[from..from + n].fill(0);
}

// Makes memory zero: if it has a desk's lengths, it is a fresh desk.
pub fn fresh(texts: &mut [u8], numbers: &mut [usize])
    ensures { (texts.new ≡ replicate (length texts.old) 0) × (numbers.new ≡ replicate (length numbers.old) 0) }
{
    texts.fill(0);
    numbers.fill(0);
}

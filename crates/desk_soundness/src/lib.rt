// The test of soundness of a desk in lent memory (document 01, "What the desk holds"; document 02, No. 9).
#![tactic(auto)]

ghost use Rattle.std.specs.Prelude.{◌≡◌, ℕ, ◌*◌, List, leb, length};
ghost use Rattle.line_items.specs.Typed.{line_most};
ghost use Rattle.desk_memory.specs.Memory.{sheet_texts, sheet_numbers, numbers_length, Sized, line_from, sheet_from, desk_of, used_of};
ghost use Rattle.desk_soundness.specs.Sound.{sound_line, sound_lines, sound_sheet, sound_sheets};
ghost use Rattle.desk_soundness.specs.SoundLog.{entry_count, sound_log};
ghost use Rattle.desk_soundness.specs.SoundMemory.{sound_memory, sound_for_keys};

use desk_memory::{COUNT_AT, ITEM_NUMBERS, SHEET_NUMBERS, USED_AT, sheet_numbers, sheet_texts};
use desk_state::desk::{BENCH_COUNT, SHEET_COUNT};
use line_items::{FIRST_TYPED, ITEM_COUNT, LAST_TYPED, LINE_MOST};

// The longest log, and the least that a record takes of it.
pub const LOG_MOST: usize = 65536;

const RECORD_LEAST: usize = 6;

fn is_sound_line(bytes: &[u8], n: usize) -> bool
    requires { length bytes.now ≡ line_most }
    ensures { result ≡ sound_line (line_from bytes.now n) }
{
    if LINE_MOST < n {
        return false;
    }
    if text::all_between(&bytes[..n], FIRST_TYPED, LAST_TYPED) {
        text::all_between(&bytes[n..], 0, 0)
    } else {
        false
    }
}

fn are_sound_lines(texts: &[u8], numbers: &[usize]) -> bool
    requires { Sized texts.now numbers.now }
    ensures { result ≡ sound_lines (desk_of texts.now numbers.now) }
{
    for i in 0..BENCH_COUNT {
        let at = i * LINE_MOST;
        let end = at + LINE_MOST;
        if !is_sound_line(&texts[at..end], numbers[i]) {
            return false;
        }
    }
    true
}

// Whether the sheet of that number, in its block, is sound.
fn is_sound_sheet(sheet: usize, texts: &[u8], numbers: &[usize]) -> bool
    requires { (length texts.now ≡ sheet_texts) × (length numbers.now ≡ sheet_numbers) }
    ensures { result ≡ sound_sheet sheet (sheet_from texts.now numbers.now) }
{
    let count = numbers[COUNT_AT];
    for i in 0..ITEM_COUNT {
        let at = i * LINE_MOST;
        let end = at + LINE_MOST;
        let from = i * ITEM_NUMBERS;
        let to = from + ITEM_NUMBERS;
        if !desk_items::is_sound_item(sheet, count, i, &texts[at..end], &numbers[from..to]) {
            return false;
        }
    }
    true
}

fn are_sound_sheets(texts: &[u8], numbers: &[usize]) -> bool
    requires { Sized texts.now numbers.now }
    ensures { result ≡ sound_sheets (desk_of texts.now numbers.now) }
{
    for s in 0..SHEET_COUNT {
        if !is_sound_sheet(s, sheet_texts(texts, s), sheet_numbers(numbers, s)) {
            return false;
        }
    }
    true
}

// Whether memory holds a sound desk, the log's part left out: what a question asks.
pub fn is_sound(texts: &[u8], numbers: &[usize]) -> bool
    ensures { result ≡ sound_memory texts.now numbers.now }
{
    if !desk_memory::is_desk(texts, numbers) {
        return false;
    }
    if are_sound_lines(texts, numbers) {
        are_sound_sheets(texts, numbers)
    } else {
        false
    }
}

// Whether used bytes have room for as many records as the sheets count together, whatever the texts.
fn are_counted(numbers: &[usize], used: usize) -> bool
    requires { length numbers.now ≡ numbers_length }
    ensures { (t : List ℕ) → result ≡ leb (6 * entry_count (desk_of t numbers.now)) used }
{
    let mut left = used / RECORD_LEAST;
    for s in 0..SHEET_COUNT {
        let count = numbers[BENCH_COUNT + s * SHEET_NUMBERS + COUNT_AT];
        if left < count {
            return false;
        }
        left -= count;
    }
    true
}

// Whether the desk of these numbers goes with a log of len bytes, whatever its texts.
fn is_sound_log(numbers: &[usize], len: usize) -> bool
    requires { length numbers.now ≡ numbers_length }
    ensures { (t : List ℕ) → result ≡ sound_log (desk_of t numbers.now) len (used_of numbers.now) }
{
    let used = numbers[USED_AT];
    if LOG_MOST < len {
        return false;
    }
    if len < used {
        return false;
    }
    are_counted(numbers, used)
}

// Whether memory holds a sound desk that goes with a log of len bytes: what a key call asks.
pub fn is_sound_for_keys(texts: &[u8], numbers: &[usize], len: usize) -> bool
    ensures { result ≡ sound_for_keys texts.now numbers.now len }
{
    if is_sound(texts, numbers) {
        is_sound_log(numbers, len)
    } else {
        false
    }
}

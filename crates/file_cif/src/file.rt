// The file of a sheet, written into lent bytes.
ghost use Rattle.std.specs.Prelude.{◌≡◌, ◌≤◌, ◌<◌, ◌+◌, length};
ghost use Rattle.text_copies.specs.Copy.{copied};
ghost use Rattle.text_copies.specs.Each.{lines_from};
ghost use Rattle.line_items.specs.Items.{item_count};
ghost use Rattle.desk_memory.specs.Memory.{item_in, sheet_from};
ghost use Rattle.file_cif.specs.File.{ended_line, item_text, item_line, file_of};
ghost use Rattle.file_cif.specs.Answers.{filing_of, file_lent};

use crate::length::lines_length;
use desk_answers::FileRefusal;
use desk_memory::LEN_AT;
use desk_state::desk::SHEET_COUNT;
use line_items::ITEM_COUNT;

// The first line but for the name and the end byte.
const HEADING: [u8; 5] = *b"data_";

// The first line's bytes beside the name.
const HEAD: usize = 6;

// Writes the line of item k + 1 with that value from a place on, and says where it ends.
fn put_filled(out: &mut [u8], at: usize, k: usize, value: &[u8]) -> usize
    requires { (at + length (ended_line (item_text (k + 1) value.now)) ≤ length out.old) × (k < item_count) }
    ensures { (out.new ≡ copied out.old at (ended_line (item_text (k + 1) value.now))) × (result ≡ at + length (ended_line (item_text (k + 1) value.now))) }
{
    let space = at + line_items::name_length(k + 1);
    let start = space + 1;
    let end = start + value.len();
    line_names::copy_name(out, at, k + 1);
    text_copies::copy_in(out, space, b" ");
    text_copies::copy_in(out, start, value);
    text_copies::copy_in(out, end, b"\n");
    end + 1
}

// Writes the line of item k + 1 of a sheet's block, if it is filled.
fn put_item(out: &mut [u8], at: usize, texts: &[u8], numbers: &[usize], k: usize) -> usize
    requires { (at + length (item_line (k + 1) (item_in texts.now numbers.now k)) ≤ length out.old) × (k < item_count) }
    ensures { (out.new ≡ copied out.old at (item_line (k + 1) (item_in texts.now numbers.now k))) × (result ≡ at + length (item_line (k + 1) (item_in texts.now numbers.now k))) }
{
    if desk_memory::number_at(numbers, k, LEN_AT) == 0 {
        return at;
    }
    put_filled(out, at, k, desk_memory::value_at(texts, numbers, k))
}

// Writes the lines of all items of a sheet's block from a place on.
fn put_items(out: &mut [u8], start: usize, texts: &[u8], numbers: &[usize])
    requires { start + length (lines_from item_line 1 (sheet_from texts.now numbers.now).items) ≤ length out.old }
    ensures { out.new ≡ copied out.old start (lines_from item_line 1 (sheet_from texts.now numbers.now).items) }
{
    let mut at = start;
    for i in 0..ITEM_COUNT {
        at = put_item(out, at, texts, numbers, i);
    }
}

// Writes the whole file of a sheet's block at the start of out.
fn put_file(out: &mut [u8], name: &[u8], texts: &[u8], numbers: &[usize])
    requires { length (file_of name.now (sheet_from texts.now numbers.now)) ≤ length out.old }
    ensures { out.new ≡ copied out.old 0 (file_of name.now (sheet_from texts.now numbers.now)) }
{
    let n = name.len();
    text_copies::copy_in(out, 0, &HEADING);
    text_copies::copy_in(out, HEADING.len(), name);
    text_copies::copy_in(out, HEADING.len() + n, b"\n");
    put_items(out, HEAD + n, texts, numbers);
}

// Writes a sheet of the desk in memory as a CIF file at the start of out and says how many bytes it is; with a refusal, nothing.
pub fn write_file(
    texts: &[u8],
    numbers: &[usize],
    sheet: u64,
    name: &[u8],
    out: &mut [u8],
) -> Result<usize, FileRefusal>
    ensures { filing_of result out.new ≡ file_lent texts.now numbers.now sheet name.now out.old }
{
    if SHEET_COUNT as u64 <= sheet {
        return Err(FileRefusal::NoSheet);
    }
    if !desk_soundness::is_sound(texts, numbers) {
        return Err(FileRefusal::Unsound);
    }
    if !file_block_name::is_block_name(name) {
        return Err(FileRefusal::BadBlockName);
    }
    let at = sheet as usize;
    let sheet_texts = desk_memory::sheet_texts(texts, at);
    let sheet_numbers = desk_memory::sheet_numbers(numbers, at);
    let count = HEAD + name.len() + lines_length(sheet_texts, sheet_numbers);
    if out.len() < count {
        return Err(FileRefusal::NoRoom);
    }
    put_file(out, name, sheet_texts, sheet_numbers);
    Ok(count)
}

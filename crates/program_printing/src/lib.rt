// The printed report (document 01, "Measured examples"): of each sheet the rows for a single crystal, and the filled items with their benches and entry numbers.
// page: a text under way.
#![tactic(auto)]

ghost use Rattle.std.specs.Prelude.{◌≡◌, ◌++◌, ◌+◌, ◌*◌, ◌≤◌, ◌<◌, length};
ghost use Rattle.line_items.specs.Items.{item_count};
ghost use Rattle.desk_state.specs.Desks.{sheet_count};
ghost use Rattle.desk_memory.specs.Memory.{item_in, sheet_from};
ghost use Rattle.rows.specs.Rows.{row_count};
ghost use Rattle.text_copies.specs.Each.{lines_from};
ghost use Rattle.program_printing.specs.Page.{page_most, row_name_most, row_line_most, printed_item_most, page_text, Adds};
ghost use Rattle.program_printing.specs.Print.{row_name, level_letter, row_line, filled_line, printed_item, printed_lent, printed_sheets, printed_in};
ghost use Rattle.text_copies.specs.Copy.{copied};

mod page;

use crate::page::{PAGE_MOST, Page};
use desk_memory::{BENCH_AT, ENTRY_AT, LEN_AT, number_at, value_at};
use desk_state::desk::SHEET_COUNT;
use line_items::ITEM_COUNT;
use rows::{ROW_COUNT, Row, Rows};

// The longest reports of all sheets.
pub const REPORTS_MOST: usize = SHEET_COUNT * PAGE_MOST;

// The names of the rows, in their order.
const ROW_NAMES: [&[u8]; ROW_COUNT] = [
    b"CHEMS_01s",
    b"CHEMS_01o",
    b"CHEMS_02",
    b"CHEMW_01r",
    b"CHEMW_01d",
    b"RFACG_01",
    b"RFACG_01g",
    b"RFACR_01",
    b"RFACR_01g",
    b"SHFSU_01",
    b"SHFSU_01g",
    b"REFLE_01",
    b"R13",
    b"R14",
    b"R15",
    b"R16",
    b"R17",
    b"R18",
    b"R19",
    b"R20",
    b"R21",
    b"R22",
    b"R23",
    b"R24",
    b"R25",
];

// The letters of the levels.
const LEVEL_LETTERS: [u8; 5] = *b"-GCBA";

// What stands for a level that no row has.
const NO_LETTER: u8 = b'?';

// The name of row k + 1.
fn row_name(k: usize) -> &'static [u8]
    requires { k < row_count }
    ensures { result.now ≡ row_name (k + 1) }
{
    ROW_NAMES[k]
}

// Puts the name of row k + 1 on the page.
fn put_name(page: &mut Page, k: usize)
    requires { (page.old.len + row_name_most ≤ page_most) × (k < row_count) }
    ensures { Adds page.old (row_name (k + 1)) page.new × (page.new.len ≤ page.old.len + row_name_most) }
{
    page.put(row_name(k));
}

fn letter_of(level: u8) -> u8
    ensures { result ≡ level_letter level }
{
    let at = level as usize;
    if at < LEVEL_LETTERS.len() {
        return LEVEL_LETTERS[at];
    }
    NO_LETTER
}

// Puts the line of row k + 1 on the page.
fn put_row(page: &mut Page, k: usize, row: Row)
    requires { (page.old.len + row_line_most ≤ page_most) × (k < row_count) }
    ensures { Adds page.old (row_line (k + 1) row) page.new × (page.new.len ≤ page.old.len + row_line_most) }
{
    page.put_two_digits(k + 1);
    page.put(b" ");
    put_name(page, k);
    page.put(b" ");
    page.put_byte(letter_of(row.level));
    page.put(b" ");
    page.put_decimal(text::wide(row.reason));
    page.put(b"\n");
}

// Puts all rows on the page.
fn put_rows(page: &mut Page, rows: Rows)
    requires { page.old.len + row_line_most * row_count ≤ page_most }
    ensures { Adds page.old (lines_from row_line 1 rows.rows) page.new × (page.new.len ≤ page.old.len + row_line_most * row_count) }
{
    for i in 0..ROW_COUNT {
        put_row(page, i, rows.rows[i]);
    }
}

// Puts the line of the filled item k + 1 of a sheet's block on the page.
fn put_filled(page: &mut Page, k: usize, texts: &[u8], numbers: &[usize])
    requires { (page.old.len + printed_item_most ≤ page_most) × (k < item_count) }
    ensures { Adds page.old (filled_line (k + 1) (item_in texts.now numbers.now k)) page.new × (page.new.len ≤ page.old.len + printed_item_most) }
{
    page.put(b"ITEM ");
    page.put_two_digits(k + 1);
    page.put(b" bench ");
    page.put_decimal(number_at(numbers, k, BENCH_AT));
    page.put(b" entry ");
    page.put_decimal(number_at(numbers, k, ENTRY_AT));
    page.put(b" ");
    page.put(value_at(texts, numbers, k));
    page.put(b"\n");
}

// Puts the line of item k + 1 of a sheet's block on the page, where the item is filled.
fn put_item(page: &mut Page, k: usize, texts: &[u8], numbers: &[usize])
    requires { (page.old.len + printed_item_most ≤ page_most) × (k < item_count) }
    ensures { Adds page.old (printed_item (k + 1) (item_in texts.now numbers.now k)) page.new × (page.new.len ≤ page.old.len + printed_item_most) }
{
    if number_at(numbers, k, LEN_AT) == 0 {
        return;
    }
    put_filled(page, k, texts, numbers);
}

// Puts all filled items of a sheet's block on the page.
fn put_items(page: &mut Page, texts: &[u8], numbers: &[usize])
    requires { page.old.len + printed_item_most * item_count ≤ page_most }
    ensures { Adds page.old (lines_from printed_item 1 (sheet_from texts.now numbers.now).items) page.new × (page.new.len ≤ page.old.len + printed_item_most * item_count) }
{
    for i in 0..ITEM_COUNT {
        put_item(page, i, texts, numbers);
    }
}

// The page of the report of a sheet of the desk in lent memory.
fn report_page(texts: &[u8], numbers: &[usize], sheet: usize) -> Page
    requires { sheet < sheet_count }
    ensures { (page_text result ≡ printed_lent texts.now numbers.now sheet) × (result.len ≡ length (printed_lent texts.now numbers.now sheet)) × (result.len ≤ page_most) }
{
    let mut page = Page::empty();
    if !desk_memory::is_desk(texts, numbers) {
        return page;
    }
    let rows = desk_questions::report::report(texts, numbers, sheet as u64, 0).unwrap_or(
        rows::no_rows(),
    );
    page.put(b"REPORT 25\n");
    put_rows(&mut page, rows);
    put_items(
        &mut page,
        desk_memory::sheet_texts(texts, sheet),
        desk_memory::sheet_numbers(numbers, sheet),
    );
    page
}

// Copies two pages out, one after the other, if there is room for both.
fn copy_out(p: &Page, q: &Page, out: &mut [u8]) -> Option<usize>
    requires { (p.now.len ≤ page_most) × (q.now.len ≤ page_most) }
    ensures { (result ≡ printed_in out.old (page_text p.now ++ page_text q.now)) × (out.new ≡ copied out.old 0 (page_text p.now ++ page_text q.now)) }
{
    let n = p.len;
    let m = q.len;
    if out.len() < n + m {
        return None;
    }
    text_copies::copy_in(out, 0, &p.bytes[..n]);
    text_copies::copy_in(out, n, &q.bytes[..m]);
    Some(n + m)
}

// Prints the reports of both sheets of the desk in lent memory at the start of out and says how many bytes they are; with no room for all of it, nothing. REPORTS_MOST bytes are always room.
pub fn print_reports(texts: &[u8], numbers: &[usize], out: &mut [u8]) -> Option<usize>
    ensures { (result ≡ printed_in out.old (printed_sheets texts.now numbers.now)) × (out.new ≡ copied out.old 0 (printed_sheets texts.now numbers.now)) × (length (printed_sheets texts.now numbers.now) ≤ sheet_count * page_most) }
{
    let first = report_page(texts, numbers, 0);
    let second = report_page(texts, numbers, 1);
    copy_out(&first, &second, out)
}

// Rows 13 to 24 of a sheet's block of memory, by the table of rules (document 02, No. 11).
#![tactic(auto)]

ghost use Rattle.std.specs.Prelude.{◌≡◌, ◌-◌, true};
ghost use Rattle.line_items.specs.Items.{is_item};
ghost use Rattle.desk_memory.specs.Memory.{item_in, sheet_from};
ghost use Rattle.rows_counts.specs.Counts.{rule_row, count_row};
ghost use Rattle.desk_state.specs.Sheets.{value_in, value_at};
ghost use Rattle.rows_counted.specs.Items.{of_items};

use rows::{Row, make_row};
use rows_counts::{Rule, above_row, agree_row, differ_row, present_row, rising_row};

// The value at the place of an item, which is that of the item in a sheet's block of memory.
pub fn value_of<'a>(texts: &'a [u8], numbers: &[usize], item: usize) -> &'a [u8]
    ensures place { result.now ≡ value_in (item_in texts.now numbers.now (item - 1)) }
    ensures item { is_item item ≡ true → result.now ≡ value_at (sheet_from texts.now numbers.now) item }
{
    desk_memory::value_at(texts, numbers, item.saturating_sub(1))
}

// The row of a rule, of the values of the items that it names.
fn ruled_row(rule: Rule, texts: &[u8], numbers: &[usize]) -> Row
    requires { of_items (Some rule) ≡ true }
    ensures { result ≡ rule_row (value_at (sheet_from texts.now numbers.now)) (Some rule) }
{
    match rule {
        Rule::Present(i) => present_row(value_of(texts, numbers, i)),
        Rule::PresentIfDiffer(i, a, b) => differ_row(
            value_of(texts, numbers, i),
            value_of(texts, numbers, a),
            value_of(texts, numbers, b),
        ),
        Rule::ZeroIfAgree(i, a, b) => agree_row(
            value_of(texts, numbers, i),
            value_of(texts, numbers, a),
            value_of(texts, numbers, b),
        ),
        Rule::NotAbove(a, b) => above_row(value_of(texts, numbers, a), value_of(texts, numbers, b)),
        Rule::Rising(a, b, c) => rising_row(
            value_of(texts, numbers, a),
            value_of(texts, numbers, b),
            value_of(texts, numbers, c),
        ),
    }
}

// A row from 13 to 24 in a profile; other rows have no alert.
#[tactic(auto, unfolding(rows_counts::specs::Counts::count_row))]
pub fn counted_row(profile: u64, row: usize, texts: &[u8], numbers: &[usize]) -> Row
    ensures { result ≡ count_row profile (value_at (sheet_from texts.now numbers.now)) row }
{
    match rows_counts::rule_of(row) {
        Some(rule) if rows_counts::is_kept(profile, row) => ruled_row(rule, texts, numbers),
        _ => make_row(0, 0),
    }
}

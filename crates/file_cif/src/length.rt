// How long the file of a sheet's block of memory is.
ghost use Rattle.std.specs.Prelude.{◌≡◌, ◌≤◌, ◌<◌, ◌+◌, ◌*◌, length};
ghost use Rattle.text_copies.specs.Each.{lines_from};
ghost use Rattle.line_items.specs.Items.{item_count};
ghost use Rattle.desk_memory.specs.Memory.{item_in, sheet_from};
ghost use Rattle.file_cif.specs.File.{item_line_most, item_line};

use desk_memory::LEN_AT;
use line_items::ITEM_COUNT;

// The length of the line of item k + 1; 0 for an empty item.
fn line_length(texts: &[u8], numbers: &[usize], k: usize) -> usize
    requires { k < item_count }
    ensures { (result ≡ length (item_line (k + 1) (item_in texts.now numbers.now k))) × (result ≤ item_line_most) }
{
    if desk_memory::number_at(numbers, k, LEN_AT) == 0 {
        return 0;
    }
    let n = desk_memory::value_at(texts, numbers, k).len();
    line_items::name_length(k + 1) + 1 + n + 1
}

// The length of all lines of a sheet's items.
pub(crate) fn lines_length(texts: &[u8], numbers: &[usize]) -> usize
    ensures { (result ≡ length (lines_from item_line 1 (sheet_from texts.now numbers.now).items)) × (result ≤ item_line_most * item_count) }
{
    let mut n = 0;
    for i in 0..ITEM_COUNT {
        n += line_length(texts, numbers, i);
    }
    n
}

// The values that an item takes, by its kind (document 01, "What the desk holds").
#![tactic(auto)]

ghost use Rattle.std.specs.Prelude.{◌≡◌, ◌<◌, ◌+◌};
ghost use Rattle.number_decimal.specs.Reading.{is_number};
ghost use Rattle.line_items.specs.Items.{item_count, item_row};
ghost use Rattle.line_kinds.specs.Kinds.{of_kind, passes, fits};

use line_items::Kind::{Category, Number, Text};
use line_items::{FIRST_TYPED, ITEM_COUNT, Kind, LAST_TYPED, LINE_MOST};

// The kinds of the items.
static KINDS: [Kind; ITEM_COUNT] = [
    Text, Number, Category, Number, Number, Number, Number, Number, Number, Text, Number, Number,
    Number, Number, Number, Number, Number, Number, Text,
];

// The kind of item k + 1.
fn kind_at(k: usize) -> Kind
    requires { k < item_count }
    ensures { result ≡ (item_row (k + 1)).kind }
{
    KINDS[k]
}

// Whether s is a number.
#[tactic(auto, unfolding(number_decimal::specs::Reading::is_number))]
fn is_number(s: &[u8]) -> bool
    ensures { result ≡ is_number s.now }
{
    let Some(_) = number_decimal::read_number(s) else {
        return false;
    };
    true
}

fn is_of_kind(kind: Kind, v: &[u8]) -> bool
    ensures { result ≡ of_kind kind v.now }
{
    match kind {
        Text => true,
        Number => is_number(v),
        Category => line_categories::is_category(line_quotes::text_of(v)),
    }
}

// Whether the value v passes the kind of an item; none does where there is no such item.
#[tactic(auto, unfolding(crate::specs::Kinds::passes))]
pub fn passes_kind(item: usize, v: &[u8]) -> bool
    ensures { result ≡ passes item v.now }
{
    1 <= item
        && item <= ITEM_COUNT
        && (line_values::is_unassigned(v) || is_of_kind(kind_at(item - 1), v))
}

// Whether an item can hold the value v: form, bytes, kind, and the length of its line. The kind is asked last, since its test takes the most stack.
#[tactic(auto, using(crate::proofs::Fits::any_short, crate::proofs::Fits::kind_last))]
pub fn fits_item(item: usize, v: &[u8]) -> bool
    ensures { result ≡ fits item v.now }
{
    line_values::is_value(v)
        && text::all_between(v, FIRST_TYPED, LAST_TYPED)
        && line_items::name_length(item) + 1 + v.len() <= LINE_MOST
        && passes_kind(item, v)
}

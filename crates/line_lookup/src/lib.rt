// The item of a name, found in place (document 02, No. 3).
#![tactic(auto)]

ghost use Rattle.std.specs.Prelude.{◌≡◌, ◌≤◌};
ghost use Rattle.text_equality.specs.Same.{same_folded};
ghost use Rattle.line_items.specs.Items.{item_count, name_of, item_of};

use line_items::ITEM_COUNT;

// So many bytes are compared at once. A name is longer, and at most twice as long.
const PART: usize = 16;

// Whether s is the name of an item. The last bytes are compared first, since there most names differ, and the first byte, which a caller may know, by itself: so each part is compared at once.
fn is_name(item: usize, s: &[u8]) -> bool
    requires { (1 ≤ item) × (item ≤ item_count) }
    ensures { result ≡ same_folded s.now (name_of item) }
{
    let name = line_items::name_of(item);
    if s.len() != name.len() {
        return false;
    }
    let at = s.len() - PART;
    if !text_equality::same_folded(&s[at..], &name[at..]) {
        return false;
    }
    text_equality::same_folded(&s[1..=PART], &name[1..=PART])
        && text_equality::same_folded(&s[..1], &name[..1])
}

// The item of a name, the first whose name it is.
pub fn item_named(s: &[u8]) -> Option<usize>
    ensures { result ≡ item_of s.now }
{
    for item in 1..=ITEM_COUNT {
        if is_name(item, s) {
            return Some(item);
        }
    }
    None
}

// The name of an item, copied from the table of names.
#![tactic(auto)]

ghost use Rattle.std.specs.Prelude.{◌≡◌};
ghost use Rattle.text_copies.specs.Copy.{copied};
ghost use Rattle.line_items.specs.Items.{name_of};

// Copies an item's name into out from a place on, where it fits; else, and where there is no such item, nothing.
pub fn copy_name(out: &mut [u8], at: usize, item: usize)
    ensures { out.new ≡ copied out.old at (name_of item) }
{
    text_copies::copy_in(out, at, line_items::name_of(item));
}

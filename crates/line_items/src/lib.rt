// The items and their names (document 01, "What the desk holds"; document 02, No. 11 and 12).
#![tactic(auto)]

ghost use Rattle.std.specs.Prelude.{◌≡◌, length};
ghost use Rattle.line_items.specs.Items.{name_of};

// The longest line.
pub const LINE_MOST: usize = 200;

// The bytes that a line can hold.
pub const FIRST_TYPED: u8 = 32;

pub const LAST_TYPED: u8 = 126;

// What a value must be.
#[derive(Clone, Copy)]
pub enum Kind {
    Text,
    Number,
    Category,
}

pub const ITEM_COUNT: usize = 19;

// The names, in the order of the items.
const NAMES: [&[u8]; ITEM_COUNT] = [
    b"_chemical_formula_sum",
    b"_chemical_formula_weight",
    b"_publ_requested_category",
    b"_refine_ls_R_factor_gt",
    b"_refine_ls_R_factor_obs",
    b"_refine_ls_wR_factor_ref",
    b"_refine_ls_wR_factor_obs",
    b"_refine_ls_shift/su_max",
    b"_refine_ls_shift/esd_max",
    b"_reflns_threshold_expression",
    b"_diffrn_reflns_number",
    b"_reflns_number_total",
    b"_reflns_number_gt",
    b"_diffrn_reflns_av_R_equivalents",
    b"_exptl_crystal_size_max",
    b"_exptl_crystal_size_mid",
    b"_exptl_crystal_size_min",
    b"_diffrn_radiation_wavelength",
    b"_chemical_formula_moiety",
];

// The name of an item; empty where there is no such item.
pub fn name_of(item: usize) -> &'static [u8]
    ensures { result.now ≡ name_of item }
{
    if item < 1 || ITEM_COUNT < item {
        return b"";
    }
    NAMES[item - 1]
}

// The length of an item's name; 0 where there is no such item.
pub fn name_length(item: usize) -> usize
    ensures { result ≡ length (name_of item) }
{
    name_of(item).len()
}

// The class of a formula by its elements (document 01, "The twelve rows": row 3).
#![tactic(auto)]

ghost use Rattle.std.specs.Prelude.{◌≡◌};
ghost use Rattle.formula_class.specs.Class.{formula_class};

use formula_elements::{CARBON, HYDROGEN};
use formula_symbols::{Wanted, has_term};
use line_categories::Class;

// The class of a formula.
pub fn class_of(s: &[u8]) -> Class
    ensures { result ≡ formula_class s.now }
{
    if !has_term(s, Wanted::Element(CARBON)) {
        return Class::Inorganic;
    }
    if !has_term(s, Wanted::Element(HYDROGEN)) {
        return Class::Inorganic;
    }
    if has_term(s, Wanted::AnyMetal) {
        Class::MetalOrganic
    } else {
        Class::Organic
    }
}

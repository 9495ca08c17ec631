// The order of the symbols of a formula (document 01, "The twelve rows": row 2; document 02, No. 2).
#![tactic(auto)]

ghost use Rattle.std.specs.Prelude.{◌≡◌, ◌≤◌};
ghost use Rattle.formula_order.specs.Order.{rank, order_key, in_order};

use formula_elements::{CARBON, HYDROGEN, Symbol};
use formula_symbols::Wanted;
use formula_terms::term::read_term;

// The place of a symbol among the first: with C among the symbols C, then H, then all others; without C all are others.
fn rank_of(carbon: bool, symbol: Symbol) -> u32
    ensures { (result ≡ rank carbon symbol.first symbol.second) × (result ≤ 2) }
{
    if !carbon {
        return 2;
    }
    if symbol == CARBON {
        return 0;
    }
    if symbol == HYDROGEN {
        return 1;
    }
    2
}

// A number that is smaller the earlier a symbol stands: by rank, then first byte, then second.
pub fn key_of(carbon: bool, symbol: Symbol) -> u32
    ensures { result ≡ order_key carbon symbol.first symbol.second }
{
    (rank_of(carbon, symbol) * 256 + symbol.first as u32) * 256 + symbol.second as u32
}

// Whether the symbols of the well-formed terms stand in order, none twice. Row 2 is at B exactly when not.
pub fn in_order(s: &[u8]) -> bool
    ensures { result ≡ in_order s.now }
{
    let carbon = formula_symbols::has_term(s, Wanted::Element(CARBON));
    let mut last: u32 = 0;
    for word in formula_terms::cut(s) {
        let Some(term) = read_term(word) else {
            continue;
        };
        let key = key_of(carbon, term.symbol);
        if key <= last {
            return false;
        }
        last = key;
    }
    true
}

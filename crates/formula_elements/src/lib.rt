// The tables of document 01: the symbols of the elements, those that are no metals, and the weights.
#![tactic(auto)]

ghost use Rattle.std.specs.Prelude.{◌≡◌};
ghost use Rattle.formula_elements.specs.Elements.{place_of, element_of, is_element, is_metal, weight_of};

// A symbol of an element: two bytes, a space after a single letter.
#[derive(Clone, Copy, PartialEq, Eq)]
pub struct Symbol {
    pub first: u8,
    pub second: u8,
}

pub const CARBON: Symbol = Symbol {
    first: b'C',
    second: b' ',
};

pub const HYDROGEN: Symbol = Symbol {
    first: b'H',
    second: b' ',
};

// How many elements there are.
pub const ELEMENT_COUNT: usize = 118;

// The 118 symbols of the periodic table, in its order.
const SYMBOLS: [u8; 236] =
    *b"H HeLiBeB C N O F NeNaMgAlSiP S ClArK CaScTiV CrMnFeCoNiCuZnGaGeAsSeBrKr\
    RbSrY ZrNbMoTcRuRhPdAgCdInSnSbTeI XeCsBaLaCePrNdPmSmEuGdTbDyHoErTmYbLuHfTaW ReOsIrPtAuHgTlPbBiPoAtRn\
    FrRaAcThPaU NpPuAmCmBkCfEsFmMdNoLrRfDbSgBhHsMtDsRgCnNhFlMcLvTsOg";

// The symbols that are no metals.
const NOT_METALS: [u8; 50] = *b"H HeB C N O F NeSiP S ClArGeAsSeBrKrTeI XeAtRnTsOg";

// The symbols that have a weight, and the weight of each, in thousandths.
const WEIGHED: [u8; 50] = *b"H B C N O F NaMgAlSiP S ClK CaMnFeCoNiCuZnBrAgI Pb";

const WEIGHTS: [u64; 25] = [
    1008, 10810, 12011, 14007, 15999, 18998, 22990, 24305, 26982, 28085, 30974, 32060, 35450,
    39098, 40078, 54938, 55845, 58933, 58693, 63546, 65380, 79904, 107870, 126900, 207200,
];

// Where a table has a symbol. The loop counts its index, since the compiler then compares many symbols at once, as it does with no `for` or iterator tried.
fn find(table: &[u8], symbol: Symbol) -> Option<usize>
    ensures { result ≡ place_of table.now symbol.first symbol.second }
{
    let mut k = 0;
    while 2 * k + 1 < table.len() {
        let here = Symbol {
            first: table[2 * k],
            second: table[2 * k + 1],
        };
        if here == symbol {
            return Some(k);
        }
        k += 1;
    }
    None
}

// The element of a symbol, counted from 0 in the order of the periodic table.
pub fn find_element(symbol: Symbol) -> Option<usize>
    ensures { result ≡ element_of symbol.first symbol.second }
{
    find(&SYMBOLS, symbol)
}

// Whether a symbol is recognised. One that has a weight is; all 118 are searched for the others alone.
pub fn is_element(symbol: Symbol) -> bool
    ensures { result ≡ is_element symbol.first symbol.second }
{
    weight_of(symbol).is_some() || find_element(symbol).is_some()
}

// Whether a symbol is recognised and is that of a metal.
pub fn is_metal(symbol: Symbol) -> bool
    ensures { result ≡ is_metal symbol.first symbol.second }
{
    is_element(symbol) && find(&NOT_METALS, symbol).is_none()
}

// The weight of a symbol.
pub fn weight_of(symbol: Symbol) -> Option<u64>
    ensures { result ≡ weight_of symbol.first symbol.second }
{
    let k = find(&WEIGHED, symbol)?;
    Some(WEIGHTS[k])
}

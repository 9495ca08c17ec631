// The term of so many hydrogens, and where it stands among the terms of a formula (document 02, No. 13).
#![tactic(auto)]

ghost use Rattle.std.specs.Prelude.{◌≡◌, ◌%◌, ◌≤◌, take};
ghost use Rattle.number_decimal.specs.Digits.{digit};
ghost use Rattle.hydrogen_text.specs.Hydrogens.{hydrogen_text, is_hydrogen};
ghost use Rattle.hydrogen_text.specs.NewText.{comes_here};

use formula_elements::HYDROGEN;
use formula_terms::term::Term;

// A term of hydrogen, as it is written.
#[derive(Clone, Copy)]
pub struct Word {
    bytes: [u8; 5],
    len: usize,
    ghost fits: { len ≤ 5 },
}

impl Word {
    // The bytes of the term.
    pub fn written(&self) -> &[u8]
        ensures { result.now ≡ take self.now.len self.now.bytes }
    {
        &self.bytes[..self.len]
    }
}

// The last digit of a number.
fn last_digit(n: u64) -> u8
    ensures { result ≡ digit (n % 10) }
{
    b'0' + (n % 10) as u8
}

// The term of n hydrogens, 1 or more: 1 is written H.
pub fn hydrogen_word(n: u64) -> Word
    ensures { take result.len result.bytes ≡ hydrogen_text n }
{
    let ones = last_digit(n);
    let tens = last_digit(n / 10);
    let hundreds = last_digit(n / 10 / 10);
    if n <= 1 {
        return Word {
            bytes: [b'H', 0, 0, 0, 0],
            len: 1,
        };
    }
    if n <= 9 {
        return Word {
            bytes: [b'H', ones, 0, 0, 0],
            len: 2,
        };
    }
    if n <= 99 {
        return Word {
            bytes: [b'H', tens, ones, 0, 0],
            len: 3,
        };
    }
    if n <= 999 {
        return Word {
            bytes: [b'H', hundreds, tens, ones, 0],
            len: 4,
        };
    }
    Word {
        bytes: [b'H', last_digit(n / 10 / 10 / 10), hundreds, tens, ones],
        len: 5,
    }
}

// Whether a term is of hydrogen.
pub fn is_hydrogen(term: Option<Term>) -> bool
    ensures { result ≡ is_hydrogen term }
{
    let Some(t) = term else {
        return false;
    };
    t.symbol == HYDROGEN
}

// Whether hydrogens that are still to come stand before a term.
pub fn comes_here(term: Option<Term>, carbon: bool, wanted: bool) -> bool
    ensures { result ≡ comes_here carbon wanted term }
{
    if !wanted {
        return false;
    }
    let Some(t) = term else {
        return true;
    };
    if t.symbol == HYDROGEN {
        return false;
    }
    formula_order::key_of(carbon, HYDROGEN) < formula_order::key_of(carbon, t.symbol)
}

// One term of a formula: a symbol and a count.
ghost use Rattle.std.specs.Prelude.{◌≡◌};
ghost use Rattle.text.specs.Run.{between, kind_at};
ghost use Rattle.formula_terms.specs.Term.{count_of, with_count, term_of};

use formula_elements::Symbol;
// A term: a symbol and its count.
#[derive(Clone, Copy)]
pub struct Term {
    pub symbol: Symbol,
    pub count: u64,
}

// The largest count.
pub const MOST_COUNT: u64 = 9999;

// Whether a byte from lo to hi stands in s at a place.
fn between_at(s: &[u8], at: usize, lo: u8, hi: u8) -> bool
    ensures { result ≡ kind_at (between lo hi) s.now at }
{
    if s.len() <= at {
        return false;
    }
    let b = s[at];
    if b < lo {
        return false;
    }
    b <= hi
}

// The count that s writes; no text means 1.
pub fn read_count(s: &[u8]) -> Option<u64>
    ensures { result ≡ count_of s.now }
{
    if s.len() == 0 {
        return Some(1);
    }
    if s[0] == b'0' {
        return None;
    }
    let n = number_decimal::read_digits(s)?;
    if MOST_COUNT < n {
        return None;
    }
    Some(n)
}

// The term of a symbol and what was read after it.
fn with_count(symbol: Symbol, count: Option<u64>) -> Option<Term>
    ensures { result ≡ with_count symbol.first symbol.second count }
{
    Some(Term {
        symbol,
        count: count?,
    })
}

// The term that s is.
pub fn read_term(s: &[u8]) -> Option<Term>
    ensures { result ≡ term_of s.now }
{
    if !between_at(s, 0, b'A', b'Z') {
        return None;
    }
    if between_at(s, 1, b'a', b'z') {
        let symbol = Symbol {
            first: s[0],
            second: s[1],
        };
        return with_count(symbol, read_count(&s[2..]));
    }
    let symbol = Symbol {
        first: s[0],
        second: b' ',
    };
    with_count(symbol, read_count(&s[1..]))
}

// Row 1: every term of a formula is well formed and recognised.
ghost use Rattle.std.specs.Prelude.{◌≡◌};
ghost use Rattle.formula_sum.specs.Recognised.{is_recognised, all_recognised};

use formula_terms::term::{Term, read_term};

// Whether a term is well formed and its symbol recognised.
fn is_recognised(term: Option<Term>) -> bool
    ensures { result ≡ is_recognised term }
{
    match term {
        Some(t) => formula_elements::is_element(t.symbol),
        None => false,
    }
}

// Whether every term of a text is recognised. Row 1 is at A exactly when not.
pub fn all_recognised(s: &[u8]) -> bool
    ensures { result ≡ all_recognised s.now }
{
    formula_terms::cut(s).all(|word| is_recognised(read_term(word)))
}

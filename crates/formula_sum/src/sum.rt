// Row 4: the sum of a formula's weights.
ghost use Rattle.std.specs.Prelude.{◌≡◌};
ghost use Rattle.formula_sum.specs.Sum.{SmallCount, SmallWeight, term_weight, sum_of};

use formula_terms::term::{Term, read_term};

// The longest text that is summed, far above any line: no sum within it wraps.
pub const MOST_SUMMED: usize = 4096;

// The weight of a term: its count times the weight of its symbol.
fn term_weight(term: Option<Term>) -> Option<u64>
    requires { SmallCount term }
    ensures { (result ≡ term_weight term) × SmallWeight result }
{
    let t = term?;
    let w = formula_elements::weight_of(t.symbol)?;
    Some(t.count * w)
}

// The sum of the weights of a text's terms, or none where a term is ill formed or has no weight, or the text is too long.
pub fn sum_of(s: &[u8]) -> Option<u64>
    ensures { result ≡ sum_of s.now }
{
    if MOST_SUMMED < s.len() {
        return None;
    }
    let mut sum: u64 = 0;
    for word in formula_terms::cut(s) {
        sum += term_weight(read_term(word))?;
    }
    Some(sum)
}

// Where the hydrogen helper and the check of a count start (document 02, No. 13).
#![tactic(auto)]

ghost use Rattle.std.specs.Prelude.{◌≡◌};
ghost use Rattle.hydrogen_right.specs.Right.{has_weight, all_weighed};
ghost use Rattle.hydrogen_right.specs.Stages.{is_start};

use formula_terms::term::{Term, read_term};

// Whether a term is well formed and its symbol has a weight.
fn has_weight(term: Option<Term>) -> bool
    ensures { result ≡ has_weight term }
{
    let Some(t) = term else {
        return false;
    };
    formula_elements::weight_of(t.symbol).is_some()
}

// Whether the symbols of a text's terms all have weights.
fn all_weighed(s: &[u8]) -> bool
    ensures { result ≡ all_weighed s.now }
{
    formula_terms::cut(s).all(|word| has_weight(read_term(word)))
}

// Whether the start is as said: rows 1 and 2 of the formula's value at level 0, all symbols with weights, and a weight assigned.
// Row 1 is not asked by itself: with row 2 at level 0 the formula is there, and symbols that have weights are recognised.
pub fn is_start(formula: &[u8], weight: &[u8]) -> bool
    ensures { result ≡ is_start formula.now weight.now }
{
    let second = rows_formula::order_row(formula);
    if 0 < second.level {
        return false;
    }
    if !all_weighed(line_quotes::text_of(formula)) {
        return false;
    }
    !rows::is_missing(weight)
}

// The check of a proposed count of hydrogen (document 02, No. 13): it writes the formula with that count and asks the rows.
#![tactic(auto)]

ghost use Rattle.std.specs.Prelude.{◌≡◌};
ghost use Rattle.hydrogen_right.specs.Stages.{rows_pass, is_right};
ghost use Rattle.hydrogen_check.specs.Check.{check_of};

use hydrogen_answers::Refusal;

// The largest count.
const MOST_HYDROGENS: u64 = 9999;

// Whether rows 1, 2 and 4 of a formula's value are at level 0.
fn rows_pass(value: &[u8], weight: &[u8]) -> bool
    ensures { result ≡ rows_pass value.now weight.now }
{
    let first = rows_formula::recognised_row(value);
    if 0 < first.level {
        return false;
    }
    let second = rows_formula::order_row(value);
    if 0 < second.level {
        return false;
    }
    let fourth = rows_weight::weight_rows(value, weight, b"");
    if 0 < fourth.ratio.level {
        return false;
    }
    true
}

// Whether a count is right for the formula's value and the weight's.
pub fn is_right(formula: &[u8], weight: &[u8], n: u64) -> bool
    ensures { result ≡ is_right formula.now weight.now n }
{
    if MOST_HYDROGENS < n {
        return false;
    }
    let typed = hydrogen_writer::typed_with(line_quotes::text_of(formula), n);
    let text = typed.written();
    if text.len() == 0 {
        return false;
    }
    rows_pass(text, weight)
}

// The check: the count, if it is right.
pub fn check(formula: &[u8], weight: &[u8], n: u64) -> Result<u64, Refusal>
    ensures { result ≡ check_of formula.now weight.now n }
{
    if !hydrogen_start::is_start(formula, weight) {
        return Err(Refusal::NoStart);
    }
    if !is_right(formula, weight, n) {
        return Err(Refusal::NotRight);
    }
    Ok(n)
}

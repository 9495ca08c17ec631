// The hydrogen helper (document 02, No. 13): the smallest right count, in closed form.
#![tactic(auto)]

ghost use Rattle.std.specs.Prelude.{◌≡◌, ◌<◌, ◌^◌};
ghost use Rattle.hydrogen_helper.specs.Helper.{other_weight, given_weight, first_count, helper_of};

use hydrogen_answers::Refusal;

// Row 4 is at level 0 up to 1.01 of the sum: 100 times a weight in millionths is at most so many times a sum in thousandths.
const HIGHEST: u64 = 101000;

// The weight of one hydrogen, in thousandths.
const HYDROGEN: u64 = 1008;

// What one hydrogen adds to the highest weight.
const STEP: u64 = HIGHEST * HYDROGEN;

// The sum of the terms other than hydrogen, in thousandths; 0 where there are none, and where they alone are too long a text.
fn other_weight(s: &[u8]) -> u64
    ensures { (result ≡ other_weight s.now) × (result < 10 ^ 13) }
{
    let typed = hydrogen_writer::typed_with(s, 0);
    formula_sum::sum::sum_of(line_quotes::text_of(typed.written())).unwrap_or(0)
}

// The given weight without its sign, in millionths; 0 where it is no number.
fn given_weight(weight: &[u8]) -> u64
    ensures { (result ≡ given_weight weight.now) × (result < 10 ^ 16) }
{
    let Some(given) = number_decimal::read_number(weight) else {
        return 0;
    };
    number_signed::magnitude(given)
}

// The first count at which the given weight is at most 1.01 of the sum.
fn first_count(base: u64, given: u64) -> u64
    requires { (base < 10 ^ 13) × (given < 10 ^ 16) }
    ensures { result ≡ first_count base given }
{
    let mut lack = 0;
    if HIGHEST * base < 100 * given {
        lack = 100 * given - HIGHEST * base;
    }
    (lack + (STEP - 1)) / STEP
}

// The helper: the smallest right count.
pub fn propose(formula: &[u8], weight: &[u8]) -> Result<u64, Refusal>
    ensures { result ≡ helper_of formula.now weight.now }
{
    if !hydrogen_start::is_start(formula, weight) {
        return Err(Refusal::NoStart);
    }
    let base = other_weight(line_quotes::text_of(formula));
    let n = first_count(base, given_weight(weight));
    if !hydrogen_check::is_right(formula, weight, n) {
        return Err(Refusal::NoneRight);
    }
    Ok(n)
}

// Rows 4 and 5: the given weight against the sum of the formula (document 01, "The twelve rows").
#![tactic(auto)]

ghost use Rattle.std.specs.Prelude.{◌≡◌, ◌<◌, ◌≤◌, ◌^◌, pos};
ghost use Rattle.std.specs.Int.Signed.{mag};
ghost use Rattle.line_quotes.specs.Quoted.{text_of};
ghost use Rattle.rows_weight.specs.WeightRows.{weighed_of, SmallWeighed, ratio_outside, ratio_level, ratio_row, row4, far_apart, is_weighed_category, difference_row, row5};

use line_categories::{Class, is_in_class};
use rows::{Row, is_missing, judged_row, make_row};

// The given weight and the formula's sum, both in millionths.
#[derive(Clone, Copy)]
pub struct Weighed {
    pub given: i64,
    pub sum: u64,
}

// Row 4 and row 5.
#[derive(Clone, Copy)]
pub struct WeightRows {
    pub ratio: Row,
    pub difference: Row,
}

// The given weight and the sum of the formula's text t, if both can be had.
#[tactic(auto, unfolding(crate::specs::WeightRows::weighed_of))]
fn weigh(t: &[u8], weight: &[u8]) -> Option<Weighed>
    ensures { (result ≡ weighed_of t.now weight.now) × SmallWeighed result }
{
    let Some(given) = number_decimal::read_number(weight) else {
        return None;
    };
    let sum = formula_sum::sum::sum_of(t)? * 1000;
    Some(Weighed { given, sum })
}

// Whether given / sum is below lo or above hi hundredths. Both weights are in millionths.
fn is_ratio_outside(lo: u64, hi: u64, given: u64, sum: u64) -> bool
    requires { (lo ≤ 110) × (hi ≤ 110) × (given ≤ 10 ^ 15) × (sum < 10 ^ 16) }
    ensures { result ≡ ratio_outside lo hi (pos given) sum }
{
    given * 100 < lo * sum || hi * sum < given * 100
}

// The level of the ratio of the given weight and the sum, both in millionths.
#[tactic(auto, unfolding(crate::specs::WeightRows::ratio_level))]
fn ratio_level(given: i64, sum: u64) -> u8
    requires { (mag given < 10 ^ 15) × (sum < 10 ^ 16) }
    ensures { result ≡ ratio_level given sum }
{
    let Ok(g) = u64::try_from(given) else {
        return 4;
    };
    let low = rows_levels::bounds_of(4, false);
    let high = rows_levels::bounds_of(4, true);
    rows_levels::level(
        is_ratio_outside(low.a, high.a, g, sum),
        is_ratio_outside(low.b, high.b, g, sum),
        is_ratio_outside(low.c, high.c, g, sum),
    )
}

// Row 4 where formula and weight are there: the given weight over the sum.
fn ratio_row(w: Option<Weighed>) -> Row
    requires { SmallWeighed w }
    ensures { result ≡ ratio_row w }
{
    judged_row(w.map(|w| ratio_level(w.given, w.sum)))
}

// Whether the given weight and the sum are more than 1.0 apart. Both are in millionths.
#[tactic(auto, unfolding(crate::specs::WeightRows::far_apart))]
fn is_far_apart(given: i64, sum: u64) -> bool
    requires { (mag given < 10 ^ 15) × (sum < 10 ^ 16) }
    ensures { result ≡ far_apart given sum }
{
    let Ok(g) = u64::try_from(given) else {
        return 1000000 < number_signed::magnitude(given) + sum;
    };
    sum + 1000000 < g || g + 1000000 < sum
}

#[tactic(auto, unfolding(crate::specs::WeightRows::is_weighed_category))]
fn is_weighed_category(t: &[u8]) -> bool
    ensures { result ≡ is_weighed_category t.now }
{
    is_in_class(Class::Organic, t) || is_in_class(Class::MetalOrganic, t)
}

// Row 5 where formula, weight and category are there: the difference of the given weight and the sum.
fn difference_row(w: Option<Weighed>, category: &[u8]) -> Row
    requires { SmallWeighed w }
    ensures { result ≡ difference_row w (text_of category.now) }
{
    let Some(w) = w else {
        return make_row(0, 2);
    };
    if is_far_apart(w.given, w.sum) && is_weighed_category(line_quotes::text_of(category)) {
        make_row(2, 0)
    } else {
        make_row(0, 0)
    }
}

// Rows 4 and 5: the given weight against the sum, which is taken once.
#[tactic(auto, unfolding(crate::specs::WeightRows::row4, crate::specs::WeightRows::row5))]
pub fn weight_rows(formula: &[u8], weight: &[u8], category: &[u8]) -> WeightRows
    ensures { (result.ratio ≡ row4 formula.now weight.now) × (result.difference ≡ row5 formula.now weight.now category.now) }
{
    if is_missing(formula) || is_missing(weight) {
        return WeightRows {
            ratio: make_row(2, 1),
            difference: make_row(0, 1),
        };
    }
    let weighed = weigh(line_quotes::text_of(formula), weight);
    let difference = if is_missing(category) {
        make_row(0, 1)
    } else {
        difference_row(weighed, category)
    };
    WeightRows {
        ratio: ratio_row(weighed),
        difference,
    }
}

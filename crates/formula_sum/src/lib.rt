// Formulas (document 01, "The twelve rows"): what rows 1 and 4 ask of a formula.
#![tactic(auto)]

pub mod recognised;
pub mod sum;

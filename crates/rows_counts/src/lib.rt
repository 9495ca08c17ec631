// Rows 13 to 24 (document 02, No. 11): a table of rules on items, and the row that each earns.
// A client cites Counts (rule_of, keeps, rule_row, count_row). What a row says in the request's words is the theorem `count-rows` of proofs/Fires.antt.
#![tactic(auto)]

ghost use Rattle.std.specs.Prelude.{◌≡◌};
ghost use Rattle.rows_counts.specs.Counts.{order_of, present_row, differ_row, agree_row, above_row, rising_row, rule_of, keeps};

use rows::{POWDER, Row, is_missing, make_row};
use std::cmp::Ordering;

// A rule on items, by their numbers.
#[derive(Clone, Copy)]
pub enum Rule {
    // The item is present.
    Present(usize),
    // The first is present if the others differ.
    PresentIfDiffer(usize, usize, usize),
    // The first is zero if the others agree.
    ZeroIfAgree(usize, usize, usize),
    // The first is not above the second.
    NotAbove(usize, usize),
    // They run without falling.
    Rising(usize, usize, usize),
}

// The table: the rule of each row from 13 to 24; other rows have none.
#[tactic(auto, using(crate::proofs::Table::none), unfolding(crate::specs::Counts::rules, crate::specs::Counts::rule_of))]
pub fn rule_of(row: usize) -> Option<Rule>
    ensures { result ≡ rule_of row }
{
    let rule = match row {
        13 => Rule::Present(11),
        14 => Rule::Present(12),
        15 => Rule::Present(13),
        16 => Rule::Present(15),
        17 => Rule::Present(16),
        18 => Rule::Present(17),
        19 => Rule::Present(18),
        20 => Rule::PresentIfDiffer(14, 12, 13),
        21 => Rule::ZeroIfAgree(14, 12, 13),
        22 => Rule::NotAbove(12, 11),
        23 => Rule::NotAbove(13, 12),
        24 => Rule::Rising(17, 16, 15),
        _ => return None,
    };
    Some(rule)
}

// Whether a profile keeps a row.
#[tactic(auto, unfolding(crate::specs::Counts::keeps))]
pub fn is_kept(profile: u64, row: usize) -> bool
    ensures { result ≡ keeps profile row }
{
    profile != POWDER || !matches!(row, 13..=18 | 20..=21)
}

// How the numbers of two texts stand, if both are numbers; a text that is no number is as a missing one.
#[tactic(auto, unfolding(crate::specs::Counts::order_of))]
fn order_of(a: &[u8], b: &[u8]) -> Option<Ordering>
    ensures { result ≡ order_of a.now b.now }
{
    let x = number_decimal::read_number(a)?;
    let y = number_decimal::read_number(b)?;
    Some(x.cmp(&y))
}

// The row of an item that must be present.
pub fn present_row(v: &[u8]) -> Row
    ensures { result ≡ present_row v.now }
{
    if is_missing(v) {
        make_row(2, 1)
    } else {
        make_row(0, 0)
    }
}

// The row of an item that must be present if two numbers differ.
pub fn differ_row(v: &[u8], a: &[u8], b: &[u8]) -> Row
    ensures { result ≡ differ_row v.now a.now b.now }
{
    match order_of(a, b) {
        Some(counts) if counts.is_ne() && is_missing(v) => make_row(2, 0),
        Some(_) => make_row(0, 0),
        None => make_row(0, 1),
    }
}

// The row of a number that must be zero if two others agree.
pub fn agree_row(v: &[u8], a: &[u8], b: &[u8]) -> Row
    ensures { result ≡ agree_row v.now a.now b.now }
{
    match (order_of(v, b"0"), order_of(a, b)) {
        (Some(zero), Some(pair)) if zero.is_ne() && pair.is_eq() => make_row(2, 0),
        (Some(_), Some(_)) => make_row(0, 0),
        _ => make_row(0, 1),
    }
}

// The row of a number that must not be above another.
pub fn above_row(a: &[u8], b: &[u8]) -> Row
    ensures { result ≡ above_row a.now b.now }
{
    match order_of(a, b) {
        Some(pair) if pair.is_gt() => make_row(2, 0),
        Some(_) => make_row(0, 0),
        None => make_row(0, 1),
    }
}

// The row of three numbers that must not fall.
pub fn rising_row(a: &[u8], b: &[u8], c: &[u8]) -> Row
    ensures { result ≡ rising_row a.now b.now c.now }
{
    match (order_of(a, b), order_of(b, c)) {
        (Some(low), Some(high)) if low.is_gt() || high.is_gt() => make_row(2, 0),
        (Some(_), Some(_)) => make_row(0, 0),
        _ => make_row(0, 1),
    }
}

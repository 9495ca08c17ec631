// Reads a part of an operator's text (document 02, No. 5).
// A client cites Reading (part_of). That this reading is the document's wording (Grammar) is shown in proofs/Sound.antt and proofs/Complete.antt.
#![tactic(auto)]

ghost use Rattle.std.specs.Prelude.{◌≡◌};
ghost use Rattle.symmetry_parts.specs.Reading.{is_free, with_letter, last_fraction, more_of, after_first_sign, part_of};

use symmetry_fractions::{FRACTION, is_sign, read_fraction, signed};

// What is read of a part: the factors of x, y, z and the translation in 24ths, all modulo 24, so that −1 is 23; 0 for what is not there.
// It is no generic part with `RowPart` of symmetry_readings: these are residues, and no function takes both.
#[derive(Clone, Copy)]
pub struct Sum {
    pub x: u8,
    pub y: u8,
    pub z: u8,
    pub t: u8,
}

// A part of which nothing is read.
const NOTHING: Sum = Sum {
    x: 0,
    y: 0,
    z: 0,
    t: 0,
};

// Whether b is a letter that is not yet in p.
#[tactic(auto, unfolding(crate::specs::Reading::is_free))]
fn is_free(p: Sum, b: u8) -> bool
    ensures { result ≡ is_free p b }
{
    match b {
        b'x' => p.x == 0,
        b'y' => p.y == 0,
        b'z' => p.z == 0,
        _ => false,
    }
}

// p with the factor n of the letter b.
#[tactic(auto, unfolding(crate::specs::Reading::with_letter))]
fn with_letter(p: Sum, b: u8, n: u8) -> Sum
    ensures { result ≡ with_letter p b n }
{
    match b {
        b'x' => Sum { x: n, ..p },
        b'y' => Sum { y: n, ..p },
        _ => Sum { z: n, ..p },
    }
}

// After p and a sign there is no further letter: s is the fraction, if there was none before.
#[tactic(auto, unfolding(crate::specs::Reading::last_fraction))]
fn read_last(p: Sum, sign: u8, s: &[u8]) -> Option<Sum>
    ensures { result ≡ last_fraction p sign s.now }
{
    if p.t != 0 {
        return None;
    }
    if s.len() != FRACTION {
        return None;
    }
    let t = signed(sign, read_fraction(s)?);
    Some(Sum { t, ..p })
}

// The part that begins with p and goes on with s: signed letters, and at the end the fraction, if there was none before.
#[tactic(auto, using(crate::proofs::Turns::turn), unfolding(crate::specs::Reading::more_of))]
fn read_more(p: Sum, s: &[u8]) -> Option<Sum>
    ensures { result ≡ more_of p s.now }
{
    let mut sum = p;
    let mut left = s;
    while let [sign, b, rest @ ..] = left {
        if !is_sign(*sign) {
            return None;
        }
        if !is_free(sum, *b) {
            return read_last(sum, *sign, &left[1..]);
        }
        sum = with_letter(sum, *b, signed(*sign, 1));
        left = rest;
    }
    left.is_empty().then_some(sum)
}

// The part that s is after its first sign.
#[tactic(auto, unfolding(crate::specs::Reading::after_first_sign))]
fn read_first(sign: u8, s: &[u8]) -> Option<Sum>
    ensures { result ≡ after_first_sign sign s.now }
{
    if let Some(size) = read_fraction(s) {
        if s.len() <= FRACTION {
            return None;
        }
        let t = signed(sign, size);
        return read_more(Sum { t, ..NOTHING }, &s[FRACTION..]);
    }
    match s {
        [b, rest @ ..] if is_free(NOTHING, *b) => {
            read_more(with_letter(NOTHING, *b, signed(sign, 1)), rest)
        }
        _ => None,
    }
}

// The part that s is.
#[tactic(auto, unfolding(crate::specs::Reading::part_of))]
pub fn read_part(s: &[u8]) -> Option<Sum>
    ensures { result ≡ part_of s.now }
{
    match s {
        [sign, rest @ ..] if is_sign(*sign) => read_first(*sign, rest),
        _ => read_first(b'+', s),
    }
}

// Signs and fractions of an operator's text (document 02, No. 5).
// A client cites Reading (is_sign, signed24ths, fraction_of). That `fraction_of` is the document's wording (Grammar) is shown in proofs/Wording.antt.
#![tactic(auto)]

ghost use Rattle.std.specs.Prelude.{◌≡◌};
ghost use Rattle.symmetry_fractions.specs.Reading.{is_sign, signed24ths, unit_of, fraction_of};

// The number of 24ths in one.
pub const WHOLE: u8 = 24;

// The length of a fraction without its sign.
pub const FRACTION: usize = 3;

// Whether a byte is a sign.
#[tactic(auto, unfolding(crate::specs::Reading::is_sign))]
pub fn is_sign(b: u8) -> bool
    ensures { result ≡ is_sign b }
{
    matches!(b, b'+' | b'-')
}

// A number of 24ths after a sign, modulo 1.
#[tactic(auto, unfolding(crate::specs::Reading::signed24ths))]
pub fn signed(sign: u8, n: u8) -> u8
    ensures { result ≡ signed24ths sign n }
{
    if sign == b'-' {
        WHOLE.saturating_sub(n)
    } else {
        n
    }
}

// How many 24ths one is, divided by the denominator with that digit.
#[tactic(auto, unfolding(crate::specs::Reading::unit_of))]
fn unit_of(d: u8) -> Option<u8>
    ensures { result ≡ unit_of d }
{
    match d {
        b'2' => Some(12),
        b'3' => Some(8),
        b'4' => Some(6),
        b'6' => Some(4),
        b'8' => Some(3),
        _ => None,
    }
}

// How many 24ths the fraction is that s begins with.
#[tactic(auto, using(crate::proofs::Units::fraction_below_one), unfolding(crate::specs::Reading::fraction_of))]
pub fn read_fraction(s: &[u8]) -> Option<u8>
    ensures { result ≡ fraction_of s.now }
{
    let [n, b'/', d, ..] = s else {
        return None;
    };
    if *n < b'1' || *d <= *n {
        return None;
    }
    Some((*n - b'0') * unit_of(*d)?)
}

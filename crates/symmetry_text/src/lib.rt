// Reads the text of a symmetry operator (document 02, No. 5): three parts with commas.
// A client cites Reading (reading_of). That this reading is the document's wording (Grammar) is the theorem `agree` of proofs/Agree.antt.
#![tactic(auto)]

ghost use Rattle.std.specs.Prelude.{◌≡◌, ◌+◌, false, MatchOption};
ghost use Rattle.text.specs.Run.{has_at};
ghost use Rattle.symmetry_parts.specs.Reading.{factor};
ghost use Rattle.symmetry_text.specs.Reading.{row_part, parts_of, before_comma, Parted, reading_of};

use symmetry_fractions::WHOLE;
use symmetry_parts::{Sum, read_part};
use symmetry_readings::{OperatorRow, RowPart};

// A factor by its residue modulo 24.
#[tactic(auto, unfolding(symmetry_parts::specs::Reading::factor))]
fn factor_of(n: u8) -> i8
    ensures { result ≡ factor n }
{
    match n {
        0 => 0,
        1 => 1,
        _ => -1,
    }
}

// The numbers of a part that was read.
fn row_part(p: Sum) -> RowPart
    ensures { result ≡ row_part p }
{
    let t = (p.t % WHOLE) as i8;
    RowPart {
        x: factor_of(p.x),
        y: factor_of(p.y),
        z: factor_of(p.z),
        t,
    }
}

// The texts before and after the first comma.
#[tactic(auto, using(text::proofs::Runs::has_within))]
fn at_comma(s: &[u8]) -> Option<(&[u8], &[u8])>
    ensures { MatchOption result (has_at s.now (before_comma s.now) 44 ≡ false) (λ p. Parted s.now p.0.now p.1.now) }
{
    let n = text::run::run_other(s, b',');
    if !text::has(s, n, b',') {
        return None;
    }
    Some((&s[..n], &s[n + 1..]))
}

// The row of three parts' texts.
#[tactic(auto, unfolding(crate::specs::Reading::parts_of))]
fn read_parts(first: &[u8], second: &[u8], third: &[u8]) -> Option<OperatorRow>
    ensures { result ≡ parts_of first.now second.now third.now }
{
    Some(OperatorRow {
        first: row_part(read_part(first)?),
        second: row_part(read_part(second)?),
        third: row_part(read_part(third)?),
    })
}

// The row of the operator that s is.
#[tactic(auto, unfolding(crate::specs::Reading::at_comma))]
pub fn read_operator(s: &[u8]) -> Option<OperatorRow>
    ensures { result ≡ reading_of s.now }
{
    let (first, rest) = at_comma(s)?;
    let (second, third) = at_comma(rest)?;
    read_parts(first, second, third)
}

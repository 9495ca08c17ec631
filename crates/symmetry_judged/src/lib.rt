// A list of rows whose numbers are in range, judged: determinants, identity, equal rows, products (document 02, No. 5).
#![tactic(auto)]

ghost use Rattle.std.specs.Prelude.{◌≡◌, ◌*◌, ◌/◌, ◌≤◌, length, take};
ghost use Rattle.text.specs.Run.{all, run_of};
ghost use Rattle.symmetry_operators.specs.Check.{row_most, row_from, operator_rows};
ghost use Rattle.symmetry_operators.specs.Residues.{row_from_n, turning, code, closes_code, run_pairs, codes_of, closed_n, judged_n};
ghost use Rattle.symmetry_judged.specs.Answer.{outcome_of, pairs_looked};
ghost use Rattle.symmetry_judged.specs.Judged.{judged_few};

use symmetry_answers::ListRefusal;
use symmetry_codes::{are_distinct, has_code, has_hinted, hints_of};
use symmetry_operators::{LIST_MOST, ROW_LENGTH, ROW_MOST};
use symmetry_products::{has_unit, product_code};
use symmetry_rows::residues_of;

// The code of the identity.
const IDENTITY: u64 = 4295491648;

// How many pairs were looked at: all of an accepted list, those up to and including the first without its product, and none where another refusal stands before them.
pub fn pairs_looked(checked: Result<u64, ListRefusal>) -> u64
    ensures { result ≡ pairs_looked checked }
{
    match checked {
        Ok(pairs) | Err(ListRefusal::ProductMissing(pairs)) => pairs,
        Err(_) => 0,
    }
}

// Whether the determinant of a row is 1 or −1.
#[tactic(auto, using(crate::proofs::Read::residues_read))]
fn is_unit(row: &[i8]) -> bool
    ensures { result ≡ turning (row_from row.now) }
{
    has_unit(residues_of(row))
}

// The code of a row: that of its product with the identity.
#[tactic(auto, using(crate::proofs::Read::residues_read, crate::proofs::Read::identity_last))]
fn code_of(row: &[i8]) -> u64
    ensures { result ≡ code (row_from row.now) }
{
    product_code(residues_of(row), IDENTITY)
}

// Whether the determinants of all rows are 1 or −1.
fn all_units(rows: &[i8]) -> bool
    ensures { result ≡ all turning (operator_rows rows.now) }
{
    rows.chunks_exact(ROW_LENGTH).all(is_unit)
}

// The codes of at most 192 rows.
fn codes_of(rows: &[i8]) -> [u64; ROW_MOST]
    requires { length rows.now ≤ 12 * row_most }
    ensures { take (length rows.now / 12) result ≡ codes_of (length rows.now / 12) rows.now }
{
    let mut codes = [0u64; ROW_MOST];
    for (i, row) in rows.chunks_exact(ROW_LENGTH).enumerate() {
        codes[i] = code_of(row);
    }
    codes
}

// How many products of one row with the others come before the first that is not there.
fn row_run(first: [u16; 12], codes: &[u64], hints: &[u8; 4096]) -> usize
    ensures run { result ≡ run_of (closes_code codes.now (row_from_n first)) codes.now }
    ensures within { result ≤ length codes.now }
{
    codes
        .iter()
        .take_while(|code| has_hinted(codes, hints, product_code(first, **code)))
        .count()
}

// How many pairs come before the first whose product is not there.
fn pair_run(rows: &[i8], codes: &[u64]) -> usize
    requires few { length codes.now ≤ row_most }
    requires all { length codes.now ≡ length rows.now / 12 }
    ensures { result ≡ run_pairs codes.now (operator_rows rows.now) }
{
    let hints = hints_of(codes);
    let n = codes.len();
    let mut before = 0;
    for row in rows.chunks_exact(ROW_LENGTH) {
        let found = row_run(residues_of(row), codes, &hints);
        if found < n {
            return before + found;
        }
        before += n;
    }
    before
}

// The codes of the rows, judged: the identity, equal rows, products.
#[tactic(auto, using(crate::proofs::Looked::few, crate::proofs::Looked::found_few), unfolding(symmetry_operators::specs::Residues::closed_n))]
fn closed(rows: &[i8], codes: &[u64]) -> Result<u64, ListRefusal>
    requires few { length codes.now ≤ row_most }
    requires all { length codes.now ≡ length rows.now / 12 }
    ensures { outcome_of result ≡ closed_n (length codes.now) rows.now codes.now }
{
    if !has_code(codes, IDENTITY) {
        return Err(ListRefusal::NoIdentity);
    }
    if !are_distinct(codes) {
        return Err(ListRefusal::EqualRows);
    }
    let found = pair_run(rows, codes);
    let most = codes.len() * codes.len();
    if found == most {
        return Ok(most as u64);
    }
    Err(ListRefusal::ProductMissing(found as u64 + 1))
}

// The rows of a list, at most 192, judged.
#[tactic(auto, using(crate::proofs::Answers::units), unfolding(symmetry_operators::specs::Residues::judged_n))]
fn judged(rows: &[i8]) -> Result<u64, ListRefusal>
    requires { length rows.now ≤ 12 * row_most }
    ensures { outcome_of result ≡ judged_n (length rows.now / 12) rows.now }
{
    if !all_units(rows) {
        return Err(ListRefusal::BadDeterminant);
    }
    let codes = codes_of(rows);
    closed(rows, &codes[..rows.len() / ROW_LENGTH])
}

// A list of at most 192 rows, judged; with more 13. Its numbers are taken to be in range.
#[tactic(auto, unfolding(crate::specs::Judged::judged_few))]
pub fn judge(rows: &[i8]) -> Result<u64, ListRefusal>
    ensures { outcome_of result ≡ judged_few rows.now }
{
    if rows.len() > LIST_MOST {
        return Err(ListRefusal::NoList);
    }
    judged(rows)
}

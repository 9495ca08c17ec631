// Codes of operators: whether one is there, whether all are different.
#![tactic(auto)]

ghost use Rattle.std.specs.Prelude.{◌≡◌, ◌<◌, eqb};
ghost use Rattle.symmetry_operators.specs.Lists.{has, distinct};
ghost use Rattle.symmetry_codes.specs.Hints.{hint_of, hints_of};

// Whether a code is there. It looks at all of them, many at a time.
pub fn has_code(codes: &[u64], c: u64) -> bool
    ensures { result ≡ has eqb codes.now c }
{
    let mut found = false;
    for code in codes {
        if *code == c {
            found = true;
        }
    }
    found
}

// Whether no two codes are equal.
pub fn are_distinct(codes: &[u64]) -> bool
    ensures { result ≡ distinct eqb codes.now }
{
    for (i, code) in codes.iter().enumerate() {
        if has_code(&codes[i + 1..], *code) {
            return false;
        }
    }
    true
}

// Where a code's hint stands.
fn hint_of(c: u64) -> usize
    ensures is { result ≡ hint_of c }
    ensures within { result < 4096 }
{
    (c % 4051) as usize
}

// For each code the place where it stands, as a hint where to look first.
pub fn hints_of(codes: &[u64]) -> [u8; 4096]
    ensures { result ≡ hints_of codes.now }
{
    let mut hints = [0u8; 4096];
    for (i, code) in codes.iter().enumerate() {
        hints[hint_of(*code)] = (i % 256) as u8;
    }
    hints
}

// Whether a code is there: first where its hint says, then everywhere. The hints may be any.
// Codes and hints are no struct: the promise is of the codes alone, whatever the hints are.
#[tactic(auto, using(crate::proofs::Search::is_there))]
pub fn has_hinted(codes: &[u64], hints: &[u8; 4096], c: u64) -> bool
    ensures { result ≡ has eqb codes.now c }
{
    let at = usize::from(hints[hint_of(c)]);
    codes.get(at) == Some(&c) || has_code(codes, c)
}

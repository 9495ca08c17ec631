// Comparison of texts. No rule of document 01 is here.
// A client cites Same (same_by, same_folded, begins_folded).
#![tactic(auto)]

ghost use Rattle.std.specs.Prelude.{◌≡◌};
ghost use Rattle.text_equality.specs.Same.{lower, exact, same_by, same_folded, begins_folded};

// Whether two texts are the same.
pub fn same(a: &[u8], b: &[u8]) -> bool
    ensures { result ≡ same_by exact a.now b.now }
{
    a == b
}

// Whether two texts are the same but for the case of A to Z. Of two as long as each other it looks at all bytes, many at a time.
pub fn same_folded(a: &[u8], b: &[u8]) -> bool
    ensures { result ≡ same_folded a.now b.now }
{
    if a.len() != b.len() {
        return false;
    }
    a.iter().zip(b).fold(
        true,
        |so_far, (x, y)| so_far & (x.to_ascii_lowercase() == y.to_ascii_lowercase()),
    )
}

// Whether s begins with p, but for the case of A to Z.
pub fn begins_folded(s: &[u8], p: &[u8]) -> bool
    ensures { result ≡ begins_folded s.now p.now }
{
    let n = p.len();
    n <= s.len() && same_folded(&s[..n], p)
}

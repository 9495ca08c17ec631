// Runs of bytes that a text begins with. No rule of document 01 is here.
// A client cites Run (run_of, between, other).
ghost use Rattle.std.specs.Prelude.{◌≡◌, ◌≤◌, true, length, take};
ghost use Rattle.text.specs.Run.{run_of, all, between, other};

// The bytes that a search passes over at once.
const PART: usize = 8;

// How many bytes from lo to hi s begins with.
pub fn run_between(s: &[u8], lo: u8, hi: u8) -> usize
    ensures { (result ≡ run_of (between lo hi) s.now) × (result ≤ length s.now) }
{
    s.iter()
        .position(|b| !crate::is_between(*b, lo, hi))
        .unwrap_or(s.len())
}

// A number of bytes other than x that s begins with, found by whole parts.
fn skip_parts(s: &[u8], x: u8) -> usize
    ensures { (all (other x) (take result s.now) ≡ true) × (result ≤ length s.now) }
{
    let mut passed = 0;
    for part in s.chunks_exact(PART) {
        if !crate::lacks(part, x) {
            return passed;
        }
        passed += PART;
    }
    passed
}

// How many bytes other than x s begins with.
pub fn run_other(s: &[u8], x: u8) -> usize
    ensures { (result ≡ run_of (other x) s.now) × (result ≤ length s.now) }
{
    let passed = skip_parts(s, x);
    let rest = &s[passed..];
    passed + rest.iter().position(|b| *b == x).unwrap_or(rest.len())
}

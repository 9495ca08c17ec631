// The words of a moiety formula's text (document 02, No. 12): a word is a term, or the count after a bracket.
#![tactic(auto)]

ghost use Rattle.std.specs.Prelude.{◌≡◌, ◌≤◌, length};
ghost use Rattle.text.specs.Run.{run_of};
ghost use Rattle.formula_moiety.specs.Reading.{in_word, bracket_count};

// The largest count after a bracket.
const MOST_TIMES: u64 = 99;

// How many bytes of a word s begins with: none is a space, a bracket that closes or a comma.
pub fn word_run(s: &[u8]) -> usize
    ensures { (result ≡ run_of in_word s.now) × (result ≤ length s.now) }
{
    for (i, b) in s.iter().enumerate() {
        if *b == b' ' || *b == b')' || *b == b',' {
            return i;
        }
    }
    s.len()
}

// The count after a bracket that s is; no text means 1.
pub fn read_times(s: &[u8]) -> Option<u64>
    ensures { result ≡ bracket_count s.now }
{
    let n = formula_terms::term::read_count(s)?;
    if MOST_TIMES < n {
        return None;
    }
    Some(n)
}

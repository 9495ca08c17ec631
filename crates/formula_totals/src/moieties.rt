// The readers of a moiety formula's text, which count its elements: those of a part and of a moiety call each other.
ghost use Rattle.formula_moiety.specs.Grammar.{most_deep};
ghost use Rattle.formula_moiety.specs.Reading.{word_part};
ghost use Rattle.formula_moiety.specs.Totals.{total_part};
ghost use Rattle.formula_totals.specs.Counters.{AllBelow};
ghost use Rattle.formula_totals.specs.Left.{GotLeft, CloseLeft, PartLeft, MoietyLeft, WholeLeft, Room};

use crate::counts::{add_term, add_times};
use formula_elements::ELEMENT_COUNT;

// The most brackets that are open at once.
const MOST_DEEP: usize = 4;

// The term that s begins with, which is added to the counters.
fn read_word(s: &[u8], counts: &mut [u64]) -> Option<usize>
    requires { AllBelow counts.old }
    ensures { GotLeft total_part s.now counts.old counts.new result (word_part s.now) }
{
    let n = formula_words::word_run(s);
    add_term(formula_terms::term::read_term(&s[..n]), counts)?;
    Some(n)
}

// The end of a bracket that s begins with: the bracket that closes and its count. What the bracket holds, which `inner` counts, is added so often.
fn close_bracket(s: &[u8], inner: &[u64], counts: &mut [u64]) -> Option<usize>
    requires { AllBelow inner.now × AllBelow counts.old }
    ensures { CloseLeft s.now inner.now counts.old counts.new result }
{
    if !text::has(s, 0, b')') {
        return None;
    }
    let n = formula_words::word_run(&s[1..]);
    let c = formula_words::read_times(&s[1..1 + n])?;
    add_times(inner, c, counts);
    Some(1 + n)
}

// The part that s begins with, inside at most depth more brackets.
#[cycle(read_moiety_read_part)]
fn read_part(s: &[u8], depth: usize, counts: &mut [u64]) -> Option<usize>
    requires { Room depth s.now counts.old }
    ensures { PartLeft s.now depth counts.old counts.new result }
{
    if !text::has(s, 0, b'(') {
        return read_word(s, counts);
    }
    if depth == 0 {
        return None;
    }
    let mut inner = [0u64; ELEMENT_COUNT];
    let n = read_moiety(&s[1..], depth - 1, &mut inner)?;
    let m = close_bracket(&s[1 + n..], &inner, counts)?;
    Some(1 + n + m)
}

// The moiety that s begins with, inside at most depth more brackets.
#[cycle(read_moiety_read_part)]
fn read_moiety(s: &[u8], depth: usize, counts: &mut [u64]) -> Option<usize>
    requires { Room depth s.now counts.old }
    ensures { MoietyLeft s.now depth counts.old counts.new result }
{
    let n = read_part(s, depth, counts)?;
    if !text::has(s, n, b' ') {
        return Some(n);
    }
    let m = read_moiety(&s[n + 1..], depth, counts)?;
    Some(n + 1 + m)
}

// Reads the moieties that s is, and counts their elements, if s is a moiety formula of the house subset.
pub(crate) fn read_moieties(s: &[u8], counts: &mut [u64]) -> Option<()>
    requires { Room most_deep s.now counts.old }
    ensures { WholeLeft s.now counts.old counts.new result }
{
    let n = read_moiety(s, MOST_DEEP, counts)?;
    if n == s.len() {
        return Some(());
    }
    if !text::has(s, n, b',') {
        return None;
    }
    if !text::has(s, n + 1, b' ') {
        return None;
    }
    read_moieties(&s[n + 2..], counts)
}

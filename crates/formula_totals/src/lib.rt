// The totals of each element in a moiety formula and in a formula, compared (document 02, No. 12). counts: counters of the elements;
// moieties: the readers of a moiety formula.
#![tactic(auto)]

ghost use Rattle.std.specs.Prelude.{◌≡◌};
ghost use Rattle.formula_totals.specs.Compare.{compared_of};
ghost use Rattle.formula_totals.specs.Counting.{TermRoom, FormulaLeft};

use formula_elements::ELEMENT_COUNT;
use formula_sum::sum::MOST_SUMMED;
use formula_terms::term::read_term;

mod counts;
mod moieties;

// What a comparison finds: every element's totals are the same, or some element's differ, or one of the texts cannot be read.
#[derive(Clone, Copy)]
pub enum Compared {
    Same,
    Differs,
    Unread,
}

// Counts the elements of a formula's text, if every term is well formed and recognised.
fn count_formula(s: &[u8], counts: &mut [u64]) -> Option<()>
    requires { TermRoom s.now counts.old }
    ensures { FormulaLeft s.now counts.old counts.new result }
{
    for word in formula_terms::cut(s) {
        crate::counts::add_term(read_term(word), counts)?;
    }
    Some(())
}

// Compares the totals of each element in the text m of a moiety formula and in the text s of a formula. A text that is longer than any line,
// over 4,096 bytes, is not read.
pub fn compare(m: &[u8], s: &[u8]) -> Compared
    ensures { result ≡ compared_of m.now s.now }
{
    if MOST_SUMMED < m.len() {
        return Compared::Unread;
    }
    if MOST_SUMMED < s.len() {
        return Compared::Unread;
    }
    let mut want = [0u64; ELEMENT_COUNT];
    if count_formula(s, &mut want).is_none() {
        return Compared::Unread;
    }
    let mut have = [0u64; ELEMENT_COUNT];
    if crate::moieties::read_moieties(m, &mut have).is_none() {
        return Compared::Unread;
    }
    if crate::counts::same_counts(&have, &want) {
        return Compared::Same;
    }
    Compared::Differs
}

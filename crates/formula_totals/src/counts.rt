// Counters of the elements, one for each, in the order of the periodic table.
ghost use Rattle.std.specs.Prelude.{◌≡◌, ℕ, ◌*◌, ◌≤◌, eqb, length, get_or};
ghost use Rattle.formula_elements.specs.Elements.{element_count};
ghost use Rattle.formula_sum.specs.Sum.{SmallCount};
ghost use Rattle.formula_moiety.specs.Grammar.{most_times};
ghost use Rattle.formula_moiety.specs.Compare.{every_below};
ghost use Rattle.formula_totals.specs.Counters.{AllBelow, TermLeft, Added};

use formula_elements::ELEMENT_COUNT;
use formula_terms::term::Term;

// Adds a term's count to the counter of its element, if the term is well formed and recognised.
pub(crate) fn add_term(term: Option<Term>, counts: &mut [u64]) -> Option<()>
    requires { SmallCount term × AllBelow counts.old }
    ensures { TermLeft term counts.old counts.new result }
{
    let t = term?;
    let k = formula_elements::find_element(t.symbol)?;
    counts[k] += t.count;
    Some(())
}

// Adds n times what `from` counts.
pub(crate) fn add_times(from: &[u64], n: u64, counts: &mut [u64])
    requires { (n ≤ most_times) × (AllBelow from.now × AllBelow counts.old) }
    ensures { Added counts.old counts.new (λ (k : ℕ). n * get_or from.now k 0) }
{
    for i in 0..ELEMENT_COUNT {
        counts[i] += n * from[i];
    }
}

// Whether every element's counters are the same.
pub(crate) fn same_counts(a: &[u64], b: &[u64]) -> bool
    requires { (length a.now ≡ element_count) × (length b.now ≡ element_count) }
    ensures { result ≡ every_below element_count (λ (k : ℕ). eqb (get_or a.now k 0) (get_or b.now k 0)) }
{
    a == b
}

// Terms put one after the other into lent bytes, each with a space after it.
ghost use Rattle.std.specs.Prelude.{◌≡◌, [], ◌∷◌, ◌++◌, length};
ghost use Rattle.formula_terms.specs.Terms.{cut};
ghost use Rattle.hydrogen_text.specs.NewText.{new_words, spread};
ghost use Rattle.hydrogen_writer.specs.Typed.{typed_most, to_come, Shows, Puts, spaced};

use crate::TYPED_MOST;
use formula_elements::CARBON;
use formula_symbols::Wanted;
use formula_terms::term::read_term;
use hydrogen_terms::{comes_here, hydrogen_word, is_hydrogen};

// Puts a term and a space at a place, and says where they end; where they do not fit, a place past the end.
fn put_word(out: &mut [u8], at: usize, word: &[u8]) -> usize
    requires { length out.old ≡ typed_most }
    ensures { Puts out.old at (word.now ++ (32 ∷ [])) out.new result }
{
    if TYPED_MOST < at {
        return at;
    }
    if TYPED_MOST - at <= word.len() {
        return TYPED_MOST + 1;
    }
    text_copies::copy_in(out, at, word);
    text_copies::copy_in(out, at + word.len(), b" ");
    at + word.len() + 1
}

// The same if it is wanted.
fn put_if(out: &mut [u8], at: usize, word: &[u8], wanted: bool) -> usize
    requires { length out.old ≡ typed_most }
    ensures { Puts out.old at (spaced wanted word.now) out.new result }
{
    if wanted {
        return put_word(out, at, word);
    }
    at
}

// Puts the terms of s after the first byte, with the term of hydrogen given if it is wanted, and says where they end; where they do not fit, a place past the end.
fn put_terms(out: &mut [u8], s: &[u8], hydrogens: &[u8], carbon: bool, asked: bool) -> usize
    requires { (length out.old ≡ typed_most) × Shows out.old 1 (39 ∷ []) }
    ensures { Shows out.new result (39 ∷ spread (to_come carbon hydrogens.now asked (cut s.now))) }
{
    let mut wanted = asked;
    let mut at = 1;
    for word in formula_terms::cut(s) {
        let term = read_term(word);
        let here = comes_here(term, carbon, wanted);
        at = put_if(out, at, hydrogens, here);
        if here {
            wanted = false;
        }
        at = put_if(out, at, word, !is_hydrogen(term));
    }
    put_if(out, at, hydrogens, wanted)
}

// Puts the terms of s with n hydrogens after the first byte, and says where they end; where they do not fit, a place past the end.
pub(crate) fn put_words(out: &mut [u8], s: &[u8], n: u64) -> usize
    requires { (length out.old ≡ typed_most) × Shows out.old 1 (39 ∷ []) }
    ensures { Shows out.new result (39 ∷ spread (new_words n s.now)) }
{
    let carbon = formula_symbols::has_term(s, Wanted::Element(CARBON));
    let word = hydrogen_word(n);
    put_terms(out, s, word.written(), carbon, n != 0)
}

// The terms of a formula's text, one after the other (document 01, "The twelve rows"). term: one term.
#![tactic(auto)]

ghost use Rattle.std.specs.Prelude.{◌≡◌};
ghost use Rattle.std.specs.Iterator.{YieldsFirstRef, item_count};
ghost use Rattle.formula_terms.specs.Terms.{cut, words_left};

pub mod term;

// The terms that are left of a text, as they are written. After the last one nothing is left.
#[derive(Clone, Copy)]
pub struct Words<'a> {
    rest: Option<&'a [u8]>,
}

// The terms of a text, as they are written: it is cut at every single space.
pub fn cut(s: &[u8]) -> Words<'_>
    ensures { words_left result ≡ cut s.now }
{
    Words { rest: Some(s) }
}

impl<'a> Iterator for Words<'a> {
    type Item = &'a [u8];

    ghost next_gives = { YieldsFirstRef words_left };

    ghost remaining = { item_count words_left };

    fn next(&mut self) -> Option<&'a [u8]> {
        let rest = self.rest?;
        let n = text::run::run_other(rest, b' ');
        self.rest = if n < rest.len() {
            Some(&rest[n + 1..])
        } else {
            None
        };
        Some(&rest[..n])
    }
}

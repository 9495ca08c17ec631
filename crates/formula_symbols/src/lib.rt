// Which symbols the well-formed terms of a formula's text have (document 01, "The twelve rows": rows 2 and 3).
#![tactic(auto)]

ghost use Rattle.std.specs.Prelude.{◌≡◌};
ghost use Rattle.formula_symbols.specs.Symbols.{is_wanted, has_term};

use formula_elements::Symbol;
use formula_terms::term::{Term, read_term};

// What is looked for among the terms of a formula: the symbol of an element, or that of any metal.
#[derive(Clone, Copy)]
pub enum Wanted {
    Element(Symbol),
    AnyMetal,
}

// Whether a term is well formed and is one that is looked for.
fn is_wanted(term: Option<Term>, w: Wanted) -> bool
    ensures { result ≡ is_wanted w term }
{
    let Some(t) = term else {
        return false;
    };
    match w {
        Wanted::Element(symbol) => t.symbol == symbol,
        Wanted::AnyMetal => formula_elements::is_metal(t.symbol),
    }
}

// Whether a term of a text is one that is looked for.
pub fn has_term(s: &[u8], w: Wanted) -> bool
    ensures { result ≡ has_term w s.now }
{
    formula_terms::cut(s).any(|word| is_wanted(read_term(word), w))
}

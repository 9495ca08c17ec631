// A quoted value, and the text of a value (document 01, "A line, a number").
#![tactic(auto)]

ghost use Rattle.std.specs.Prelude.{◌≡◌};
ghost use Rattle.line_quotes.specs.Quoted.{is_quoted_by, is_quoted, text_of};

fn is_quoted_by(s: &[u8], q: u8) -> bool
    ensures { result ≡ is_quoted_by q s.now }
{
    if s.len() < 2 {
        return false;
    }
    let last = s.len() - 1;
    if s[0] != q {
        return false;
    }
    if s[last] != q {
        return false;
    }
    text::lacks(&s[1..last], q)
}

// Whether s is a quoted value.
#[tactic(auto, unfolding(crate::specs::Quoted::is_quoted))]
pub fn is_quoted(s: &[u8]) -> bool
    ensures { result ≡ is_quoted s.now }
{
    is_quoted_by(s, b'\'') || is_quoted_by(s, b'"')
}

// The text of a value without its quotes.
pub fn text_of(s: &[u8]) -> &[u8]
    ensures { result.now ≡ text_of s.now }
{
    if is_quoted(s) {
        let last = s.len() - 1;
        return &s[1..last];
    }
    s
}

// A value is bare or quoted (document 01, "A line, a number").
#![tactic(auto)]

ghost use Rattle.std.specs.Prelude.{◌≡◌};
ghost use Rattle.line_values.specs.Value.{may_begin, is_reserved, is_bare, is_value, is_unassigned};

// The bytes that no bare value begins with.
const NOT_FIRST: [u8; 7] = *b"'\"_#$[]";

#[tactic(auto, unfolding(crate::specs::Value::may_begin))]
fn may_begin(b: u8) -> bool
    ensures { result ≡ may_begin b }
{
    text::lacks(&NOT_FIRST, b)
}

// Whether s is a word that CIF 1.1 keeps, in capitals or small letters.
#[tactic(auto, unfolding(crate::specs::Value::is_reserved))]
fn is_reserved(s: &[u8]) -> bool
    ensures { result ≡ is_reserved s.now }
{
    text_equality::begins_folded(s, b"data_")
        || text_equality::begins_folded(s, b"save_")
        || text_equality::same_folded(s, b"loop_")
        || text_equality::same_folded(s, b"stop_")
        || text_equality::same_folded(s, b"global_")
}

// Whether s is a bare value.
#[tactic(auto, unfolding(crate::specs::Value::is_bare))]
fn is_bare(s: &[u8]) -> bool
    ensures { result ≡ is_bare s.now }
{
    1 <= s.len() && may_begin(s[0]) && text::lacks(s, b' ') && !is_reserved(s)
}

// Whether s is a value.
#[tactic(auto, unfolding(crate::specs::Value::is_value))]
pub fn is_value(s: &[u8]) -> bool
    ensures { result ≡ is_value s.now }
{
    is_bare(s) || line_quotes::is_quoted(s)
}

// Whether s is a mark of an unassigned value, a bare ? or a bare point.
#[tactic(auto, unfolding(crate::specs::Value::is_unassigned))]
pub fn is_unassigned(s: &[u8]) -> bool
    ensures { result ≡ is_unassigned s.now }
{
    s.len() == 1 && (s[0] == b'?' || s[0] == b'.')
}

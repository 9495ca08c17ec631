// A line: a name, spaces, a value.
ghost use Rattle.std.specs.Prelude.{◌≡◌};
ghost use Rattle.line_reader.specs.Line.{split_of, split_class, class_of, class_number};

use line_items::{FIRST_TYPED, LAST_TYPED, LINE_MOST};

// The parts of a line: where its name ends and its value begins.
#[derive(Clone, Copy)]
pub struct Parts {
    pub name_end: usize,
    pub value_start: usize,
}

// A line that is an entry: its item, and where its value begins.
#[derive(Clone, Copy)]
pub struct LineEntry {
    pub item: usize,
    pub start: usize,
}

// Why a line is no entry.
#[derive(Clone, Copy)]
pub enum NoEntry {
    BadForm,
    UnknownName,
    WrongKind,
}

// The parts of a line, or that the text is none.
#[tactic(auto, unfolding(crate::specs::Line::split_of))]
pub fn split_line(s: &[u8]) -> Option<Parts>
    ensures { result ≡ split_of s.now }
{
    if !text::has(s, 0, b'_') {
        return None;
    }
    let name_end = text::run::run_other(s, b' ');
    let spaces = text::run::run_between(&s[name_end..], b' ', b' ');
    let value_start = name_end + spaces;
    if 1 <= spaces && line_values::is_value(&s[value_start..]) {
        Some(Parts {
            name_end,
            value_start,
        })
    } else {
        None
    }
}

// What a line of the right bytes is.
#[tactic(auto, using(crate::proofs::Splits::name_taken, crate::proofs::Splits::value_within))]
fn classify_typed(s: &[u8]) -> Result<LineEntry, NoEntry>
    ensures { result ≡ split_class s.now (split_of s.now) }
{
    let parts = split_line(s).ok_or(NoEntry::BadForm)?;
    let item = line_lookup::item_named(&s[..parts.name_end]).ok_or(NoEntry::UnknownName)?;
    let start = parts.value_start;
    if line_kinds::passes_kind(item, &s[start..]) {
        Ok(LineEntry { item, start })
    } else {
        Err(NoEntry::WrongKind)
    }
}

// What a line of any length and bytes is: an entry, or why it is none.
#[tactic(auto, unfolding(crate::specs::Line::class_of))]
pub fn classify(s: &[u8]) -> Result<LineEntry, NoEntry>
    ensures { result ≡ class_of s.now }
{
    if LINE_MOST < s.len() || !text::all_between(s, FIRST_TYPED, LAST_TYPED) {
        return Err(NoEntry::BadForm);
    }
    classify_typed(s)
}

// Document 01's number for what a line is.
pub fn class_number(c: Result<LineEntry, NoEntry>) -> u8
    ensures { result ≡ class_number c }
{
    match c {
        Ok(_) => 0,
        Err(NoEntry::BadForm) => 5,
        Err(NoEntry::UnknownName) => 6,
        Err(NoEntry::WrongKind) => 7,
    }
}

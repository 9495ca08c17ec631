// The readers one by one, for the comparison program alone: harness/probe.h declares them.
#![tactic(auto)]

ghost use Rattle.std.specs.Prelude.{◌≡◌};
ghost use Rattle.number_decimal.specs.Reading.{reading_of};
ghost use Rattle.line_items.specs.Items.{item_of};
ghost use Rattle.line_reader.specs.Line.{split_of};
ghost use Rattle.test_probe.specs.Probe.{number_told, form_told, line_told, name_told};

// A number and what was found of it: no Option, since C reads it.
#[repr(C)]
#[derive(Clone, Copy)]
pub struct ProbeNumber {
    pub millionths: i64,
    pub found: u64,
}

// The parts of a line, and whether they were found: no Option, since C reads it.
#[repr(C)]
#[derive(Clone, Copy)]
pub struct ProbeLine {
    pub found: u64,
    pub name_end: u64,
    pub value_start: u64,
}

// The number that a text is.
#[unsafe(no_mangle)]
pub extern "C" fn probe_number(t: &[u8]) -> ProbeNumber
    ensures { result ≡ number_told (reading_of t.now) }
{
    let Some(millionths) = number_decimal::read_number(t) else {
        return ProbeNumber {
            millionths: 0,
            found: 0,
        };
    };
    ProbeNumber {
        millionths,
        found: 1,
    }
}

// The form of a value.
#[tactic(auto, unfolding(crate::specs::Probe::form_told))]
#[unsafe(no_mangle)]
pub extern "C" fn probe_value(t: &[u8]) -> u64
    ensures { result ≡ form_told t.now }
{
    if line_values::is_unassigned(t) {
        return 1;
    }
    if line_quotes::is_quoted(t) {
        return 3;
    }
    if line_values::is_value(t) {
        return 2;
    }
    0
}

// The parts of a line.
#[unsafe(no_mangle)]
pub extern "C" fn probe_line(t: &[u8]) -> ProbeLine
    ensures { result ≡ line_told (split_of t.now) }
{
    match line_reader::line::split_line(t) {
        Some(parts) => ProbeLine {
            found: 1,
            name_end: parts.name_end as u64,
            value_start: parts.value_start as u64,
        },
        None => ProbeLine {
            found: 0,
            name_end: 0,
            value_start: 0,
        },
    }
}

// The item of a name.
#[unsafe(no_mangle)]
pub extern "C" fn probe_item(name: &[u8]) -> u64
    ensures { result ≡ name_told (item_of name.now) }
{
    line_lookup::item_named(name).map_or(0, |item| item as u64)
}

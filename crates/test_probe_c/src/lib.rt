// The static library of the readers one by one, for the comparison program alone: harness/probe.h declares them. Each calls the function of test_probe that has its name, and states its clauses again.
#![tactic(auto)]

ghost use Rattle.std.specs.Prelude.{◌≡◌};
ghost use Rattle.number_decimal.specs.Reading.{reading_of};
ghost use Rattle.line_items.specs.Items.{item_of};
ghost use Rattle.line_reader.specs.Line.{split_of};
ghost use Rattle.test_probe.specs.Probe.{number_told, form_told, line_told, name_told};

use test_probe::{ProbeLine, ProbeNumber};

// The number that a text is.
#[unsafe(no_mangle)]
pub extern "C" fn probe_number(t: &[u8]) -> ProbeNumber
    ensures { result ≡ number_told (reading_of t.now) }
{
    test_probe::probe_number(t)
}

// The form of a value.
#[unsafe(no_mangle)]
pub extern "C" fn probe_value(t: &[u8]) -> u64
    ensures { result ≡ form_told t.now }
{
    test_probe::probe_value(t)
}

// The parts of a line.
#[unsafe(no_mangle)]
pub extern "C" fn probe_line(t: &[u8]) -> ProbeLine
    ensures { result ≡ line_told (split_of t.now) }
{
    test_probe::probe_line(t)
}

// The item of a name.
#[unsafe(no_mangle)]
pub extern "C" fn probe_item(name: &[u8]) -> u64
    ensures { result ≡ name_told (item_of name.now) }
{
    test_probe::probe_item(name)
}

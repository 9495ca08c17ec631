// The shape of a record of a log, as bytes that are lent (document 02, No. 10). Nothing here looks at a desk.
#![tactic(auto, unfolding(crate::specs::Shape::shaped))]

ghost use Rattle.std.specs.Prelude.{◌≡◌};
ghost use Rattle.reader_records.specs.Shape.{shaped};

use desk_soundness::LOG_MOST;
use desk_state::desk::BENCH_COUNT;

// Whether a whole record that starts at a byte of the log has a record's shape, its length apart.
pub fn has_shape(start: usize, r: &[u8]) -> bool
    ensures { result ≡ shaped start r.now }
{
    let [_, _, kind, zero, bench, item, value @ ..] = r else {
        return false;
    };
    *kind == 1
        && *zero == 0
        && usize::from(*bench) < BENCH_COUNT
        && line_kinds::fits_item(usize::from(*item), value)
        && start <= LOG_MOST
        && r.len() <= LOG_MOST - start
}

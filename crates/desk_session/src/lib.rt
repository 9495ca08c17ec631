// A session of the program `desk`: the pairs that it reads, a bench digit and a key byte, each one key call (document 01, "Measured examples").
#![tactic(auto)]

ghost use Rattle.std.specs.Prelude.{◌≡◌};
ghost use Rattle.desk_session.specs.Play.{bench_of};
ghost use Rattle.desk_session.specs.Lent.{PlayLent};

use desk_state::desk::{BENCH_COUNT, NO_BENCH};

// The bench of any other byte, a number and no Option: the key call takes any number for a bench, and `bench_of` in the clauses of a session says this one.
const NONE: u64 = NO_BENCH as u64;

// The digits of the benches.
const FIRST_DIGIT: u8 = b'0';

const LAST_DIGIT: u8 = FIRST_DIGIT + BENCH_COUNT as u8 - 1;

// The bench of a pair's first byte.
fn bench_of(first: u8) -> u64
    ensures { result ≡ bench_of first }
{
    if first < FIRST_DIGIT {
        return NONE;
    }
    if LAST_DIGIT < first {
        return NONE;
    }
    (first - FIRST_DIGIT) as u64
}

// Plays every whole pair of the input on a desk in lent memory. Refusals are passed over, and so is a last odd byte.
pub fn play_pairs(texts: &mut [u8], numbers: &mut [usize], log: &mut [u8], input: &[u8])
    ensures { PlayLent texts.old numbers.old log.old input.now texts.new numbers.new log.new }
{
    for i in 0..input.len() / 2 {
        let bench = bench_of(input[2 * i]);
        let byte = input[2 * i + 1];
        let _ = desk_keys::key(texts, numbers, log, bench, byte);
    }
}

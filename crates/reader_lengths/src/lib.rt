// The length that a record of a log tells, and whether the record's bytes so far decide it (document 02, No. 10).
#![tactic(auto, unfolding(reader_cuts::specs::Reading::undecided, desk_log::specs::Record::length_told))]

ghost use Rattle.std.specs.Prelude.{◌≡◌, ◌<◌};
ghost use Rattle.desk_log.specs.Record.{length_told};
ghost use Rattle.reader_cuts.specs.Reading.{bad_length, undecided};

use desk_log::HEAD;

// The shortest record that is read, and the longest.
const LENGTH_LEAST: usize = HEAD + 1;

pub const LENGTH_MOST: usize = 206;

// What the first bytes of a record tell of its length.
pub fn length_told(bs: &[u8]) -> usize
    ensures { (result ≡ length_told bs.now) × (result < 65536) }
{
    match bs {
        [] => 0,
        [low] => usize::from(*low),
        [low, high, ..] => usize::from(u16::from_le_bytes([*low, *high])),
    }
}

// Whether a record has not that length.
pub fn is_bad_length(n: usize) -> bool
    ensures { result ≡ bad_length n }
{
    n < LENGTH_LEAST || LENGTH_MOST < n
}

// Whether the bytes of a record so far leave it undecided.
pub fn is_undecided(bs: &[u8]) -> bool
    ensures { result ≡ undecided bs.now }
{
    let n = length_told(bs);
    bs.len() < HEAD || !is_bad_length(n) && bs.len() < n
}

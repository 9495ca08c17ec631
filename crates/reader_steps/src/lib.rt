// The records of some bytes taken one after the other on a desk in memory that the caller lends (document 02, No. 10). A record is judged where it lies; none is
// copied.
#![tactic(auto)]

ghost use Rattle.std.specs.Prelude.{◌<◌, IfSome, IfOk};
ghost use Rattle.reader_answers.specs.Number.{feed_number};
ghost use Rattle.reader_steps.specs.Steps.{bytes_taken, FirstLent, place_stopped, PartLent};

use desk_log::HEAD;
use reader_answers::FeedRefusal;

// Takes the first record of some bytes, which starts at the used number, if they decide it and it is not refused. It tells how many bytes the record has, and none
// where the bytes do not decide it.
pub fn take_first(
    texts: &mut [u8],
    numbers: &mut [usize],
    bs: &[u8],
) -> Result<Option<usize>, FeedRefusal>
    ensures first { FirstLent texts.old numbers.old bs.now (bytes_taken result) (feed_number result) texts.new numbers.new }
    ensures taken { IfOk result (λ o. IfSome o (λ n. 0 < n)) }
{
    if bs.len() < HEAD {
        return Ok(None);
    }
    let n = reader_lengths::length_told(bs);
    if reader_lengths::is_bad_length(n) {
        return Err(FeedRefusal::BadShape);
    }
    if bs.len() < n {
        return Ok(None);
    }
    reader_entries::take_record(texts, numbers, &bs[..n])?;
    Ok(Some(n))
}

// Takes all records that a part decides, up to the first that is refused. It tells the place of the part behind them.
pub fn take_all(texts: &mut [u8], numbers: &mut [usize], part: &[u8]) -> Result<usize, FeedRefusal>
    ensures { PartLent texts.old numbers.old part.now (place_stopped result) (feed_number result) texts.new numbers.new }
{
    let mut from = 0;
    while let Some(n) = take_first(texts, numbers, &part[from..])? {
        from += n;
    }
    Ok(from)
}

// The log's reader for C programs.
ghost use Rattle.std.specs.Prelude.{not, eqb};
ghost use Rattle.reader_feed.specs.Feed.{FeedLent};

// The byte where the refused record starts, else 0, and the number of the answer.
// The answer is a number and no enum, since C reads it.
#[repr(C)]
#[derive(Clone, Copy)]
pub struct DeskFed {
    pub place: usize,
    pub answer: u8,
}

// One part of a log; any last but 0 marks the last part.
#[unsafe(no_mangle)]
pub extern "C" fn desk_feed(
    texts: &mut [u8],
    numbers: &mut [usize],
    kept: &mut [u8],
    state: &mut [usize],
    part: &[u8],
    last: u8,
) -> DeskFed
    ensures { FeedLent texts.old numbers.old kept.old state.old part.now (not (eqb last 0)) result.answer result.place texts.new numbers.new kept.new state.new }
{
    match reader_feed::feed(texts, numbers, kept, state, part, last != 0) {
        Ok(()) => DeskFed {
            place: 0,
            answer: reader_answers::feed_number(Ok(())),
        },
        Err(refused) => DeskFed {
            place: refused.place,
            answer: reader_answers::feed_number(Err(refused.refusal)),
        },
    }
}

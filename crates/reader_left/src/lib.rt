// What a part of a log leaves in the reader's own memory, and what it answers (document 02, No. 10).
#![tactic(auto)]

ghost use Rattle.std.specs.Prelude.{◌≡◌};
ghost use Rattle.desk_state.specs.declared.desk.Desk.{Desk};
ghost use Rattle.reader_answers.specs.Number.{feed_number};
ghost use Rattle.reader_cuts.specs.Reading.{ended, short, place_for};
ghost use Rattle.reader_memory.specs.Memory.{over_with};
ghost use Rattle.reader_memory.specs.Readers.{StillLent};
ghost use Rattle.reader_memory.specs.Standings.{standing_number};
ghost use Rattle.reader_left.specs.Left.{left, left_in};
ghost use Rattle.reader_left.specs.Refused.{fed_number, fed_place};

use reader_answers::FeedRefusal;
use reader_memory::{Reader, Standing};

// Why a part is refused, and the byte where the refused record starts, else 0.
#[derive(Clone, Copy, Debug, PartialEq, Eq)]
pub struct Refused {
    pub refusal: FeedRefusal,
    pub place: usize,
}

// What a part gets, with its place.
pub fn placed(answer: Result<(), FeedRefusal>, at: usize) -> Result<(), Refused>
    ensures number { fed_number result ≡ feed_number answer }
    ensures place { fed_place result ≡ place_for (feed_number answer) at }
{
    answer.map_err(|refusal| Refused { refusal, place: at })
}

// How a reading stands that is over with an answer.
fn over_with(answer: Result<(), FeedRefusal>) -> Standing
    ensures { standing_number result ≡ over_with (feed_number answer) }
{
    match answer {
        Ok(()) => Standing::Ended,
        Err(refusal) => Standing::Refused(refusal),
    }
}

// The reading is over: nothing is kept.
pub fn stop(reader: &mut Reader, answer: Result<(), FeedRefusal>, at: usize) -> Result<(), Refused>
    ensures left { (d : Desk) → left (fed_number result) (fed_place result) d at reader.new.kept.now reader.new.state.now ≡ left_in reader.old.kept.now reader.old.state.now (ended (feed_number answer) d at) }
    ensures lent { StillLent reader.old reader.new }
{
    reader.keep_first(0);
    reader.put_state(0, usize::from(over_with(answer)));
    placed(answer, at)
}

// Bytes that do not decide a record are kept; after the last part the reading is over.
pub fn rest(reader: &mut Reader, bs: &[u8], last: bool, at: usize) -> Result<(), Refused>
    ensures left { (d : Desk) → left (fed_number result) (fed_place result) d at reader.new.kept.now reader.new.state.now ≡ left_in reader.old.kept.now reader.old.state.now (short last d at bs.now) }
    ensures lent { StillLent reader.old reader.new }
{
    if last {
        let answer = if bs.is_empty() {
            Ok(())
        } else {
            Err(FeedRefusal::EndInside)
        };
        return stop(reader, answer, at);
    }
    reader.hold(bs);
    reader.put_state(bs.len(), usize::from(Standing::GoesOn));
    Ok(())
}

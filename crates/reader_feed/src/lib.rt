// One part of a log fed to a desk in memory that the caller lends, with the reader's own memory beside it (document 02, No. 10).
#![tactic(auto)]

ghost use Rattle.std.specs.Prelude.{◌≡◌, true, ◌++◌, ◌≤◌, length, take};
ghost use Rattle.desk_memory.specs.Memory.{desk_of, used_of};
ghost use Rattle.reader_cuts.specs.Reading.{undecided};
ghost use Rattle.reader_memory.specs.Memory.{reader_kept, reader_state};
ghost use Rattle.reader_memory.specs.Readers.{StillLent};
ghost use Rattle.reader_entries.specs.Judged.{read_on};
ghost use Rattle.reader_steps.specs.Steps.{sound_here};
ghost use Rattle.reader_left.specs.Left.{left, left_as};
ghost use Rattle.reader_left.specs.Refused.{fed_number, fed_place};
ghost use Rattle.reader_feed.specs.Feed.{FeedLent, Readable};

use desk_memory::USED_AT;
use desk_soundness::LOG_MOST;
use reader_answers::FeedRefusal;
use reader_left::Refused;
use reader_memory::{LEN_AT, READER_KEPT, Reader, Standing};

// The records of a part, the first of which starts with the part.
fn read_part(
    texts: &mut [u8],
    numbers: &mut [usize],
    reader: &mut Reader,
    part: &[u8],
    last: bool,
) -> Result<(), Refused>
    requires { (sound_here texts.old numbers.old ≡ true) × (length reader.old.kept.now ≡ reader_kept) × (length reader.old.state.now ≡ reader_state) }
    ensures left { left (fed_number result) (fed_place result) (desk_of texts.new numbers.new) (used_of numbers.new) reader.new.kept.now reader.new.state.now ≡ left_as (read_on last (desk_of texts.old numbers.old) (used_of numbers.old) part.now) }
    ensures lent { StillLent reader.old reader.new }
{
    let taken = reader_steps::take_all(texts, numbers, part);
    let at = numbers[USED_AT];
    match taken {
        Ok(from) => reader_left::rest(reader, &part[from..], last, at),
        Err(refusal) => reader_left::stop(reader, Err(refusal), at),
    }
}

// The record of which the first len bytes are kept, and then the part's others. As many bytes of the part as there are, or as make a longest record, are put behind the
// kept ones.
fn read_kept(
    texts: &mut [u8],
    numbers: &mut [usize],
    reader: &mut Reader,
    len: usize,
    part: &[u8],
    last: bool,
) -> Result<(), Refused>
    requires { (sound_here texts.old numbers.old ≡ true) × (length reader.old.kept.now ≡ reader_kept) × (length reader.old.state.now ≡ reader_state) × (1 ≤ len) × (len ≤ reader_kept) × (undecided (take len reader.old.kept.now) ≡ true) }
    ensures left { left (fed_number result) (fed_place result) (desk_of texts.new numbers.new) (used_of numbers.new) reader.new.kept.now reader.new.state.now ≡ left_as (read_on last (desk_of texts.old numbers.old) (used_of numbers.old) (take len reader.old.kept.now ++ part.now)) }
    ensures lent { StillLent reader.old reader.new }
{
    let m = part.len().min(READER_KEPT - len);
    reader.put(len, &part[..m]);
    let size = len + m;
    let taken = reader_steps::take_first(texts, numbers, reader.first(size));
    let at = numbers[USED_AT];
    match taken {
        Ok(Some(n)) => {
            let from = n - len;
            read_part(texts, numbers, reader, &part[from..], last)
        }
        Ok(None) if last => reader_left::stop(reader, Err(FeedRefusal::EndInside), at),
        Ok(None) => {
            reader.keep_first(size);
            reader.put_state(size, usize::from(Standing::GoesOn));
            Ok(())
        }
        Err(refusal) => reader_left::stop(reader, Err(refusal), at),
    }
}

// How many bytes are kept and how the reading stands, where the desk and the reader's memory are sound and the kept bytes decide no record.
fn readable(texts: &[u8], numbers: &[usize], reader: &Reader) -> Option<(usize, Standing)>
    ensures { Readable texts.now numbers.now reader.now.kept.now reader.now.state.now result }
{
    if !desk_soundness::is_sound_for_keys(texts, numbers, LOG_MOST) {
        return None;
    }
    let stands = reader.stands()?;
    let len = reader.state[LEN_AT];
    if reader_lengths::is_undecided(reader.kept.get(..len)?) {
        Some((len, stands))
    } else {
        None
    }
}

// One part of a log, with the reader's memory as one value.
fn read(
    texts: &mut [u8],
    numbers: &mut [usize],
    reader: &mut Reader,
    part: &[u8],
    last: bool,
) -> Result<(), Refused>
    ensures fed { FeedLent texts.old numbers.old reader.old.kept.now reader.old.state.now part.now last (fed_number result) (fed_place result) texts.new numbers.new reader.new.kept.now reader.new.state.now }
    ensures lent { StillLent reader.old reader.new }
{
    let unsound = Refused {
        refusal: FeedRefusal::Unsound,
        place: 0,
    };
    let (len, stands) = readable(texts, numbers, reader).ok_or(unsound)?;
    match stands {
        Standing::GoesOn if len == 0 => read_part(texts, numbers, reader, part, last),
        Standing::GoesOn => read_kept(texts, numbers, reader, len, part, last),
        Standing::Ended => Ok(()),
        Standing::Refused(refusal) => Err(Refused {
            refusal,
            place: numbers[USED_AT],
        }),
    }
}

// One part of a log; last marks the last one. The desk with its used number, which is where the record starts that is being read, and the reader's memory are lent,
// and changed in place.
pub fn feed(
    texts: &mut [u8],
    numbers: &mut [usize],
    kept: &mut [u8],
    state: &mut [usize],
    part: &[u8],
    last: bool,
) -> Result<(), Refused>
    ensures { FeedLent texts.old numbers.old kept.old state.old part.now last (fed_number result) (fed_place result) texts.new numbers.new kept.new state.new }
{
    let mut reader = Reader { kept, state };
    read(texts, numbers, &mut reader, part, last)
}

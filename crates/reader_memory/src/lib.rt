// The log's reader between two parts, in memory that the caller lends: the bytes kept of a record that they do not decide, and two numbers, how many bytes are kept and
// how the reading stands.
#![tactic(auto, unfolding(crate::specs::Memory::is_reader, crate::specs::Memory::is_standing, crate::specs::Memory::answer_at, crate::specs::Memory::standing, crate::specs::Memory::only_first, text::specs::Run::between))]

ghost use Rattle.std.specs.Prelude.{◌≡◌, ◌≤◌, length, take, is_some, IfSome};
ghost use Rattle.text_copies.specs.Copy.{copied};
ghost use Rattle.reader_memory.specs.Memory.{stands_at, is_reader, only_first, holding, standing};
ghost use Rattle.reader_memory.specs.Readers.{StillLent};
ghost use Rattle.reader_memory.specs.Standings.{standing_number, StandsSo, StandsAt};

use reader_answers::FeedRefusal;
use reader_lengths::LENGTH_MOST;

pub const READER_KEPT: usize = LENGTH_MOST;

pub const READER_STATE: usize = 2;

// The two numbers: how many bytes are kept, and how the reading stands.
pub const LEN_AT: usize = 0;

pub const STANDS_AT: usize = 1;

// How a reading stands: it goes on, it ended with 0, or it was refused.
#[derive(Clone, Copy, Debug, PartialEq, Eq)]
pub enum Standing {
    GoesOn,
    Ended,
    Refused(FeedRefusal),
}

// A number at which no reading stands.
#[derive(Clone, Copy, Debug, PartialEq, Eq)]
pub struct NoStanding(pub usize);

impl TryFrom<usize> for Standing {
    type Error = NoStanding;

    ghost try_from_gives = { StandsAt };

    fn try_from(e: usize) -> Result<Self, NoStanding> {
        match e {
            0 => Ok(Standing::GoesOn),
            1 => Ok(Standing::Ended),
            18 => Ok(Standing::Refused(FeedRefusal::BadShape)),
            19 => Ok(Standing::Refused(FeedRefusal::ForeignOverwrite)),
            20 => Ok(Standing::Refused(FeedRefusal::EndInside)),
            _ => Err(NoStanding(e)),
        }
    }
}

impl From<Standing> for usize {
    ghost from_gives = { λ s e. e ≡ standing_number s };

    fn from(s: Standing) -> usize {
        match s {
            Standing::GoesOn => 0,
            Standing::Ended => 1,
            Standing::Refused(refusal) => usize::from(reader_answers::feed_number(Err(refusal))),
        }
    }
}

// Whether memory is a reader's.
pub fn is_reader(kept: &[u8], state: &[usize]) -> bool
    ensures { result ≡ is_reader kept.now state.now }
{
    if kept.len() != READER_KEPT || state.len() != READER_STATE {
        return false;
    }
    Standing::try_from(state[STANDS_AT]).is_ok()
}

// Makes all kept bytes but the first len zero.
pub fn keep_first(kept: &mut [u8], len: usize)
    ensures { kept.new ≡ only_first kept.old len }
{
    if kept.len() < len {
        return;
    }
    let rest = kept.len() - len;
    desk_memory::clear(kept, len, rest);
}

// Keeps the bytes bs, and zeros behind them.
pub fn hold(kept: &mut [u8], bs: &[u8])
    ensures { kept.new ≡ holding kept.old bs.now }
{
    text_copies::copy_in(kept, 0, bs);
    keep_first(kept, bs.len());
}

// Writes the two numbers.
pub fn put_state(state: &mut [usize], len: usize, e: usize)
    ensures { state.new ≡ standing state.old len e }
{
    if state.len() != READER_STATE {
        return;
    }
    state[LEN_AT] = len;
    state[STANDS_AT] = e;
}

// One reader's memory, as the caller lends it: the kept bytes and the two numbers.
#[derive(Drop)]
pub struct Reader<'a> {
    pub kept: &'a mut [u8],
    pub state: &'a mut [usize],
}

impl Reader<'_> {
    // How the reading stands, where the memory is a reader's.
    pub fn stands(&self) -> Option<Standing>
        ensures reader { is_some result ≡ is_reader self.now.kept.now self.now.state.now }
        ensures number { IfSome result (StandsSo (stands_at self.now.state.now)) }
    {
        if !is_reader(self.kept, self.state) {
            return None;
        }
        Standing::try_from(self.state[STANDS_AT]).ok()
    }

    // The first len kept bytes, or all where there are no more.
    pub fn first(&self, len: usize) -> &[u8]
        ensures { result.now ≡ take len self.now.kept.now }
    {
        self.kept.get(..len).unwrap_or(self.kept)
    }

    // Makes all kept bytes but the first len zero.
    pub fn keep_first(&mut self, len: usize)
        ensures kept { self.new.kept.now ≡ only_first self.old.kept.now len }
        ensures state { self.new.state.now ≡ self.old.state.now }
        ensures lent { StillLent self.old self.new }
    {
        keep_first(self.kept, len);
    }

    // Puts the bytes bs behind the first len that are kept; changes nothing where they do not fit.
    pub fn put(&mut self, len: usize, bs: &[u8])
        ensures kept { self.new.kept.now ≡ copied self.old.kept.now len bs.now }
        ensures state { self.new.state.now ≡ self.old.state.now }
        ensures lent { StillLent self.old self.new }
    {
        text_copies::copy_in(self.kept, len, bs);
    }

    // Keeps the bytes bs, and zeros behind them.
    pub fn hold(&mut self, bs: &[u8])
        ensures kept { self.new.kept.now ≡ holding self.old.kept.now bs.now }
        ensures state { self.new.state.now ≡ self.old.state.now }
        ensures lent { StillLent self.old self.new }
    {
        hold(self.kept, bs);
    }

    // Writes the two numbers. How the reading stands is a number here, as it lies in the memory that a C program lends.
    pub fn put_state(&mut self, len: usize, e: usize)
        ensures kept { self.new.kept.now ≡ self.old.kept.now }
        ensures state { self.new.state.now ≡ standing self.old.state.now len e }
        ensures lent { StillLent self.old self.new }
    {
        put_state(self.state, len, e);
    }
}

// Why a part of a log that is fed is refused, and the number of what it gets (document 02, No. 10).
#![tactic(auto)]

ghost use Rattle.std.specs.Prelude.{◌≡◌};
ghost use Rattle.reader_answers.specs.Number.{feed_number};

// Why a part is refused.
#[derive(Clone, Copy, Debug, PartialEq, Eq)]
pub enum FeedRefusal {
    Unsound,
    BadShape,
    ForeignOverwrite,
    EndInside,
}

// The number of what a part gets: 0 where it is not refused.
pub fn feed_number(answer: Result<(), FeedRefusal>) -> u8
    ensures { result ≡ feed_number answer }
{
    match answer {
        Ok(()) => 0,
        Err(FeedRefusal::Unsound) => 2,
        Err(FeedRefusal::BadShape) => 18,
        Err(FeedRefusal::ForeignOverwrite) => 19,
        Err(FeedRefusal::EndInside) => 20,
    }
}

// A whole record of a log, judged against a desk in memory that the caller lends, and stored in it where it is taken (document 02, No. 10).
#![tactic(auto)]

ghost use Rattle.std.specs.Prelude.{◌≡◌};
ghost use Rattle.reader_answers.specs.Number.{feed_number};
ghost use Rattle.reader_entries.specs.Lent.{RecordLent};

use desk_log::HEAD;
use desk_memory::USED_AT;
use reader_answers::FeedRefusal;

// Takes the record that starts at the used number, if it has a record's shape and its item is open to its bench: it is stored as Enter stores an entry, and the
// used number is then its end. A refused record changes nothing; memory that is no desk takes none.
pub fn take_record(texts: &mut [u8], numbers: &mut [usize], r: &[u8]) -> Result<(), FeedRefusal>
    ensures { RecordLent texts.old numbers.old r.now (feed_number result) texts.new numbers.new }
{
    if !desk_memory::is_desk(texts, numbers) {
        return Err(FeedRefusal::Unsound);
    }
    let start = numbers[USED_AT];
    if !reader_records::has_shape(start, r) {
        return Err(FeedRefusal::BadShape);
    }
    let bench = usize::from(r[4]);
    let item = usize::from(r[5]);
    if !desk_entries::is_open(numbers, bench, item - 1) {
        return Err(FeedRefusal::ForeignOverwrite);
    }
    desk_entries::put_entry(texts, numbers, bench, item, &r[HEAD..], start + r.len());
    Ok(())
}

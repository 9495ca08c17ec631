// The key call of the desk: one key of a bench, on a desk in memory that the caller lends.
#![tactic(auto)]

ghost use Rattle.std.specs.Prelude.{◌≡◌, ℕ, ◌<◌, ◌≤◌, true, List, get_or, drop};
ghost use Rattle.line_items.specs.Items.{item_count};
ghost use Rattle.desk_answers.specs.Number.{answer_number};
ghost use Rattle.desk_state.specs.Lines.{typed, empty_line, erased};
ghost use Rattle.desk_state.specs.Desks.{bench_count, line_at, with_line};
ghost use Rattle.desk_memory.specs.Memory.{Sized, desk_of, used_of};
ghost use Rattle.desk_entries.specs.Lent.{takes};
ghost use Rattle.desk_keys.specs.Key.{edited, entered, stored, stored_if_open, enter, append_key, key_step};
ghost use Rattle.desk_keys.specs.Lent.{leaves, KeyLent, Lent};

use desk_answers::KeyRefusal;
use desk_log::HEAD;
use desk_memory::USED_AT;
use desk_state::desk::BENCH_COUNT;
use line_items::LINE_MOST;
use line_reader::line::NoEntry;

// A byte to append.
fn append_byte(
    texts: &mut [u8],
    numbers: &mut [usize],
    bench: usize,
    byte: u8,
) -> Result<(), KeyRefusal>
    requires { (bench < bench_count) × Sized texts.old numbers.old }
    ensures { (log : List ℕ) → leaves (answer_number result) texts.new numbers.new log ≡ append_key (desk_of texts.old numbers.old) (used_of numbers.old) log bench byte }
{
    let n = numbers[bench];
    if LINE_MOST <= n {
        return Err(KeyRefusal::LineFull);
    }
    texts[bench * LINE_MOST + n] = byte;
    numbers[bench] = n + 1;
    Ok(())
}

// The last byte of a line is erased, if it has one.
fn erase_byte(texts: &mut [u8], numbers: &mut [usize], bench: usize)
    requires { (bench < bench_count) × Sized texts.old numbers.old }
    ensures { (log : List ℕ) → leaves 0 texts.new numbers.new log ≡ edited (desk_of texts.old numbers.old) (used_of numbers.old) log bench (erased (line_at (desk_of texts.old numbers.old) bench)) }
{
    let n = numbers[bench];
    if n < 1 {
        return;
    }
    if LINE_MOST < n {
        return;
    }
    texts[bench * LINE_MOST + (n - 1)] = 0;
    numbers[bench] = n - 1;
}

// A line is emptied.
fn clear_line(texts: &mut [u8], numbers: &mut [usize], bench: usize)
    requires { (bench < bench_count) × Sized texts.old numbers.old }
    ensures { (desk_of texts.new numbers.new ≡ with_line (desk_of texts.old numbers.old) bench empty_line) × (used_of numbers.new ≡ used_of numbers.old) }
{
    desk_memory::clear(texts, bench * LINE_MOST, LINE_MOST);
    numbers[bench] = 0;
}

// The desk and the used number after an accepted Enter.
fn enter_desk(
    texts: &mut [u8],
    numbers: &mut [usize],
    bench: usize,
    item: usize,
    value: &[u8],
    used: usize,
)
    requires { (bench < bench_count) × Sized texts.old numbers.old × (takes texts.old numbers.old bench item value.now ≡ true) }
    ensures { (desk_of texts.new numbers.new ≡ entered (desk_of texts.old numbers.old) bench item value.now) × (used_of numbers.new ≡ used) }
{
    desk_entries::put_entry(texts, numbers, bench, item, value, used);
    clear_line(texts, numbers, bench);
}

// The record of the value, which begins at a place of its line, is written, and the value stored as it stands there, if the log has room.
fn store(
    texts: &mut [u8],
    numbers: &mut [usize],
    log: &mut [u8],
    bench: usize,
    item: usize,
    start: usize,
) -> Result<(), KeyRefusal>
    requires { (1 ≤ item) × (item ≤ item_count) × (start ≤ get_or numbers.old bench 0) × Lent texts.old numbers.old log.old bench }
    ensures { leaves (answer_number result) texts.new numbers.new log.new ≡ stored (desk_of texts.old numbers.old) (used_of numbers.old) log.old bench item (drop start (typed (line_at (desk_of texts.old numbers.old) bench))) }
{
    let used = numbers[USED_AT];
    let len = numbers[bench];
    let from = bench * LINE_MOST + start;
    let end = bench * LINE_MOST + len;
    let n = desk_log::write_record(
        &mut log[used..],
        bench as u8,
        item as u8,
        &texts[from..end],
    ).ok_or(KeyRefusal::NoRoom)?;
    let next = used + n;
    enter_desk(texts, numbers, bench, item, &log[used + HEAD..next], next);
    Ok(())
}

// The value is stored, as `store` says, if no other bench owns the item.
fn store_if_open(
    texts: &mut [u8],
    numbers: &mut [usize],
    log: &mut [u8],
    bench: usize,
    item: usize,
    start: usize,
) -> Result<(), KeyRefusal>
    requires { (1 ≤ item) × (item ≤ item_count) × (start ≤ get_or numbers.old bench 0) × Lent texts.old numbers.old log.old bench }
    ensures { leaves (answer_number result) texts.new numbers.new log.new ≡ stored_if_open (desk_of texts.old numbers.old) (used_of numbers.old) log.old bench item (drop start (typed (line_at (desk_of texts.old numbers.old) bench))) }
{
    if !desk_entries::is_open(numbers, bench, item - 1) {
        return Err(KeyRefusal::Owned);
    }
    store(texts, numbers, log, bench, item, start)
}

// Enter, with what is typed on the bench's line.
fn enter_line(
    texts: &mut [u8],
    numbers: &mut [usize],
    log: &mut [u8],
    bench: usize,
) -> Result<(), KeyRefusal>
    requires { Lent texts.old numbers.old log.old bench }
    ensures { leaves (answer_number result) texts.new numbers.new log.new ≡ enter (desk_of texts.old numbers.old) (used_of numbers.old) log.old bench }
{
    let at = bench * LINE_MOST;
    let end = at + numbers[bench];
    match line_reader::line::classify(&texts[at..end]) {
        Ok(entry) => store_if_open(texts, numbers, log, bench, entry.item, entry.start),
        Err(NoEntry::BadForm) => Err(KeyRefusal::BadForm),
        Err(NoEntry::UnknownName) => Err(KeyRefusal::UnknownName),
        Err(NoEntry::WrongKind) => Err(KeyRefusal::WrongKind),
    }
}

// The key byte decides the step.
fn step(
    texts: &mut [u8],
    numbers: &mut [usize],
    log: &mut [u8],
    bench: usize,
    byte: u8,
) -> Result<(), KeyRefusal>
    requires { Lent texts.old numbers.old log.old bench }
    ensures { leaves (answer_number result) texts.new numbers.new log.new ≡ key_step (desk_of texts.old numbers.old) (used_of numbers.old) log.old bench byte }
{
    match byte {
        32..=126 => append_byte(texts, numbers, bench, byte),
        8 => {
            erase_byte(texts, numbers, bench);
            Ok(())
        }
        24 => {
            clear_line(texts, numbers, bench);
            Ok(())
        }
        10 => enter_line(texts, numbers, log, bench),
        _ => Err(KeyRefusal::NoKey),
    }
}

// One key of a bench. The desk with its used number and the log are lent, and changed in place; a refused key changes nothing.
pub fn key(
    texts: &mut [u8],
    numbers: &mut [usize],
    log: &mut [u8],
    bench: u64,
    byte: u8,
) -> Result<(), KeyRefusal>
    ensures { KeyLent texts.old numbers.old log.old bench byte (answer_number result) texts.new numbers.new log.new }
{
    if BENCH_COUNT as u64 <= bench {
        return Err(KeyRefusal::NoBench);
    }
    if !desk_soundness::is_sound_for_keys(texts, numbers, log.len()) {
        return Err(KeyRefusal::Unsound);
    }
    step(texts, numbers, log, bench as usize, byte)
}

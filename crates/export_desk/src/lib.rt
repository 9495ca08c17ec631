// The desk for C programs: include/desk.h declares these functions.
// hydrogen: the hydrogen helper and the check of a count.
#![tactic(auto)]

ghost use Rattle.std.specs.Prelude.{◌≡◌};
ghost use Rattle.desk_keys.specs.Lent.{KeyLent};
ghost use Rattle.rows.specs.Rows.{no_rows};
ghost use Rattle.desk_questions.specs.Report.{reported_as, report_lent};
ghost use Rattle.desk_questions.specs.Who.{nobody, who_lent};
ghost use Rattle.file_cif.specs.Answers.{file_lent};
ghost use Rattle.export_desk.specs.Told.{freshened, fresh_lent, report_told, who_told, filing_told};

pub mod hydrogen;

use desk_answers::KeyRefusal;
use desk_state::desk::NO_BENCH;
use rows::Rows;

pub mod reader;

// The number of an answer that is no refusal.
const ANSWERED: u8 = 0;

// The number of the answer, and the rows.
// The answer is a number and no enum, since C reads it.
#[repr(C)]
#[derive(Clone, Copy)]
pub struct DeskReported {
    pub answer: u8,
    pub rows: Rows,
}

// The item's last entry, how many accepted entries named it, the number of the answer, and the item's bench.
// The answer is a number and no enum, since C reads it.
#[repr(C)]
#[derive(Clone, Copy)]
pub struct DeskTold {
    pub entry: usize,
    pub times: usize,
    pub answer: u8,
    pub bench: u8,
}

// How many bytes were written, and the number of the answer.
// The answer is a number and no enum, since C reads it.
#[repr(C)]
#[derive(Clone, Copy)]
pub struct DeskFiled {
    pub count: usize,
    pub answer: u8,
}

// Makes the memory a fresh desk: 0, or 2 where it has not a desk's lengths.
#[unsafe(no_mangle)]
pub extern "C" fn desk_fresh(texts: &mut [u8], numbers: &mut [usize]) -> u8
    ensures { freshened result texts.new numbers.new ≡ fresh_lent texts.old numbers.old }
{
    if !desk_memory::is_desk(texts, numbers) {
        return KeyRefusal::Unsound.into();
    }
    desk_memory::fresh(texts, numbers);
    ANSWERED
}

// One key of a bench; the number of the answer.
#[unsafe(no_mangle)]
pub extern "C" fn desk_key(
    texts: &mut [u8],
    numbers: &mut [usize],
    log: &mut [u8],
    bench: u64,
    byte: u8,
) -> u8
    ensures { KeyLent texts.old numbers.old log.old bench byte result texts.new numbers.new log.new }
{
    match desk_keys::key(texts, numbers, log, bench, byte) {
        Ok(()) => ANSWERED,
        Err(refusal) => refusal.into(),
    }
}

// A refused report, by the refusal's number.
fn no_report(answer: u8) -> DeskReported
    ensures { report_told result ≡ reported_as answer no_rows }
{
    DeskReported {
        answer,
        rows: rows::no_rows(),
    }
}

// The rows of a sheet in a profile.
#[unsafe(no_mangle)]
pub extern "C" fn desk_report(
    texts: &[u8],
    numbers: &[usize],
    sheet: u64,
    profile: u64,
) -> DeskReported
    ensures { report_told result ≡ report_lent texts.now numbers.now sheet profile }
{
    match desk_questions::report::report(texts, numbers, sheet, profile) {
        Ok(rows) => DeskReported {
            answer: ANSWERED,
            rows,
        },
        Err(refusal) => no_report(refusal.into()),
    }
}

// Nobody typed an item, for the answer of that number.
fn nobody(answer: u8) -> DeskTold
    ensures { who_told result ≡ nobody answer }
{
    DeskTold {
        entry: 0,
        times: 0,
        answer,
        bench: NO_BENCH,
    }
}

// Who typed an item of a sheet.
#[unsafe(no_mangle)]
pub extern "C" fn desk_who(texts: &[u8], numbers: &[usize], sheet: u64, item: u64) -> DeskTold
    ensures { who_told result ≡ who_lent texts.now numbers.now sheet item }
{
    match desk_questions::who::who(texts, numbers, sheet, item) {
        Ok(Some(last)) => DeskTold {
            entry: last.entry,
            times: last.times,
            answer: ANSWERED,
            bench: last.bench,
        },
        Ok(None) => nobody(ANSWERED),
        Err(refusal) => nobody(refusal.into()),
    }
}

// A refused file, by the refusal's number.
fn no_file(answer: u8) -> DeskFiled
    ensures { result ≡ record { count = 0; answer = answer } }
{
    DeskFiled { count: 0, answer }
}

// A sheet as a CIF file, at the start of out.
#[unsafe(no_mangle)]
pub extern "C" fn desk_file(
    texts: &[u8],
    numbers: &[usize],
    sheet: u64,
    name: &[u8],
    out: &mut [u8],
) -> DeskFiled
    ensures { filing_told result out.new ≡ file_lent texts.now numbers.now sheet name.now out.old }
{
    match file_cif::file::write_file(texts, numbers, sheet, name, out) {
        Ok(count) => DeskFiled {
            count,
            answer: ANSWERED,
        },
        Err(refusal) => no_file(refusal.into()),
    }
}

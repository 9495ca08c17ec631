// The static library of the desk: include/desk.h declares these functions. Each calls the function of export_desk that has its name, and states its clauses again.
#![tactic(auto)]

ghost use Rattle.std.specs.Prelude.{◌≡◌, not, eqb};
ghost use Rattle.desk_keys.specs.Lent.{KeyLent};
ghost use Rattle.desk_questions.specs.Report.{report_lent};
ghost use Rattle.desk_questions.specs.Who.{who_lent};
ghost use Rattle.file_cif.specs.Answers.{file_lent};
ghost use Rattle.reader_feed.specs.Feed.{FeedLent};
ghost use Rattle.desk_hydrogen.specs.Hydrogens.{helper_lent, check_lent};
ghost use Rattle.export_desk.specs.Told.{freshened, fresh_lent, report_told, who_told, filing_told, proposal_told};

use export_desk::hydrogen::DeskProposed;
use export_desk::reader::DeskFed;
use export_desk::{DeskFiled, DeskReported, DeskTold};

// Makes the memory a fresh desk: 0, or 2 where it has not a desk's lengths.
#[unsafe(no_mangle)]
pub extern "C" fn desk_fresh(texts: &mut [u8], numbers: &mut [usize]) -> u8
    ensures { freshened result texts.new numbers.new ≡ fresh_lent texts.old numbers.old }
{
    export_desk::desk_fresh(texts, numbers)
}

// One key of a bench; the number of the answer.
#[unsafe(no_mangle)]
pub extern "C" fn desk_key(
    texts: &mut [u8],
    numbers: &mut [usize],
    log: &mut [u8],
    bench: u64,
    byte: u8,
) -> u8
    ensures { KeyLent texts.old numbers.old log.old bench byte result texts.new numbers.new log.new }
{
    export_desk::desk_key(texts, numbers, log, bench, byte)
}

// The rows of a sheet in a profile.
#[unsafe(no_mangle)]
pub extern "C" fn desk_report(
    texts: &[u8],
    numbers: &[usize],
    sheet: u64,
    profile: u64,
) -> DeskReported
    ensures { report_told result ≡ report_lent texts.now numbers.now sheet profile }
{
    export_desk::desk_report(texts, numbers, sheet, profile)
}

// Who typed an item of a sheet.
#[unsafe(no_mangle)]
pub extern "C" fn desk_who(texts: &[u8], numbers: &[usize], sheet: u64, item: u64) -> DeskTold
    ensures { who_told result ≡ who_lent texts.now numbers.now sheet item }
{
    export_desk::desk_who(texts, numbers, sheet, item)
}

// A sheet as a CIF file, at the start of out.
#[unsafe(no_mangle)]
pub extern "C" fn desk_file(
    texts: &[u8],
    numbers: &[usize],
    sheet: u64,
    name: &[u8],
    out: &mut [u8],
) -> DeskFiled
    ensures { filing_told result out.new ≡ file_lent texts.now numbers.now sheet name.now out.old }
{
    export_desk::desk_file(texts, numbers, sheet, name, out)
}

// One part of a log; any last but 0 marks the last part.
#[unsafe(no_mangle)]
pub extern "C" fn desk_feed(
    texts: &mut [u8],
    numbers: &mut [usize],
    kept: &mut [u8],
    state: &mut [usize],
    part: &[u8],
    last: u8,
) -> DeskFed
    ensures { FeedLent texts.old numbers.old kept.old state.old part.now (not (eqb last 0)) result.answer result.place texts.new numbers.new kept.new state.new }
{
    export_desk::reader::desk_feed(texts, numbers, kept, state, part, last)
}

// The smallest right count of hydrogens for a sheet.
#[unsafe(no_mangle)]
pub extern "C" fn desk_hydrogens(texts: &[u8], numbers: &[usize], sheet: u64) -> DeskProposed
    ensures { proposal_told result ≡ helper_lent texts.now numbers.now sheet }
{
    export_desk::hydrogen::desk_hydrogens(texts, numbers, sheet)
}

// A proposed count of hydrogens for a sheet, if it is right.
#[unsafe(no_mangle)]
pub extern "C" fn desk_hydrogens_right(
    texts: &[u8],
    numbers: &[usize],
    sheet: u64,
    count: u64,
) -> DeskProposed
    ensures { proposal_told result ≡ check_lent texts.now numbers.now sheet count }
{
    export_desk::hydrogen::desk_hydrogens_right(texts, numbers, sheet, count)
}

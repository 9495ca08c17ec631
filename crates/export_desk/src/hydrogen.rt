// The hydrogen helper and the check of a count, for C programs.
ghost use Rattle.std.specs.Prelude.{◌≡◌};
ghost use Rattle.desk_hydrogen.specs.Hydrogens.{proposal_in, helper_lent, check_lent};
ghost use Rattle.export_desk.specs.Told.{proposal_told};

use hydrogen_answers::Refusal;

// The count of hydrogens, and the number of the answer.
// The answer is a number and no enum, since C reads it.
#[repr(C)]
#[derive(Clone, Copy)]
pub struct DeskProposed {
    pub count: usize,
    pub answer: u8,
}

fn told(p: Result<u64, Refusal>) -> DeskProposed
    ensures { proposal_told result ≡ proposal_in p }
{
    let count = hydrogen_answers::proposed_count(p);
    let answer = hydrogen_answers::proposed_number(p);
    DeskProposed {
        count: count as usize,
        answer,
    }
}

// The smallest right count of hydrogens for a sheet.
#[unsafe(no_mangle)]
pub extern "C" fn desk_hydrogens(texts: &[u8], numbers: &[usize], sheet: u64) -> DeskProposed
    ensures { proposal_told result ≡ helper_lent texts.now numbers.now sheet }
{
    told(desk_hydrogen::propose(texts, numbers, sheet))
}

// A proposed count of hydrogens for a sheet, if it is right.
#[unsafe(no_mangle)]
pub extern "C" fn desk_hydrogens_right(
    texts: &[u8],
    numbers: &[usize],
    sheet: u64,
    count: u64,
) -> DeskProposed
    ensures { proposal_told result ≡ check_lent texts.now numbers.now sheet count }
{
    told(desk_hydrogen::check(texts, numbers, sheet, count))
}

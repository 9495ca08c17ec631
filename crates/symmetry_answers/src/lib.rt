// Why the check of a list of symmetry operators refuses it, and the numbers of its answers (document 02, No. 5).
#![tactic(auto)]

ghost use Rattle.std.specs.Prelude.{◌≡◌};
ghost use Rattle.symmetry_answers.specs.Number.{list_number};

// Why a list is refused. A missing product comes with the number of pairs looked at, that of the missing one included.
#[derive(Clone, Copy)]
pub enum ListRefusal {
    NoList,
    BadDeterminant,
    NoIdentity,
    EqualRows,
    ProductMissing(u64),
}

// The number of what the check of a list answers: 0 with the number of pairs looked at where the list is accepted, else the refusal's.
// A function and no `From`, since a `Result` is a type of the library.
pub fn list_number(checked: Result<u64, ListRefusal>) -> u8
    ensures { result ≡ list_number checked }
{
    match checked {
        Ok(_) => 0,
        Err(ListRefusal::NoList) => 13,
        Err(ListRefusal::BadDeterminant) => 14,
        Err(ListRefusal::NoIdentity) => 15,
        Err(ListRefusal::EqualRows) => 16,
        Err(ListRefusal::ProductMissing(_)) => 17,
    }
}

// The answers of the hydrogen helper and of the check of a count, and their numbers (document 02, No. 13): a right count, or why there is none.
#![tactic(auto)]

ghost use Rattle.std.specs.Prelude.{◌≡◌};
ghost use Rattle.hydrogen_answers.specs.Number.{proposed_number, proposed_count};

// Why there is no right count.
#[derive(Clone, Copy, PartialEq, Eq)]
pub enum Refusal {
    NoSheet,
    Unsound,
    NoStart,
    NoneRight,
    NotRight,
}

// The number of an answer.
pub fn proposed_number(p: Result<u64, Refusal>) -> u8
    ensures { result ≡ proposed_number p }
{
    match p {
        Ok(_) => 0,
        Err(Refusal::NoSheet) => 12,
        Err(Refusal::Unsound) => 2,
        Err(Refusal::NoStart) => 22,
        Err(Refusal::NoneRight) => 23,
        Err(Refusal::NotRight) => 24,
    }
}

// The count of an answer; a refusal's is 0.
pub fn proposed_count(p: Result<u64, Refusal>) -> u64
    ensures { result ≡ proposed_count p }
{
    p.unwrap_or(0)
}

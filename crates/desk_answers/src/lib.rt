// The refusals of a key call, of the two questions and of the file's writer, and their numbers (document 01, "Keys and their refusals"; document 02, No. 1, 8, 9 and 11).
#![tactic(auto)]

// The refusals of a key call.
#[derive(Clone, Copy)]
pub enum KeyRefusal {
    NoBench,
    Unsound,
    NoKey,
    LineFull,
    BadForm,
    UnknownName,
    WrongKind,
    Owned,
    NoRoom,
}

// The number of a refused key call.
impl From<KeyRefusal> for u8 {
    ghost use Rattle.std.specs.Prelude.{◌≡◌};
    ghost use Rattle.desk_answers.specs.Number.{key_number};

    ghost from_gives = { λ refusal n. n ≡ key_number refusal };

    fn from(refusal: KeyRefusal) -> u8 {
        match refusal {
            KeyRefusal::NoBench => 1,
            KeyRefusal::Unsound => 2,
            KeyRefusal::NoKey => 3,
            KeyRefusal::LineFull => 4,
            KeyRefusal::BadForm => 5,
            KeyRefusal::UnknownName => 6,
            KeyRefusal::WrongKind => 7,
            KeyRefusal::Owned => 9,
            KeyRefusal::NoRoom => 8,
        }
    }
}

// The refusals of a question.
#[derive(Clone, Copy)]
pub enum QuestionRefusal {
    NoSheet,
    NoProfile,
    Unsound,
    NoItem,
}

// The number of a refused question.
impl From<QuestionRefusal> for u8 {
    ghost use Rattle.std.specs.Prelude.{◌≡◌};
    ghost use Rattle.desk_answers.specs.Number.{asked_number};

    ghost from_gives = { λ refusal n. n ≡ asked_number refusal };

    fn from(refusal: QuestionRefusal) -> u8 {
        match refusal {
            QuestionRefusal::NoSheet => 12,
            QuestionRefusal::NoProfile => 21,
            QuestionRefusal::Unsound => 2,
            QuestionRefusal::NoItem => 6,
        }
    }
}

// The refusals of the file's writer.
#[derive(Clone, Copy)]
pub enum FileRefusal {
    NoSheet,
    Unsound,
    BadBlockName,
    NoRoom,
}

// The number of a refused file.
impl From<FileRefusal> for u8 {
    ghost use Rattle.std.specs.Prelude.{◌≡◌};
    ghost use Rattle.desk_answers.specs.Number.{file_number};

    ghost from_gives = { λ refusal n. n ≡ file_number refusal };

    fn from(refusal: FileRefusal) -> u8 {
        match refusal {
            FileRefusal::NoSheet => 12,
            FileRefusal::Unsound => 2,
            FileRefusal::BadBlockName => 11,
            FileRefusal::NoRoom => 10,
        }
    }
}

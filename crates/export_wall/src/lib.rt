// The wall screen's two questions, for a program in C: include/wall.h declares them.
#![tactic(auto)]

ghost use Rattle.std.specs.Prelude.{◌≡◌};
ghost use Rattle.export_wall.specs.Wall.{line_number, wall_answer, wall_grade};

use rows_levels::Ungraded;

// The answer's number, and the level that goes with it.
// The answer is a number and no enum, since C reads it.
#[repr(C)]
#[derive(Clone, Copy)]
pub struct WallGraded {
    pub answer: u8,
    pub level: u8,
}

// Document 01's number for a line of any length and bytes: 0, 5, 6 or 7.
#[unsafe(no_mangle)]
pub extern "C" fn wall_classify(line: &[u8]) -> u8
    ensures { result ≡ line_number line.now }
{
    line_reader::line::class_number(line_reader::line::classify(line))
}

fn tell(g: Result<u8, Ungraded>) -> WallGraded
    ensures { result ≡ wall_answer g }
{
    match g {
        Ok(level) => WallGraded { answer: 0, level },
        Err(Ungraded::NoRow) => WallGraded {
            answer: 6,
            level: 0,
        },
        Err(Ungraded::NoNumber) => WallGraded {
            answer: 7,
            level: 0,
        },
    }
}

// The level that a typed value earns in a row: answer 0, 6 or 7.
#[unsafe(no_mangle)]
pub extern "C" fn wall_grade(row: u64, value: &[u8]) -> WallGraded
    ensures { result ≡ wall_grade row value.now }
{
    tell(rows_levels::grade_value(row, value))
}

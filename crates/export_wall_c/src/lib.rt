// The static library of the wall screen: include/wall.h declares these functions. Each calls the function of export_wall that has its name, and states its clauses again.
#![tactic(auto)]

ghost use Rattle.std.specs.Prelude.{◌≡◌};
ghost use Rattle.export_wall.specs.Wall.{line_number, wall_answer, wall_grade};

use export_wall::WallGraded;

// Document 01's number for a line of any length and bytes: 0, 5, 6 or 7.
#[unsafe(no_mangle)]
pub extern "C" fn wall_classify(line: &[u8]) -> u8
    ensures { result ≡ line_number line.now }
{
    export_wall::wall_classify(line)
}

// The level that a typed value earns in a row: answer 0, 6 or 7.
#[unsafe(no_mangle)]
pub extern "C" fn wall_grade(row: u64, value: &[u8]) -> WallGraded
    ensures { result ≡ wall_grade row value.now }
{
    export_wall::wall_grade(row, value)
}

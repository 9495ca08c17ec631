// What reading an operator's text answers (document 02, No. 5): its row, or none.
// A client cites Answers (reading_number, numbers).
#![tactic(auto)]

ghost use Rattle.std.specs.Prelude.{◌≡◌};
ghost use Rattle.symmetry_readings.specs.Answers.{reading_number, numbers};

// A part of a row: the factors of x, y, z, and the translation in 24ths.
#[derive(Clone, Copy)]
pub struct RowPart {
    pub x: i8,
    pub y: i8,
    pub z: i8,
    pub t: i8,
}

// A row: the three parts of an operator.
#[derive(Clone, Copy)]
pub struct OperatorRow {
    pub first: RowPart,
    pub second: RowPart,
    pub third: RowPart,
}

// The numbers of a row.
pub const NUMBERS: usize = 12;

// The number of a reading: 0 for a row, 13 for none.
// A function and no `From`, since an `Option` is a type of the library.
pub fn reading_number(reading: Option<OperatorRow>) -> u8
    ensures { result ≡ reading_number reading }
{
    if reading.is_some() { 0 } else { 13 }
}

// The twelve numbers of a reading: nine factors, part by part, and three translations; zeros for none.
pub fn reading_row(reading: Option<OperatorRow>) -> [i8; NUMBERS]
    ensures { result ≡ numbers reading }
{
    let Some(row) = reading else {
        return [0; NUMBERS];
    };
    let OperatorRow {
        first: a,
        second: b,
        third: c,
    } = row;
    [a.x, a.y, a.z, b.x, b.y, b.z, c.x, c.y, c.z, a.t, b.t, c.t]
}

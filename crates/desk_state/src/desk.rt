// The desk: four benches with a line each, and two sheets. It is the type of the definitions; memory holds it as crate desk_memory says.
use crate::line::Line;
use crate::sheet::Sheet;

pub const BENCH_COUNT: usize = 4;

// The benches that fill one sheet: the first ones fill sheet 0, the next ones sheet 1.
pub const BENCHES_EACH: usize = 2;

pub const SHEET_COUNT: usize = 2;

// The bench number that stands for none.
pub const NO_BENCH: u8 = 255;

#[derive(Clone, Copy)]
pub struct Desk {
    pub lines: [Line; BENCH_COUNT],
    pub sheets: [Sheet; SHEET_COUNT],
}

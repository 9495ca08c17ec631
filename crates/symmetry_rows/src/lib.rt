// The row at the head of a list of numbers: whether its numbers are in range, and its residues.
#![tactic(auto)]

ghost use Rattle.std.specs.Prelude.{◌≡◌, pos, get_or};
ghost use Rattle.symmetry_operators.specs.Operator.{part, fine_part, fine};
ghost use Rattle.symmetry_operators.specs.Check.{row_from};
ghost use Rattle.symmetry_rows.specs.Residues.{cell, cells};

use symmetry_numbers::{is_factor, is_translation, number_at, reduced};
use symmetry_operators::{MODULUS, ROW_LENGTH};

// Whether the numbers of a part, by their places, are in range.
#[tactic(auto, unfolding(symmetry_operators::specs::Operator::fine_part))]
fn part_fine(numbers: &[i8], x: usize, y: usize, z: usize, t: usize) -> bool
    ensures { result ≡ fine_part (part (get_or numbers.now x (pos 0)) (get_or numbers.now y (pos 0)) (get_or numbers.now z (pos 0)) (get_or numbers.now t (pos 0))) }
{
    is_factor(number_at(numbers, x))
        && is_factor(number_at(numbers, y))
        && is_factor(number_at(numbers, z))
        && is_translation(number_at(numbers, t))
}

// Whether the numbers of the row at the head of a list are in range.
#[tactic(auto, unfolding(symmetry_operators::specs::Operator::fine, symmetry_operators::specs::Check::row_from))]
pub fn row_fine(numbers: &[i8]) -> bool
    ensures { result ≡ fine (row_from numbers.now) }
{
    part_fine(numbers, 0, 1, 2, 9)
        && part_fine(numbers, 3, 4, 5, 10)
        && part_fine(numbers, 6, 7, 8, 11)
}

// The residue of the number at place k of a row, from the number modulo 12288.
fn cell(k: usize, n: u16) -> u16
    ensures { result ≡ cell k n }
{
    if k < 9 {
        n
    } else {
        (512 * u64::from(n) % MODULUS) as u16
    }
}

// The twelve residues of the row at the head of a list.
pub fn residues_of(numbers: &[i8]) -> [u16; ROW_LENGTH]
    ensures { result ≡ cells numbers.now }
{
    let mut out = [0u16; ROW_LENGTH];
    for (k, slot) in out.iter_mut().enumerate() {
        *slot = cell(k, reduced(number_at(numbers, k)));
    }
    out
}

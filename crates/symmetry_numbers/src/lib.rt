// The numbers of a list of operators by their places, where past the end stands 0: their ranges, and a number modulo 12288.
#![tactic(auto)]

ghost use Rattle.std.specs.Prelude.{◌≡◌, pos, get_or};
ghost use Rattle.symmetry_operators.specs.Operator.{is_factor, is_translation};
ghost use Rattle.symmetry_operators.specs.Residues.{reduced};

use symmetry_operators::MODULUS;

// The number at a place, or 0 past the end.
pub fn number_at(numbers: &[i8], i: usize) -> i8
    ensures { result ≡ get_or numbers.now i (pos 0) }
{
    numbers.get(i).copied().unwrap_or(0)
}

// Whether z may be a factor.
pub fn is_factor(z: i8) -> bool
    ensures { result ≡ is_factor z }
{
    (-1..=1).contains(&z)
}

// Whether z may be a translation.
pub fn is_translation(z: i8) -> bool
    ensures { result ≡ is_translation z }
{
    (0..=23).contains(&z)
}

// A number modulo 12288: one below zero is as much below 12288.
pub fn reduced(z: i8) -> u16
    ensures { result ≡ reduced z }
{
    if z < 0 {
        MODULUS as u16 - u16::from(z.unsigned_abs())
    } else {
        z as u16
    }
}

// Operators by name, and the list of numbers that their check is lent (document 02, No. 5).
#![tactic(auto)]

ghost use Rattle.std.specs.Prelude.{◌≡◌};
ghost use Rattle.symmetry_judged.specs.Answer.{outcome_of};
ghost use Rattle.symmetry_named.specs.Named.{flat_of_zeros, with_row, flat_checked};

use symmetry_answers::ListRefusal;
use symmetry_list::check_list;
use symmetry_operators::{LIST_MOST, ROW_LENGTH, ROW_MOST};

// Nine factors, part by part, and three translations in 24ths.
#[derive(Clone, Copy)]
pub struct Operator {
    pub factors: [i8; 9],
    pub translations: [i8; 3],
}

// The numbers of 192 rows, and room for no more.
// How many rows there are is the caller's to say: `with_row` and `flat_checked` promise it for any place and any number.
#[derive(Clone, Copy)]
pub struct Flat {
    pub numbers: [i8; LIST_MOST],
}

impl Flat {
    // No rows yet.
    #[tactic(auto, unfolding(crate::specs::Named::flat_of_zeros))]
    pub fn new() -> Flat
        ensures { result ≡ flat_of_zeros }
    {
        Flat {
            numbers: [0; LIST_MOST],
        }
    }

    // Stores the numbers of an operator as row i, where there is room.
    #[tactic(auto, using(crate::proofs::Filling::store_law), unfolding(crate::specs::Named::with_row))]
    pub fn store(&mut self, i: usize, o: Operator)
        ensures { self.new ≡ with_row self.old i o }
    {
        if i < ROW_MOST {
            let at = ROW_LENGTH * i;
            self.numbers[at..at + 9].copy_from_slice(&o.factors);
            self.numbers[at + 9..at + 12].copy_from_slice(&o.translations);
        }
    }

    // The check of the first n rows.
    #[tactic(auto, unfolding(crate::specs::Named::flat_checked))]
    pub fn check(&self, n: usize) -> Result<u64, ListRefusal>
        ensures { outcome_of result ≡ flat_checked self.now n }
    {
        if n > ROW_MOST {
            return Err(ListRefusal::NoList);
        }
        check_list(&self.numbers[..ROW_LENGTH * n])
    }
}

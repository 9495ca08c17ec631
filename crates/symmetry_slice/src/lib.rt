// The check of a lent slice of operators (document 02, No. 5).
#![tactic(auto)]

ghost use Rattle.std.specs.Prelude.{◌≡◌};
ghost use Rattle.symmetry_judged.specs.Answer.{outcome_of};
ghost use Rattle.symmetry_named.specs.Named.{checked_named};

use symmetry_answers::ListRefusal;
use symmetry_named::{Flat, Operator};

// The check of a lent slice of operators: that of their numbers, one after the other.
#[tactic(auto, using(symmetry_named::proofs::Filling::first_rows), unfolding(symmetry_named::specs::Named::filled_to))]
pub fn check_operators(ops: &[Operator]) -> Result<u64, ListRefusal>
    ensures { outcome_of result ≡ checked_named ops.now }
{
    let mut rows = Flat::new();
    for (i, o) in ops.iter().enumerate() {
        rows.store(i, *o);
    }
    rows.check(ops.len())
}

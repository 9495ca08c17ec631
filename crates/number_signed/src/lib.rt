// Signed numbers. No rule of document 01 is here.
// A client's proof cites the laws of `i64` in proofs/Signs.antt.
#![tactic(auto)]

ghost use Rattle.std.specs.Prelude.{◌≡◌, nat_abs};

// The absolute value of a number.
pub fn magnitude(v: i64) -> u64
    ensures { result ≡ nat_abs v }
{
    v.unsigned_abs()
}

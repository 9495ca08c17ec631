// Operators modulo 12288, as twelve residues: the determinant, and codes of products.
#![tactic(auto)]

ghost use Rattle.std.specs.Prelude.{◌≡◌, ◌||◌, ◌+◌, ◌*◌, ◌/◌, ◌%◌, ◌≤◌, eqb};
ghost use Rattle.symmetry_operators.specs.Operator.{part};
ghost use Rattle.symmetry_operators.specs.Residues.{minor_n, turns_n, packed, word_after, product_code, row_from_n};

use symmetry_operators::{MINUS_ONE, MODULUS};

// A number times this is the number with the other sign.
const NEGATED: u64 = MODULUS - 1;

// A product, and a bound of it.
fn mul(a: u16, b: u16) -> u64
    ensures value { result ≡ a * b }
    ensures most { result ≤ 4294836225 }
{
    u64::from(a) * u64::from(b)
}

fn minor(a: u16, b: u16, c: u16, d: u16) -> u16
    ensures { result ≡ minor_n a b c d % 12288 }
{
    ((mul(a, d) + NEGATED * mul(b, c)) % MODULUS) as u16
}

// The determinant, by the minors of the first part.
fn expanded(a: u16, m: u16, b: u16, n: u16, c: u16, o: u16) -> u16
    ensures { result ≡ (a * m + 12287 * (b * n) + c * o) % 12288 }
{
    ((mul(a, m) + NEGATED * mul(b, n) + mul(c, o)) % MODULUS) as u16
}

fn is_unit(n: u16) -> bool
    ensures { result ≡ (eqb n 1 || eqb n 12287) }
{
    n == 1 || n == MINUS_ONE
}

// Whether the determinant of a row of residues is 1 or −1.
#[tactic(auto, using(crate::proofs::Laws::unit_law))]
pub fn has_unit(numbers: [u16; 12]) -> bool
    ensures { result ≡ turns_n (row_from_n numbers) }
{
    let m = minor(numbers[4], numbers[5], numbers[7], numbers[8]);
    let n = minor(numbers[3], numbers[5], numbers[6], numbers[8]);
    let o = minor(numbers[3], numbers[4], numbers[6], numbers[7]);
    is_unit(expanded(numbers[0], m, numbers[1], n, numbers[2], o))
}

// The words of an operator's three parts.
#[derive(Clone, Copy)]
struct Words {
    first: u16,
    second: u16,
    third: u16,
}

impl Words {
    // Those of a code.
    fn of(code: u64) -> Words
        ensures first { result.first ≡ code / 4294967296 % 65536 }
        ensures second { result.second ≡ code / 65536 % 65536 }
        ensures third { result.third ≡ code % 65536 }
    {
        Words {
            first: (code / 4294967296 % 65536) as u16,
            second: (code / 65536 % 65536) as u16,
            third: (code % 65536) as u16,
        }
    }

    // The code of the operator with these words.
    fn code(self) -> u64
        ensures { result ≡ packed self.first self.second self.third }
    {
        (u64::from(self.first) * 65536 + u64::from(self.second)) * 65536 + u64::from(self.third)
    }

    // The word of the part x, y, z, t after the operator with these words.
    fn after(self, x: u16, y: u16, z: u16, t: u16) -> u16
        ensures { result ≡ word_after (part x y z t) self.first self.second self.third }
    {
        let sum = mul(x, self.first) + mul(y, self.second) + mul(z, self.third) + u64::from(t);
        (sum % MODULUS) as u16
    }
}

// The code of the product of a row of residues and an operator of which the code is known, which is applied first.
#[tactic(auto, unfolding(symmetry_operators::specs::Residues::product_code, symmetry_operators::specs::Residues::row_from_n))]
pub fn product_code(first: [u16; 12], second: u64) -> u64
    ensures { result ≡ product_code (row_from_n first) second }
{
    let words = Words::of(second);
    let product = Words {
        first: words.after(first[0], first[1], first[2], first[9]),
        second: words.after(first[3], first[4], first[5], first[10]),
        third: words.after(first[6], first[7], first[8], first[11]),
    };
    product.code()
}

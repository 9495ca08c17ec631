// Writes a formula's text with another count of hydrogen, in quotes as it is typed (document 02, No. 13).
// put: terms one after the other.
#![tactic(auto)]

ghost use Rattle.std.specs.Prelude.{◌≡◌, ◌≤◌, take};
ghost use Rattle.hydrogen_writer.specs.declared.TheConstants.{TYPED_MOST};
ghost use Rattle.hydrogen_writer.specs.Typed.{typed_with};

use crate::put::put_words;

mod put;

// The longest text.
const TEXT_MOST: usize = 176;

// The same as it is typed, with its two marks.
pub const TYPED_MOST: usize = TEXT_MOST + 2;

// A text as it is typed.
#[derive(Clone, Copy)]
pub struct Typed {
    bytes: [u8; TYPED_MOST],
    len: usize,
    ghost fits: { len ≤ TYPED_MOST },
}

impl Typed {
    // The bytes of the text.
    pub fn written(&self) -> &[u8]
        ensures { result.now ≡ take self.now.len self.now.bytes }
    {
        &self.bytes[..self.len]
    }
}

// The text s with n hydrogens, as it is typed; no bytes where it is longer than 176.
pub fn typed_with(s: &[u8], n: u64) -> Typed
    ensures { take result.len result.bytes ≡ typed_with n s.now }
{
    let mut bytes = [0u8; TYPED_MOST];
    bytes[0] = b'\'';
    let at = put_words(&mut bytes, s, n);
    if TYPED_MOST < at {
        return Typed { bytes, len: 0 };
    }
    let mut end = 1;
    if 1 < at {
        end = at - 1;
    }
    bytes[end] = b'\'';
    Typed {
        bytes,
        len: end + 1,
    }
}

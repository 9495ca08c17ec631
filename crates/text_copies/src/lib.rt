// Copies of texts into places of others. No rule of document 01 is here.
// A client cites Copy (copied).
#![tactic(auto)]

ghost use Rattle.std.specs.Prelude.{◌≡◌, ◌+◌, ◌≤◌, length};
ghost use Rattle.std.proofs.Math.Seq.{paste};
ghost use Rattle.text_copies.specs.Copy.{copied};

// Byte by byte: the library's copy_from_slice would have C programs bring memmove.
fn copy_fitting(dst: &mut [u8], at: usize, src: &[u8])
    requires { at + length src.now ≤ length dst.old }
    ensures { dst.new ≡ paste dst.old at src.now (length src.now) }
{
    for j in 0..src.len() {
        dst[at + j] = src[j];
    }
}

// Copies src into dst from a place on, where it fits; else nothing.
pub fn copy_in(dst: &mut [u8], at: usize, src: &[u8])
    ensures { dst.new ≡ copied dst.old at src.now }
{
    if dst.len() < at {
        return;
    }
    if dst.len() - at < src.len() {
        return;
    }
    copy_fitting(dst, at, src);
}

// The name of a block: 1 to 32 letters, digits or `-`.
#![tactic(auto)]

ghost use Rattle.std.specs.Prelude.{◌≡◌};
ghost use Rattle.file_block_name.specs.Block.{is_block_byte, is_block_name};

// The longest name of a block.
pub const BLOCK_MOST: usize = 32;

// Whether a byte can stand in a block's name.
#[tactic(auto, unfolding(crate::specs::Block::is_block_byte))]
fn is_block_byte(b: u8) -> bool
    ensures { result ≡ is_block_byte b }
{
    text::is_between(b, b'A', b'Z')
        || text::is_between(b, b'a', b'z')
        || text::is_between(b, b'0', b'9')
        || b == b'-'
}

// Whether a text is a block's name.
pub fn is_block_name(name: &[u8]) -> bool
    ensures { result ≡ is_block_name name.now }
{
    if name.len() < 1 {
        return false;
    }
    if BLOCK_MOST < name.len() {
        return false;
    }
    name.iter().all(|b| is_block_byte(*b))
}

// One unfinished line: its bytes, of which the first len are typed and the others zero.
use line_items::LINE_MOST;

#[derive(Clone, Copy)]
pub struct Line {
    pub bytes: [u8; LINE_MOST],
    pub len: usize,
}

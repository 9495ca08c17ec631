// A sheet: its items and the count of accepted entries.
use line_items::{ITEM_COUNT, LINE_MOST};

// A value as typed, of which the first len bytes count, its entry number, its bench, and how many accepted entries named it. An empty item is zero.
#[derive(Clone, Copy)]
pub struct Item {
    pub value: [u8; LINE_MOST],
    pub len: usize,
    pub entry: usize,
    pub bench: u8,
    pub times: usize,
}

#[derive(Clone, Copy)]
pub struct Sheet {
    pub items: [Item; ITEM_COUNT],
    pub count: usize,
}

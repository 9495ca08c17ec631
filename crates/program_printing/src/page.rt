// A text under way.
ghost use Rattle.std.specs.Prelude.{◌≡◌, [], ◌∷◌, ◌+◌, ◌≤◌, ◌<◌, length};
ghost use Rattle.program_printing.specs.Page.{page_most, decimal_most, page_text, Adds};
ghost use Rattle.program_printing.specs.Print.{two_digits, decimal_text};

use line_items::{ITEM_COUNT, LINE_MOST};
use rows::ROW_COUNT;

// The most that the head, the line of a row and the line of an item add: their words, spaces and end bytes; a row's name, numbers of 20 digits, a value.
const HEAD_MOST: usize = 10;

const ROW_LINE_MOST: usize = 7 + 9 + 20;

const ITEM_LINE_MOST: usize = 23 + 20 + 20 + LINE_MOST;

// The longest text of a page: the head, all rows and all items.
pub const PAGE_MOST: usize = HEAD_MOST + ROW_LINE_MOST * ROW_COUNT + ITEM_LINE_MOST * ITEM_COUNT;

// The first len bytes are written.
#[derive(Clone, Copy)]
pub struct Page {
    pub bytes: [u8; PAGE_MOST],
    pub len: usize,
}

// The most digits of a number.
const DIGITS_MOST: usize = 20;

impl Page {
    // A page with nothing on it.
    pub(crate) fn empty() -> Page
        ensures { (page_text result ≡ []) × (result.len ≡ 0) }
    {
        Page {
            bytes: [0u8; PAGE_MOST],
            len: 0,
        }
    }

    // Puts a piece of text on the page.
    pub(crate) fn put(&mut self, piece: &[u8])
        requires { self.old.len + length piece.now ≤ page_most }
        ensures { Adds self.old piece.now self.new }
    {
        text_copies::copy_in(&mut self.bytes, self.len, piece);
        self.len += piece.len();
    }

    // Puts one byte on the page.
    pub(crate) fn put_byte(&mut self, b: u8)
        requires { self.old.len + 1 ≤ page_most }
        ensures { Adds self.old (b ∷ []) self.new }
    {
        self.put(&[b]);
    }

    // Puts a number below 100 on the page, in two digits.
    pub(crate) fn put_two_digits(&mut self, n: usize)
        requires { (self.old.len + 2 ≤ page_most) × (n < 100) }
        ensures { Adds self.old (two_digits n) self.new }
    {
        let tens = b'0' + (n / 10) as u8;
        let ones = b'0' + (n % 10) as u8;
        self.put(&[tens, ones]);
    }

    // Puts a number on the page.
    pub(crate) fn put_decimal(&mut self, n: usize)
        requires { self.old.len + decimal_most ≤ page_most }
        ensures { Adds self.old (decimal_text n) self.new × (self.new.len ≤ self.old.len + decimal_most) }
    {
        let mut digits = [0u8; DIGITS_MOST];
        let mut rest = n;
        for i in (0..DIGITS_MOST).rev() {
            digits[i] = b'0' + (rest % 10) as u8;
            if rest < 10 {
                self.put(&digits[i..]);
                return;
            }
            rest /= 10;
        }
        self.put(&digits);
    }
}

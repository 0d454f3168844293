// Reading a sheet line by line. A line ends in byte 10, which the last may lack: a sheet that ends in byte 10 has no
// empty line after it, and an empty sheet has no line.
ghost use Rattle.std.specs.Prelude.{◌≡◌, ◌+◌, ◌≤◌, length, take};

use crate::split::split_first;
use fixed::slices::front;

/// The most bytes that a sheet may have.
pub const MOST: usize = 65536;

/// One line, without the byte that ends it, and its number.
#[derive(Clone, Copy)]
pub struct Line<'a> {
    pub bytes: &'a [u8],
    pub number: u32,
}

/// The lines of a sheet that are yet to come, and the number of the first of them. With a model it would not be `Copy`.
#[derive(Clone, Copy)]
pub struct Lines<'a> {
    left: &'a [u8],
    number: u32,
    ghost counted: { 1 ≤ number },
    ghost short: { number + length left.now ≤ 65537 },
}

impl<'a> Lines<'a> {
    ghost use Rattle.text.specs.Pieces.{lines_of};
    ghost use Rattle.text.specs.Rows.{left_of};

    /// The reader of a sheet's lines, from line 1 on. Of a sheet that is too long it reads as much as one may have.
    pub fn new(sheet: &'a [u8]) -> Lines<'a>
        ensures left { left_of result ≡ lines_of (take 65536 sheet.now) }
        ensures number { result.number ≡ 1 }
    {
        Lines {
            left: front(sheet, MOST),
            number: 1,
        }
    }

    /// The number of the line that comes next, or that would.
    pub fn number(&self) -> u32
        ensures { result ≡ self.now.number }
    {
        self.number
    }
}

impl<'a> Iterator for Lines<'a> {
    ghost use Rattle.std.specs.Iterator.{item_count};
    ghost use Rattle.text.specs.Rows.{left_of, NextLine, Short};

    type Item = Line<'a>;

    ghost next_gives = { λ s r t. NextLine (left_of s) s.number r (left_of t) t.number × Short r };

    ghost remaining = { item_count left_of };

    fn next(&mut self) -> Option<Line<'a>> {
        let Lines { left, number } = *self;
        if left.is_empty() {
            return None;
        }
        let (bytes, more) = split_first(left, b'\n');
        *self = Lines {
            left: more.unwrap_or(b""),
            number: number + 1,
        };
        Some(Line { bytes, number })
    }
}

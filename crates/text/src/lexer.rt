// The tokens of a line: its fields between commas, each with its place, and then the line's end again and again. An
// empty line has no field.
ghost use Rattle.std.specs.Prelude.{◌≡◌, ◌+◌, ◌≤◌, length, take};
ghost use Rattle.text.specs.Pieces.{length_of};

use crate::lines::{Line, MOST};
use crate::place::Place;
use crate::split::{split_first, unless_empty};
use fixed::slices::front;

/// A field of a line with the place where it begins, or the line's end with the place just past it. The project asks for an enum of
/// tokens that borrow their field and carry its place.
#[derive(Clone, Copy)]
pub enum Token<'a> {
    Field { bytes: &'a [u8], place: Place },
    End { place: Place },
}

/// The fields of one line that are yet to come. `left` begins at `place`, and is absent past the last field.
#[derive(Clone, Copy)]
pub struct Lexer<'a> {
    left: Option<&'a [u8]>,
    place: Place,
    ghost short: { place.column + length_of left ≤ 65537 },
}

impl<'a> Lexer<'a> {
    ghost use Rattle.text.specs.Cells.{cells, cells_left, end_of, NextToken};

    /// The lexer of a line. Of a line that is too long for any sheet it reads as much as one may have.
    pub fn new(line: Line<'a>) -> Lexer<'a>
        ensures cells { cells_left result ≡ cells (take 65536 line.entry.bytes.now) }
        ensures line { result.place.line ≡ line.entry.number }
        ensures end { end_of result ≡ 1 + length (take 65536 line.entry.bytes.now) }
    {
        Lexer {
            left: unless_empty(front(line.bytes, MOST)),
            place: Place {
                line: line.number,
                column: 1,
            },
        }
    }

    /// The next token: a field, or once there is none the line's end.
    pub fn next_token(&mut self) -> Token<'a>
        ensures { NextToken (cells_left self.old) self.old.place.line (end_of self.old) result (cells_left self.new) self.new.place.line (end_of self.new) }
    {
        let Lexer { left, place } = *self;
        let Some(left) = left else {
            return Token::End { place };
        };
        let (bytes, left) = split_first(left, b',');
        // What is left of the line is at most as long as a sheet, so that its length is a u32's.
        let comma = u32::from(left.is_some());
        *self = Lexer {
            left,
            place: Place {
                line: place.line,
                column: place.column + bytes.len() as u32 + comma,
            },
        };
        Token::Field { bytes, place }
    }
}

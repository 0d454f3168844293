// One value line under the names of its part: its earliest fault, and the fields under its names.
ghost use Rattle.std.specs.Prelude.{◌≡◌, ℕ, ◌≤◌, List, Some, decimal, MatchResult};
ghost use Rattle.text.specs.Faults.{Least};
ghost use Rattle.reader.specs.Wants.{Fit, mark_text};
ghost use Rattle.reader.specs.Rows.{Clean, held};
ghost use Rattle.reader.specs.ValueRows.{FaultOf, field_of};

use crate::form::{Form, Want, mark_of};
use fixed::slices::front;
use site::Mark;
use text::fault::{Fault, FaultKind};
use text::lexer::{Lexer, Token};
use text::lines::{Line, MOST};
use text::number::number;
use text::split::Parts;

/// A value line whose names stand in this order. A line that is too long for any sheet counts as far as one reaches.
#[derive(Clone, Copy)]
pub(crate) struct Row<'a> {
    pub line: Line<'a>,
    pub order: &'a [usize],
}

impl<'a> Row<'a> {
    /// The line's earliest fault, if it has one.
    pub fn check(self, form: Form) -> Result<(), Fault>
        ensures { MatchResult result (λ _. Clean (FaultOf self.entry form)) (Least (FaultOf self.entry form)) }
    {
        let mut lexer = Lexer::new(self.line);
        for name in self.order {
            match lexer.next_token() {
                Token::Field { bytes, place } => form
                    .wants(*name)
                    .judge(bytes)
                    .map_err(|kind| Fault { kind, place })?,
                Token::End { place } => return Err(Fault {
                    kind: FaultKind::Count,
                    place,
                }),
            }
        }
        match lexer.next_token() {
            Token::Field { bytes: _, place } => Err(Fault {
                kind: FaultKind::Count,
                place,
            }),
            Token::End { place: _ } => Ok(()),
        }
    }

    /// The field under a name.
    pub fn field(self, name: usize) -> Option<&'a [u8]>
        ensures { held result ≡ field_of self.entry name }
    {
        let place = self.order.iter().position(|own| *own == name)?;
        Parts::new(front(self.line.bytes, MOST), b',').nth(place)
    }

    /// The number under a name, or 0 where there is none. It is asked of a row that has passed `check`, where there is one; a judge
    /// that handed on what it read would have an answer of its own for each kind of field.
    pub fn number(self, name: usize, limit: u32) -> u32
        ensures text { (f : List ℕ) → field_of self.entry name ≡ Some f → Fit (Want.Number limit) f → f ≡ decimal result }
        ensures within { result ≤ limit }
    {
        self.field(name)
            .and_then(|field| number(field, limit))
            .unwrap_or(0)
    }

    /// The mark under a name, or no where there is none.
    pub fn mark(self, name: usize) -> Mark
        ensures { (f : List ℕ) → field_of self.entry name ≡ Some f → Fit Want.Keep f → f ≡ mark_text result }
    {
        self.field(name).and_then(mark_of).unwrap_or_default()
    }
}

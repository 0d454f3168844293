// The lines of a run, one after the other.
ghost use Rattle.std.specs.Prelude.{◌≡◌};
ghost use Rattle.text.specs.Rows.{left_of};
ghost use Rattle.sheet.specs.Going.{Spent, NextOf};

use crate::answers::answer_line;
use crate::faults::FaultLine;
use crate::put::write;
use crate::run::{Run, ShortBuffer};
use reader::calls::read_call;
use site::SiteMap;

/// The most bytes that a line may have.
pub const LINE: usize = 2048;

impl<'a, M: SiteMap> Run<'a, M> {
    /// Writes the next line from the buffer's front, and tells its length, or that there is no more line.
    pub fn next_line(&mut self, out: &mut [u8]) -> Result<Option<usize>, ShortBuffer>
        ensures map { self.new.store.map ≡ self.old.store.map }
        ensures spent { Spent result (left_of self.old.lines) (left_of self.new.lines) }
        ensures next { NextOf (M.SiteMap.meaning self.old.store.map) self.old self.new result out.old out.new }
    {
        if out.len() < LINE {
            return Err(ShortBuffer);
        }
        // No further line is an answer here, which a `?` would not hand on.
        let Some(line) = self.lines.next() else {
            return Ok(None);
        };
        match read_call(&self.order, line) {
            Ok(call) => Ok(Some(answer_line(&mut self.store, call, out))),
            Err(fault) => Ok(Some(write(&FaultLine::from(fault), out))),
        }
    }
}

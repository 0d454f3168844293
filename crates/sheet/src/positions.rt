// The positions of a set of blocks, as an answer line names them.
ghost use Rattle.std.specs.Prelude.{◌≤◌, length};
ghost use Rattle.text.specs.Texts.{Wrote};
ghost use Rattle.text.specs.Spaced.{spaced};
ghost use Rattle.sheet.specs.Replies.{positions};

use crate::put::put_spaced;
use fixed::list::FixedList;
use site::set::NumberSet;
use text::writer::Writer;

/// The positions with single spaces between, ascending; place p − 1 is position p.
pub(crate) fn put_positions(writer: &mut Writer<'_>, set: NumberSet)
    ensures text { Wrote writer.old writer.new (spaced (positions set)) }
    ensures short { length (spaced (positions set)) ≤ 96 }
{
    let mut places = FixedList::<u32, 32>::new();
    // All numbers below 32 are asked, in order, so that the positions ascend. The iterator over a set's members is the search's own.
    for i in 0..32 {
        if set.has(i) {
            let _ = places.push(i + 1);
        }
    }
    put_spaced(writer, places.as_slice());
}

// What stands on an answer line, and how it is written.
ghost use Rattle.std.specs.Prelude.{◌≡◌, ℕ, ◌+◌, ◌≤◌, List, length, take, decimal};
ghost use Rattle.std.specs.List.{sum_by};
ghost use Rattle.text.specs.Spaced.{spaced_by};
ghost use Rattle.text.specs.Texts.{Wrote, whole};
ghost use Rattle.store.specs.Answers.{shown};
ghost use Rattle.sheet.specs.Replies.{row_text};

use store::types::{Kind, Row};
use text::writer::Writer;

/// A value that has a text on an answer line, or that has such a line.
// Not `Display`: its clauses tell a text only where `fmt` returns `Ok`, and these texts are promised always.
pub trait Put {
    ghost text: { Self → List ℕ };

    // The text has no more bytes than this.
    ghost most: { Self → ℕ };

    /// Writes the value's text.
    fn put(&self, writer: &mut Writer<'_>)
        ensures wrote { Wrote writer.old writer.new (text self.now) }
        ensures short { length (text self.now) ≤ most self.now };
}

impl Put for u32 {
    ghost text = { decimal };

    ghost most = { λ _. 10 };

    fn put(&self, writer: &mut Writer<'_>) {
        writer.put_number(*self);
    }
}

// A planned node, or the block and the node of a copy that is deleted.
impl Put for Row {
    ghost text = { λ row. row_text (shown row) };

    ghost most = { λ _. 16 };

    fn put(&self, writer: &mut Writer<'_>) {
        if self.kind == Kind::Deleted {
            writer.put_number(self.number);
            writer.put(b':');
        }
        writer.put_number(u32::from(self.node.0));
    }
}

/// Writes the values with single spaces between.
pub(crate) fn put_spaced<T: Put>(writer: &mut Writer<'_>, values: &[T])
    ensures wrote { Wrote writer.old writer.new (spaced_by T.text values.now) }
    ensures short { length (spaced_by T.text values.now) ≤ sum_by (λ v. T.most v + 1) values.now }
{
    if let Some((first, more)) = values.split_first() {
        first.put(writer);
        for value in more {
            writer.put(b' ');
            value.put(writer);
        }
    }
}

/// Writes a line from the front of a buffer, and says how long it is.
pub fn write<L: Put>(line: &L, out: &mut [u8]) -> usize
    ensures value { result ≡ length (take (length out.old) (L.text line.now)) }
    ensures within { result ≤ length out.old }
    ensures after { out.new ≡ whole out.old (L.text line.now) }
    ensures short { length (L.text line.now) ≤ L.most line.now }
{
    let mut writer = Writer::new(out);
    line.put(&mut writer);
    writer.len()
}

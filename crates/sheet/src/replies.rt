// The heading, and the answer line of a call.
ghost use Rattle.std.specs.Prelude.{◌≡◌, ◌+◌, ◌*◌, ◌≤◌, map, length};
ghost use Rattle.text.specs.Texts.{Wrote};
ghost use Rattle.store.specs.Answers.{shown};
ghost use Rattle.sheet.specs.Replies.{status, crowd_text, answer_text, rest_text, reply_text, heading};

use crate::positions::put_positions;
use crate::put::{Put, put_spaced};
use fixed::slices::front;
use store::types::{Answer, Refusal, Row};
use text::writer::Writer;

/// The line above all answers.
#[derive(Clone, Copy)]
pub struct Heading;

impl Put for Heading {
    ghost text = { λ _. heading };

    ghost most = { λ _. 18 };

    fn put(&self, writer: &mut Writer<'_>) {
        writer.put_bytes(b"answer,first,rest\n");
    }
}

/// The answer line of a call: the first number of its line, what it was answered, and the rows that it wrote.
#[derive(Clone, Copy)]
pub struct Reply<'a> {
    pub first: u32,
    pub answer: Result<Answer, Refusal>,
    pub rows: &'a [Row],
}

fn put_answer(writer: &mut Writer<'_>, answer: Answer, rows: &[Row])
    ensures text { Wrote writer.old writer.new (answer_text answer (map shown rows.now)) }
    ensures short { length (answer_text answer (map shown rows.now)) ≤ 10 + 17 * length rows.now }
{
    match answer {
        Answer::Position(p) => p.put(writer),
        Answer::Rows(n) => put_spaced(writer, front(rows, n)),
        Answer::Done | Answer::Standing(_) => {}
    }
}

// The blocks that crowd an offered one out.
fn put_crowd(writer: &mut Writer<'_>, refusal: Refusal)
    ensures text { Wrote writer.old writer.new (crowd_text refusal) }
    ensures short { length (crowd_text refusal) ≤ 96 }
{
    if let Refusal::NoChoice(set) = refusal {
        put_positions(writer, set);
    }
}

fn put_status(writer: &mut Writer<'_>, answer: Result<Answer, Refusal>)
    ensures text { Wrote writer.old writer.new (status answer) }
    ensures short { length (status answer) ≤ 2 }
{
    match answer {
        Ok(_) => writer.put_bytes(b"ok"),
        Err(refusal) => writer.put_number(u32::from(refusal)),
    }
}

fn put_rest(writer: &mut Writer<'_>, answer: Result<Answer, Refusal>, rows: &[Row])
    ensures text { Wrote writer.old writer.new (rest_text answer (map shown rows.now)) }
    ensures short { length (rest_text answer (map shown rows.now)) ≤ 96 + 17 * length rows.now }
{
    match answer {
        Ok(answer) => put_answer(writer, answer, rows),
        Err(refusal) => put_crowd(writer, refusal),
    }
}

impl Put for Reply<'_> {
    ghost text = { λ r. reply_text r.first r.answer (map shown r.rows.now) };

    ghost most = { λ r. 111 + 17 * length r.rows.now };

    fn put(&self, writer: &mut Writer<'_>) {
        put_status(writer, self.answer);
        writer.put(b',');
        writer.put_number(self.first);
        writer.put(b',');
        put_rest(writer, self.answer, self.rows);
        writer.put(b'\n');
    }
}

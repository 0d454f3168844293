// Sheets for C: a sheet's bytes go in, and its answers' bytes come out.
ghost use Rattle.std.specs.Prelude.{◌≡◌, ℕ, ◌≤◌, List, [], length};
ghost use Rattle.text.specs.Rows.{left_of};
ghost use Rattle.text.specs.Texts.{Wrote};
ghost use Rattle.sheet.specs.FaultTexts.{run_fault_text};
ghost use Rattle.sheet.specs.Going.{Part, Going};
ghost use Rattle.sheet.specs.Sheets.{Says, call_lines, calls_at};
ghost use Rattle.capi.specs.Sheets.{RunPut, LinesPut, SheetTold};

use fixed::slices::front;
use reader::code::CodeValues;
use reader::listing::TABLE;
use sheet::faults::{FaultLine, RunFault};
use sheet::put::{Put, write};
use sheet::replies::Heading;
use sheet::run::Run;
use sheet::running::LINE;
use sheet::start::{open_run, sheet_map};
use site::{Mark, Rack, SiteMap};
use text::lines::Lines;
use text::writer::Writer;

/// How many bytes the lines of a sheet have: up to 65,536 lines of up to 2,048 bytes.
#[derive(Clone, Copy)]
struct Size {
    bytes: usize,
    ghost low: { bytes ≤ 134217728 },
}

// A line, and how long it is, whatever room the writer has.
fn put_line<L: Put>(writer: &mut Writer<'_>, line: &L) -> usize
    ensures wrote { L.most line.now ≤ 2048 → Wrote writer.old writer.new (L.text line.now) }
    ensures count { L.most line.now ≤ 2048 → result ≡ length (L.text line.now) }
    ensures short { result ≤ 2048 }
{
    let mut buffer = [0u8; LINE];
    let len = write(line, &mut buffer);
    writer.put_bytes(front(&buffer, len));
    len
}

// The line of a fault that ends a run.
fn put_fault(writer: &mut Writer<'_>, fault: RunFault) -> Size
    ensures wrote { Wrote writer.old writer.new (run_fault_text fault) }
    ensures count { result.bytes ≡ length (run_fault_text fault) }
{
    Size {
        bytes: put_line(writer, &FaultLine::from(fault)),
    }
}

// The lines that a run has still to give.
fn put_lines<M: SiteMap>(writer: &mut Writer<'_>, run: &mut Run<'_, M>) -> Size
    ensures { (p : Part) → p.site ≡ M.SiteMap.meaning run.old.store.map → Going p [] run.old → RunPut p run.new writer.old writer.new result.bytes }
{
    let mut buffer = [0u8; LINE];
    let mut bytes = 0;
    // The run writes into the lent buffer, so a line is its length and no item of an iterator.
    while let Ok(Some(len)) = run.next_line(&mut buffer) {
        writer.put_bytes(front(&buffer, len));
        bytes += len;
    }
    Size { bytes }
}

// The lines of a sheet whose code and site are read, its reader being at the calls part.
fn put_calls<M: SiteMap + Drop>(
    writer: &mut Writer<'_>,
    map: M,
    lines: Lines<'_>,
    code: CodeValues,
) -> Size
    ensures { (sheet : List ℕ) → Says sheet code (M.SiteMap.meaning map) → left_of lines.entry ≡ call_lines sheet → lines.entry.number ≡ calls_at sheet → LinesPut sheet writer.old writer.new result.bytes }
{
    let mut run = Run::new(map, lines);
    match run.begin(code) {
        Ok(()) => put_lines(writer, &mut run),
        Err(fault) => put_fault(writer, fault),
    }
}

// The lines of a sheet after the heading.
fn put_sheet(writer: &mut Writer<'_>, sheet: &[u8]) -> Size
    ensures { LinesPut sheet.now writer.old writer.new result.bytes }
{
    let mut table = [(Rack::default(), Mark::default()); TABLE];
    let mut lines = Lines::new(b"");
    match open_run(sheet, &mut lines, &mut table) {
        Ok(opening) => put_calls(writer, sheet_map(opening, &table), lines, opening.head.code),
        Err(fault) => put_fault(writer, fault),
    }
}

/// Writes a sheet's answers, heading and all, from the front of `out`, as far as it has room, and tells how many bytes they
/// are: where that is more than `out` has, it was too short, and has their front.
#[unsafe(no_mangle)]
pub extern "C" fn vault_run_sheet(sheet: &[u8], out: &mut [u8]) -> usize
    ensures { SheetTold sheet.now out.old out.new result }
{
    let mut writer = Writer::new(out);
    let heading = put_line(&mut writer, &Heading);
    heading + put_sheet(&mut writer, sheet).bytes
}

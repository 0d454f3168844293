// A sheet's answers on standard output: the heading, and then each line as the run gives it.
#![tactic(auto)]

use fixed::slices::front;
use reader::code::CodeValues;
use reader::listing::TABLE;
use sheet::faults::FaultLine;
use sheet::put::{Put, write};
use sheet::replies::Heading;
use sheet::run::Run;
use sheet::running::LINE;
use sheet::start::{open_run, sheet_map};
use site::{Mark, Rack, SiteMap};
use std::io;
use std::io::Write;
use text::lines::Lines;

fn print_line(rt: &HostRuntime, line: &impl Put, buffer: &mut [u8]) -> io::Result<()> {
    let len = write(line, buffer);
    rt.stdout().write_all(front(buffer, len))
}

// The answers to the calls, at a store over the map. `capi` has the same three steps into a buffer, which cannot fail and is told
// byte for byte; one driver over both would be a trait with a law that printing has not.
fn print_calls<M: SiteMap + Drop>(
    rt: &HostRuntime,
    map: M,
    lines: Lines<'_>,
    code: CodeValues,
    buffer: &mut [u8],
) -> io::Result<()> {
    let mut run = Run::new(map, lines);
    if let Err(fault) = run.begin(code) {
        return print_line(rt, &FaultLine::from(fault), buffer);
    }
    // The run writes into the lent buffer, so a line is its length and no item of an iterator.
    while let Ok(Some(len)) = run.next_line(buffer) {
        rt.stdout().write_all(front(buffer, len))?;
    }
    Ok(())
}

/// Prints the heading and the sheet's answers, or its one fault line.
pub fn print_answers(rt: &HostRuntime, sheet: &[u8]) -> io::Result<()> {
    let mut buffer = [0u8; LINE];
    print_line(rt, &Heading, &mut buffer)?;
    let mut table = [(Rack::default(), Mark::default()); TABLE];
    let mut lines = Lines::new(b"");
    match open_run(sheet, &mut lines, &mut table) {
        Ok(opening) => print_calls(
            rt,
            sheet_map(opening, &table),
            lines,
            opening.head.code,
            &mut buffer,
        ),
        Err(fault) => print_line(rt, &FaultLine::from(fault), &mut buffer),
    }
}

// Whole sheets, one test a topic.
use crate::faults::{FaultLine, RunFault};
use crate::put::write;
use crate::run::Run;
use crate::start::{open_run, sheet_map};
use fixed::slices::front;
use reader::code::CodeValues;
use reader::listing::TABLE;
use site::{Mark, Rack, SiteMap};
use text::lines::Lines;

// Whether the one line of a fault is this text.
fn is_fault(fault: RunFault, text: &[u8]) -> bool {
    let mut out = [0; 2048];
    let n = write(&FaultLine::from(fault), &mut out);
    front(&out, n) == text
}

// What follows the run's next line in a text that begins with it.
fn past_next<'t, M: SiteMap>(run: &mut Run<'_, M>, text: &'t [u8]) -> Option<&'t [u8]> {
    let mut out = [0; 2048];
    let len = run.next_line(&mut out).ok().flatten()?;
    text.strip_prefix(front(&out, len))
}

// Whether the lines of a run over a map, one after the other, are this text.
fn runs<M: SiteMap + Drop>(map: M, lines: Lines<'_>, code: CodeValues, text: &[u8]) -> bool {
    let mut run = Run::new(map, lines);
    if let Err(fault) = run.begin(code) {
        return is_fault(fault, text);
    }
    let mut left = text;
    for _ in 0..20 {
        let Some(rest) = past_next(&mut run, left) else {
            return left.is_empty();
        };
        left = rest;
    }
    false
}

// Whether the lines of a sheet are this text.
fn prints(sheet: &[u8], text: &[u8]) -> bool {
    let mut lines = Lines::new(b"");
    let mut table = [(Rack::default(), Mark::default()); TABLE];
    match open_run(sheet, &mut lines, &mut table) {
        Ok(opening) => runs(sheet_map(opening, &table), lines, opening.head.code, text),
        Err(fault) => is_fault(fault, text),
    }
}

#[test]
fn sample(rt: HostRuntime) {
    assert!(rt;
        prints(
            b"n,k,c,targets\n4,3,1,15\n\nracks,each\n4,2\n\ncall,first,rest\no,101,0 2 3\no,102,1 2 3\no,103,0 3 2\no,103,1 4 5\ns,0,6\np,0,\nd,0,\nr,0,\n",
            b"ok,101,1\nok,102,2\n24,103,1 2 3\nok,103,3\nok,0,\nok,0,0 2 4 6\nok,0,101:2 101:3 102:1 102:3 103:1 103:5\nok,0,\n",
        )
    );
}

#[test]
fn faults(rt: HostRuntime) {
    assert!(rt; prints(b"", b"14,1,1\n"));
    assert!(rt; prints(b"n,k,c,targets\n4,3,1,15\n\nracks,each\n4,0\n", b"9,5,1\n"));
    assert!(rt; prints(b"n,k,c,targets\n5,4,1,15\n\nracks,each\n4,2\n", b"2,2,1\n"));
    assert!(rt;
        prints(
            b"n,k,c,targets\n4,3,1,15\n\nracks,each\n4,2\n\ncall,first\n",
            b"10,7,1\n",
        )
    );
    assert!(rt;
        prints(
            b"c,k,n,targets\n1,3,4,15\n\nkeep,node,rack\ny,0,0\ny,1,1\ny,2,2\ny,3,3\n\nrest,call,first\n0 1,o,7\n0 1 2 3 4 5 6 7 8,o,8\nx,q,9\n0,s,32",
            b"ok,7,1\n3,8,\n11,13,3\n7,32,\n",
        )
    );
}

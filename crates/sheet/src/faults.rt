// What ends a run before its first call, and the line of a fault.
ghost use Rattle.std.specs.Prelude.{◌≡◌};
ghost use Rattle.sheet.specs.declared.faults.RunFault.TheVariants.{Site, SetUp, Calls};
ghost use Rattle.sheet.specs.FaultTexts.{fault_line, run_fault_text, told_line};

use crate::put::Put;
use reader::opening::SiteFault;
use store::types::Refusal;
use text::fault::Fault;
use text::place::Place;
use text::writer::Writer;

/// The line of the code's values, where a refused set-up is told.
pub const CODE_LINE: u32 = 2;

/// A fault of code or site whole inside, the refused set-up, or the fault of the calls' names line.
#[derive(Clone, Copy)]
pub enum RunFault {
    Site(SiteFault),
    SetUp(Refusal),
    Calls(Fault),
}

impl From<SiteFault> for RunFault {
    ghost from_gives = { λ f r. r ≡ Site f };

    fn from(fault: SiteFault) -> RunFault {
        RunFault::Site(fault)
    }
}

impl From<Refusal> for RunFault {
    ghost from_gives = { λ f r. r ≡ SetUp f };

    fn from(refusal: Refusal) -> RunFault {
        RunFault::SetUp(refusal)
    }
}

impl From<Fault> for RunFault {
    ghost from_gives = { λ f r. r ≡ Calls f };

    fn from(fault: Fault) -> RunFault {
        RunFault::Calls(fault)
    }
}

/// A fault as its line tells it: by its number and its place.
#[derive(Clone, Copy, PartialEq, Eq, Debug)]
pub struct FaultLine {
    pub number: u32,
    pub place: Place,
}

impl From<Fault> for FaultLine {
    ghost from_gives = { λ f l. told_line l ≡ fault_line f };

    fn from(fault: Fault) -> FaultLine {
        FaultLine {
            number: u32::from(u8::from(fault.kind)),
            place: fault.place,
        }
    }
}

impl From<SiteFault> for FaultLine {
    ghost from_gives = { λ f l. told_line l ≡ run_fault_text (Site f) };

    fn from(fault: SiteFault) -> FaultLine {
        match fault {
            SiteFault::Read(fault) => FaultLine::from(fault),
            SiteFault::Refused(refusal, line) => FaultLine {
                number: u32::from(refusal),
                place: Place { line, column: 1 },
            },
        }
    }
}

impl From<RunFault> for FaultLine {
    ghost from_gives = { λ f l. told_line l ≡ run_fault_text f };

    fn from(fault: RunFault) -> FaultLine {
        match fault {
            RunFault::Site(fault) => FaultLine::from(fault),
            RunFault::SetUp(refusal) => FaultLine {
                number: u32::from(refusal),
                place: Place {
                    line: CODE_LINE,
                    column: 1,
                },
            },
            RunFault::Calls(fault) => FaultLine::from(fault),
        }
    }
}

impl Put for FaultLine {
    ghost text = { told_line };

    ghost most = { λ _. 33 };

    fn put(&self, writer: &mut Writer<'_>) {
        let FaultLine { number, place } = *self;
        number.put(writer);
        writer.put(b',');
        place.line.put(writer);
        writer.put(b',');
        place.column.put(writer);
        writer.put(b'\n');
    }
}

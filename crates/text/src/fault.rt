// What a reader finds wrong with a sheet, and where.
ghost use Rattle.std.specs.Prelude.{◌≡◌};

use crate::place::Place;

#[derive(Clone, Copy, PartialEq, Eq, Debug)]
pub enum FaultKind {
    /// A names line is wrong.
    Names,
    /// A field is not the letter, number, node list or empty text that is wanted.
    Field,
    /// A value or a value line is missing, or is one too many.
    Count,
    /// A node number is not the next one, or is too high.
    Node,
    /// The sheet is too long, or lacks a part.
    Sheet,
}

#[derive(Clone, Copy, PartialEq, Eq, Debug)]
pub struct Fault {
    pub kind: FaultKind,
    pub place: Place,
}

/// The number that the fault is told by.
impl From<FaultKind> for u8 {
    ghost use Rattle.text.specs.Faults.{number_of};

    ghost from_gives = { λ kind r. r ≡ number_of kind };

    fn from(kind: FaultKind) -> u8 {
        match kind {
            FaultKind::Names => 10,
            FaultKind::Field => 11,
            FaultKind::Count => 12,
            FaultKind::Node => 13,
            FaultKind::Sheet => 14,
        }
    }
}

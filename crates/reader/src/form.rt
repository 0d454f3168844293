// What the fields of a value line have to be.
ghost use Rattle.std.specs.Prelude.{◌≡◌};
ghost use Rattle.reader.specs.Wants.{want_of, Judged, say_of, Marked};

use crate::act::{Act, act_of, only_char};
use site::{Mark, NODES, RACKS};
use text::fault::FaultKind;
use text::nodes::{HIGHEST, node_list};
use text::number::number;

/// The highest number that a rack of a node line may have.
pub const LAST_RACK: u32 = RACKS - 1;

/// The highest number that a node line may have.
pub const LAST_NODE: u32 = NODES as u32 - 1;

/// What a field has to be.
#[derive(Clone, Copy)]
pub enum Want {
    /// A number up to a limit.
    Number(u32),
    /// The number of the next node, which is the count of those before it.
    Next(u32),
    /// A keep mark.
    Keep,
    /// The letter of a call.
    Letter,
    /// A node list.
    Nodes,
    /// An empty text.
    Nothing,
    /// Whatever it is, it is not judged.
    Anything,
}

/// The kinds of value lines. Each says what the field under a name has to be, names going by their number.
#[derive(Clone, Copy)]
pub enum Form {
    /// Numbers only, as in the code and the regular site.
    Numbers,
    /// A node line, after so many others.
    Node(u32),
    /// The line of this call, if its letter is known.
    Call(Option<Act>),
}

impl Act {
    // What follows the call and its first number.
    fn rest(self) -> Want
        ensures { result ≡ say_of self }
    {
        match self {
            Act::Offer => Want::Nodes,
            Act::Seal => Want::Number(HIGHEST),
            Act::Plan | Act::Deletions | Act::Release | Act::Abandon => Want::Nothing,
        }
    }
}

impl Form {
    /// What the field under a name has to be.
    pub(crate) fn wants(self, name: usize) -> Want
        ensures { result ≡ want_of self name }
    {
        match (self, name) {
            (Form::Numbers, _) => Want::Number(u32::MAX),
            (Form::Node(count), 0) => Want::Next(count),
            (Form::Node(_), 1) => Want::Number(LAST_RACK),
            (Form::Node(_), _) => Want::Keep,
            (Form::Call(_), 0) => Want::Letter,
            (Form::Call(_), 1) => Want::Number(u32::MAX),
            (Form::Call(Some(act)), _) => act.rest(),
            (Form::Call(None), _) => Want::Anything,
        }
    }
}

/// The keep mark that the field is.
pub(crate) fn mark_of(field: &[u8]) -> Option<Mark>
    ensures { Marked field.now result }
{
    match only_char(field)? {
        'y' => Some(Mark::Yes),
        'n' => Some(Mark::No),
        _ => None,
    }
}

// Judges the number of the next node.
fn judge_next(field: &[u8], count: u32) -> Result<(), FaultKind>
    ensures { Judged (Want.Next count) field.now result }
{
    let node = number(field, u32::MAX).ok_or(FaultKind::Field)?;
    if node != count || node > LAST_NODE {
        return Err(FaultKind::Node);
    }
    Ok(())
}

impl Want {
    /// Judges a field.
    pub(crate) fn judge(self, field: &[u8]) -> Result<(), FaultKind>
        ensures { Judged self field.now result }
    {
        let fits = match self {
            Want::Number(limit) => number(field, limit).is_some(),
            Want::Next(count) => return judge_next(field, count),
            Want::Keep => mark_of(field).is_some(),
            Want::Letter => act_of(field).is_some(),
            Want::Nodes => node_list(field).is_some(),
            Want::Nothing => field.is_empty(),
            Want::Anything => true,
        };
        fits.then_some(()).ok_or(FaultKind::Field)
    }
}

// What is asked of a store, and what it answers.
use site::set::NumberSet;
use site::{Node, Rack};

/// What a row tells of its node: it keeps a data block, it takes a parity block, or its copy is deleted.
#[derive(Clone, Copy, PartialEq, Eq, Debug, Default)]
pub enum Kind {
    #[default]
    Data,
    Parity,
    Deleted,
}

/// A line of a plan or of a list of deletions. The number is the block's, or a parity block's from 1 on.
#[derive(Clone, Copy, PartialEq, Eq, Debug, Default)]
pub struct Row {
    pub kind: Kind,
    pub number: u32,
    pub node: Node,
    pub rack: Rack,
}

/// A call, with its arguments as the caller gave them.
#[derive(Clone, Copy)]
pub enum Call<'a> {
    SetUp {
        n: u32,
        k: u32,
        c: u32,
    },
    Offer {
        block: u32,
        nodes: &'a [Node],
    },
    Seal {
        rack: Rack,
        start: Node,
    },
    Plan {
        rack: Rack,
    },
    Deletions {
        rack: Rack,
    },
    /// The lost racks are a word, as the caller writes it.
    Standing {
        rack: Rack,
        lost: &'a [Node],
        racks: u32,
    },
    Release {
        rack: Rack,
    },
    Abandon {
        rack: Rack,
    },
}

/// What an accepted call answers: nothing further, a block's position from 1 on, how many rows it wrote, or how many
/// planned blocks stand.
#[derive(Clone, Copy, PartialEq, Eq, Debug)]
pub enum Answer {
    Done,
    Position(u32),
    Rows(usize),
    Standing(u32),
}

/// Why a call is refused. `NoChoice` holds the set of blocks that crowd the offered one out, each as its place from 0.
#[derive(Clone, Copy, PartialEq, Eq, Debug)]
pub enum Refusal {
    OutsideLimits,
    SpaceBelowN,
    ListLength,
    OffMap,
    NodeTwice,
    CoreRackAgain,
    NoSuchRack,
    NotSetUp,
    SetUpBefore,
    BlockHeld,
    StripeFull,
    NoChoice(NumberSet),
    StripeBelowK,
    Sealed,
    NotSealed,
    StripeEmpty,
    FewRows,
}

/// The number that a refusal is told by.
impl From<Refusal> for u32 {
    ghost use Rattle.std.specs.Prelude.{◌≡◌};
    ghost use Rattle.store.specs.Refusals.{number_of};

    ghost from_gives = { λ refusal number. number ≡ number_of refusal };

    fn from(refusal: Refusal) -> u32 {
        match refusal {
            Refusal::OutsideLimits => 1,
            Refusal::SpaceBelowN => 2,
            Refusal::ListLength => 3,
            Refusal::OffMap => 4,
            Refusal::NodeTwice => 5,
            Refusal::CoreRackAgain => 6,
            Refusal::NoSuchRack => 7,
            Refusal::NotSetUp => 20,
            Refusal::SetUpBefore => 21,
            Refusal::BlockHeld => 22,
            Refusal::StripeFull => 23,
            Refusal::NoChoice(_) => 24,
            Refusal::StripeBelowK => 25,
            Refusal::Sealed => 26,
            Refusal::NotSealed => 27,
            Refusal::StripeEmpty => 28,
            Refusal::FewRows => 29,
        }
    }
}

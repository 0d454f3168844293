// The laws of the list of choices and of its head, the first choice.
ghost use Rattle.choices.specs.Choice.{ChoicesExact, HeadFirst};
ghost use Rattle.choices.specs.Order.{EmptyExact, FirstHead, FirstUnique, NarrowEnds, NarrowKeeps, YesEnough};

/// The list of choices holds the choices and nothing else.
pub fn choices_exact()
    ensures { ChoicesExact }
{}

/// It is empty exactly where there is no choice.
pub fn empty_exact()
    ensures { EmptyExact }
{}

/// Its head is the first choice.
pub fn head_first()
    ensures { HeadFirst }
{}

/// There is one first choice at most.
pub fn first_unique()
    ensures { FirstUnique }
{}

/// The first choice is the head of the list.
pub fn first_head()
    ensures { FirstHead }
{}

/// No other node than the yes nodes counts.
pub fn yes_enough()
    ensures { YesEnough }
{}

/// To narrow a list to its earliest node that leaves a choice keeps the first choice.
pub fn narrow_keeps()
    ensures { NarrowKeeps }
{}

/// Where every list has one node, a choice is the first.
pub fn narrow_ends()
    ensures { NarrowEnds }
{}

// The laws of plans: the parity nodes never run out, and what stands after losses.
ghost use Rattle.choices.specs.Survive.{LossesBounded, ParityFull, PlanSurvives, PlannedFull};

/// Where the site has space for n blocks, the parity nodes never run out, and all planned nodes keep the rules.
pub fn parity_full()
    ensures { ParityFull }
{}

/// A stripe that has a choice has a plan of n nodes that keep the rules.
pub fn planned_full()
    ensures { PlannedFull }
{}

/// With each lost node goes at most one planned block, and with each lost rack at most c.
pub fn losses_bounded()
    ensures { LossesBounded }
{}

/// As many blocks as the stripe has stand while the losses are within the parity.
pub fn plan_survives()
    ensures { PlanSurvives }
{}

// What the definitions of a run owe.
ghost use Rattle.sheet.specs.Results.{CrowdLeast, AnswersOne};
ghost use Rattle.sheet.specs.Runs.{PlanNamed, LinesNoted};
ghost use Rattle.sheet.specs.Going.{LinesGrow};
ghost use Rattle.sheet.specs.Sheets.{UnopenedTold, OpenedSays, UnbegunTold, WholeTold, ToldOne};
ghost use Rattle.laws.specs.Lines.{LinesOne};

use sheet::run::Run;
use site::SiteMap;

/// The set that a refused offer names is a function of the blocks.
pub fn crowd_least()
    ensures { CrowdLeast }
{}

/// A store's answer is a function of the calls before it.
pub fn answers_one()
    ensures { AnswersOne }
{}

/// The line of a plan names its nodes.
pub fn plan_named()
    ensures { PlanNamed }
{}

/// The ledger that a sheet's call lines lead to is that of their calls and of nothing else.
pub fn lines_noted()
    ensures { LinesNoted }
{}

/// Each line that a run gives is the next of its sheet's.
pub fn lines_grow()
    ensures { LinesGrow }
{}

/// A sheet that is not opened has the one line of its fault.
pub fn unopened_told()
    ensures { UnopenedTold }
{}

/// An opened sheet's map means what the sheet says.
pub fn opened_says()
    ensures { OpenedSays }
{}

/// A run that does not begin has the one line of its fault.
pub fn unbegun_told<M: SiteMap>(run: &Run<'_, M>)
    ensures { UnbegunTold run.now }
{}

/// The lines that a run gives one after the other are those of its sheet.
pub fn whole_told<M: SiteMap>(run: &Run<'_, M>)
    ensures { WholeTold run.now }
{}

/// A sheet's code, site and call lines leave one list of lines.
pub fn told_one()
    ensures { ToldOne }
{}

/// A sheet's bytes alone leave one list of lines.
pub fn lines_one()
    ensures { LinesOne }
{}

// What is written reads back: laws of the texts that the reader's contracts speak of.
ghost use Rattle.laws.specs.Backs.{HeadReadsBack, OneCode, OneSite, CallReadsBack, OneCall};

/// The texts of any code and site, under names in any order, have no fault.
pub fn head_reads_back()
    ensures { HeadReadsBack }
{}

/// Lines are the text of one code at most.
pub fn one_code()
    ensures { OneCode }
{}

/// Lines are the text of one site at most.
pub fn one_site()
    ensures { OneSite }
{}

/// The text of any call, under names in any order, has no fault.
pub fn call_reads_back()
    ensures { CallReadsBack }
{}

/// A line is the text of one call at most.
pub fn one_call()
    ensures { OneCall }
{}

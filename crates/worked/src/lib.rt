// Worked examples of the rules, as one proved list.
#![tactic(auto)]

ghost use Rattle.worked.specs.Worked.{Worked};

/// The examples follow from the rules.
pub fn worked_examples()
    ensures { Worked }
{}

#[cfg(test)]
mod tests;

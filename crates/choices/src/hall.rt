// When some blocks have a choice: exactly where no set of them is tight.
ghost use Rattle.choices.specs.Hall.{NoTightWhereChoice, Hall, ChoiceOrTight, LeastExists, LeastOne};

/// Where there is a choice, no set is tight.
pub fn no_tight_where_choice()
    ensures { NoTightWhereChoice }
{}

/// There is a choice exactly where no set is tight.
pub fn choice_where_no_tight()
    ensures { Hall }
{}

/// Of any blocks, a choice or a tight set is found.
pub fn choice_or_tight()
    ensures { ChoiceOrTight }
{}

/// Where one more block takes the last choice away, there is a least tight set.
pub fn least_exists()
    ensures { LeastExists }
{}

/// A least tight set is the only one.
pub fn least_one()
    ensures { LeastOne }
{}

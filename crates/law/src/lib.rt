// The law over every succession of calls and power cuts.
#![tactic(auto)]

ghost use Rattle.law.specs.Law.{Law};
ghost use Rattle.law.specs.Live.{StartsExist, ChangeCanEnd};

// Every run after a format keeps the law, with every cipher that keeps its contract.
pub fn law_stands()
    ensures { Law }
{}

// There are such runs: a format that is not refused gives a start.
pub fn starts_exist()
    ensures { StartsExist }
{}

// From every start with two keys of different checks some run carries a whole change of the key through.
pub fn change_can_end()
    ensures { ChangeCanEnd }
{}
